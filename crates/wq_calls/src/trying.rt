//! One try of a sender, by whichever part of a chair is the sender's.
ghost use Rattle.std.specs.Prelude.{◌≡◌, ◌<◌};
ghost use Rattle.wq_words.specs.declared.answer.Posted.TheVariants.{Closed, Draining};
ghost use Rattle.wq_words.specs.History.{Holds};
ghost use Rattle.wq_words.specs.Numbers.{number_count};
ghost use Rattle.wq_core.specs.Words.{closed_word, draining_word};
ghost use Rattle.wq_table.specs.Chair.{IsSender, HasSeen};
ghost use Rattle.wq_table.specs.SlotChairs.{part_in};
ghost use Rattle.wq_table.specs.Beside.{Learns};
ghost use Rattle.wq_calls.specs.Tells.{PostsAs};
ghost use Rattle.wq_calls.specs.Hands.{IsToBring, PostsSlot};

use wq_core::place::link_word;
use wq_table::{Chair, WhichPart};
use wq_words::{Head, Posted};

/// One try to push a number that the sender holds: look, link, push. A sender that finds the queue shut holds it still.
pub(crate) fn try_push<V, P: WhichPart>(chair: &mut Chair<V>, number: u32) -> Posted
    requires sender { IsSender (part_in P.at chair.old).stage }
    requires number { number < number_count (part_in P.at chair.old).layout }
    requires held { Holds (part_in P.at chair.old).seen (part_in P.at chair.old).seat number }
    requires slot { IsToBring (part_in P.at chair.old).layout.items number chair.old }
    ensures posts { PostsAs number result (part_in P.at chair.old) (part_in P.at chair.new) }
    ensures sees_closed { result ≡ Closed → HasSeen closed_word (part_in P.at chair.new).stage }
    ensures sees { result ≡ Draining → HasSeen draining_word (part_in P.at chair.new).stage }
    ensures sender { IsSender (part_in P.at chair.new).stage }
    ensures learns { Learns P.at chair.old chair.new }
    ensures slots { PostsSlot P.at number result chair.old chair.new }
{
    let word = chair.look::<P>();
    let closed = Head::Closed.to_word();
    let draining = Head::Draining.to_word();
    let empty = Head::Empty.to_word();
    if word == closed {
        return Posted::Closed;
    }
    if word == draining {
        return Posted::Draining;
    }
    chair.link::<P>(number, word);
    if chair.push::<P>(number, word) == word {
        return Posted::Queued {
            first: link_word(word) == empty,
            wakes: word == empty,
        };
    }
    Posted::Contended
}
