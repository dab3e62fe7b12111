//! A sender that holds two items at once.
ghost use Rattle.std.specs.Prelude.{◌≡◌, ◌≢◌, ◌<◌, IsTrue};
ghost use Rattle.wq_words.specs.History.{Holds};
ghost use Rattle.wq_words.specs.declared.answer.Posted.TheVariants.{Contended};
ghost use Rattle.wq_live.specs.Known.{IsSame};

use crate::expect::expect_same;
use crate::seats::{WAKES, seats};
use wq_live::{Posted, Sender};

/// Holds both items. What it held already is given back where the other was pending.
fn hold_both(sender: &mut Sender, one: u32, two: u32) -> bool
    requires one { one < sender.old.layout.items }
    requires two { two < sender.old.layout.items }
    ensures same { IsSame sender.old sender.new }
    ensures one { IsTrue result → Holds sender.new.seen sender.new.number one }
    ensures two { IsTrue result → Holds sender.new.seen sender.new.number two }
{
    if !sender.hold(one) {
        return false;
    }
    if !sender.hold(two) {
        sender.give_back(one);
        return false;
    }
    true
}

/// Looks at the other item, and pushes the one. The other is held still, and the one too where its push was contended.
fn post_one(sender: &mut Sender, one: u32, two: u32) -> Posted
    requires one { (one < sender.old.layout.items) × Holds sender.old.seen sender.old.number one }
    requires two { (two < sender.old.layout.items) × Holds sender.old.seen sender.old.number two }
    requires apart { two ≢ one }
    ensures same { IsSame sender.old sender.new }
    ensures one { result ≡ Contended → Holds sender.new.seen sender.new.number one }
    ensures two { Holds sender.new.seen sender.new.number two }
{
    sender.is_pending(two);
    sender.post(one, 1)
}

/// Gives both items back.
fn give_both(sender: &mut Sender, one: u32, two: u32)
    requires one { (one < sender.old.layout.items) × Holds sender.old.seen sender.old.number one }
    requires two { (two < sender.old.layout.items) × Holds sender.old.seen sender.old.number two }
    requires apart { two ≢ one }
    ensures same { IsSame sender.old sender.new }
{
    sender.give_back(one);
    sender.give_back(two);
}

/// Holds two items, pushes the one, and gives the other back, which it held all the while. Where the push was contended, both are
/// given back.
fn post_one_of_two(sender: &mut Sender, one: u32, two: u32) -> Option<Posted>
    requires one { one < sender.old.layout.items }
    requires two { two < sender.old.layout.items }
    requires apart { two ≢ one }
    ensures same { IsSame sender.old sender.new }
{
    if !hold_both(sender, one, two) {
        return None;
    }
    let posted = post_one(sender, one, two);
    if let Posted::Contended = posted {
        give_both(sender, one, two);
    } else {
        sender.give_back(two);
    }
    Some(posted)
}

/// Two items are held at once: the one is pushed, and the other given back. Where either is pending, neither is held afterwards.
#[test]
fn one_of_two_is_posted(rt: HostRuntime) {
    let (owner, mut first, mut second) = seats(&rt, rt.alloc(), 4, 2);
    assert!(rt; 2 < first.layout().items && 2 < second.layout().items);
    expect_same(&rt, second.queue_tries(0, 1), WAKES);
    expect_same(&rt, post_one_of_two(&mut first, 0, 1), None);
    expect_same(&rt, post_one_of_two(&mut first, 1, 0), None);
    let posted = Posted::Queued {
        first: false,
        wakes: false,
    };
    expect_same(&rt, post_one_of_two(&mut first, 1, 2), Some(posted));
    expect_same(&rt, second.is_pending(1), true);
    expect_same(&rt, second.is_pending(2), false);
    drop(second);
    drop(first);
    drop(owner);
}
