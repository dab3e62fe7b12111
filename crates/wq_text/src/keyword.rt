//! The commands of a script, as words.
ghost use Rattle.std.specs.Prelude.{◌≡◌, map, IfOk};
ghost use Rattle.wq_text.specs.Fault.{LineGives};
ghost use Rattle.wq_text.specs.Fits.{Fits};
ghost use Rattle.wq_text.specs.Keyword.{keyword_at, keyword_at_2, command_gives};

use crate::arguments::{
    item_and_delay, item_and_follow, no_word, number, one_item, one_limit, one_word, sender,
    sender_and_barrier, sender_and_item,
};
use crate::command::Command;
use crate::fault::LineError;
use wq_words::Layout;

// The first words of commands.
#[derive(Clone, Copy)]
pub(crate) enum Keyword {
    Queue,
    Run,
    Close,
    Report,
    Follow,
    Flush,
    Done,
    Stop,
    Drain,
    DrainAndResume,
    Check,
    Arm,
    Cancel,
    Modify,
    Advance,
}

#[tactic(auto, unfolding(crate::specs::Keyword::keyword_at))]
pub(crate) fn keyword_of(word: &str) -> Option<Keyword>
    ensures { result ≡ keyword_at word.now }
{
    match word {
        "queue" => Some(Keyword::Queue),
        "run" => Some(Keyword::Run),
        "close" => Some(Keyword::Close),
        "report" => Some(Keyword::Report),
        "follow" => Some(Keyword::Follow),
        "flush" => Some(Keyword::Flush),
        "done" => Some(Keyword::Done),
        "stop" => Some(Keyword::Stop),
        "drain" => Some(Keyword::Drain),
        "check" => Some(Keyword::Check),
        "arm" => Some(Keyword::Arm),
        "cancel" => Some(Keyword::Cancel),
        "modify" => Some(Keyword::Modify),
        "advance" => Some(Keyword::Advance),
        _ => None,
    }
}

// The same in version 2, where a drain is another command.
#[tactic(auto, unfolding(crate::specs::Keyword::keyword_at_2))]
pub(crate) fn keyword_of_2(word: &str) -> Option<Keyword>
    ensures { result ≡ keyword_at_2 word.now }
{
    match word {
        "drain" => Some(Keyword::DrainAndResume),
        _ => keyword_of(word),
    }
}

// The command of a keyword and the words behind it.
#[tactic(auto, unfolding(crate::specs::Keyword::command_gives))]
pub(crate) fn command(
    layout: Layout,
    keyword: Keyword,
    words: &[&str],
) -> Result<Command, LineError>
    ensures exact { LineGives result (command_gives layout keyword (map (λ w. w.now) words.now)) }
    ensures fits { IfOk result (Fits layout) }
{
    match keyword {
        Keyword::Queue => {
            let (sender, item) = sender_and_item(layout, words)?;
            Ok(Command::Queue { sender, item })
        }
        Keyword::Run => one_limit(words).map(Command::Run),
        Keyword::Close => no_word(words).map(|()| Command::Close),
        Keyword::Report => no_word(words).map(|()| Command::Report),
        Keyword::Follow => {
            let (item, follow) = item_and_follow(layout, words)?;
            Ok(Command::Follow { item, follow })
        }
        Keyword::Flush => {
            let (sender, barrier) = sender_and_barrier(layout, words)?;
            Ok(Command::Flush { sender, barrier })
        }
        Keyword::Done => {
            let (sender, barrier) = sender_and_barrier(layout, words)?;
            Ok(Command::Done { sender, barrier })
        }
        Keyword::Stop => one_word(words)
            .and_then(|word| sender(layout, word))
            .map(Command::Stop),
        Keyword::Drain => one_limit(words).map(Command::Drain),
        Keyword::DrainAndResume => one_limit(words).map(Command::DrainAndResume),
        Keyword::Check => one_item(layout, words).map(Command::Check),
        Keyword::Arm => {
            let (item, delay) = item_and_delay(layout, words)?;
            Ok(Command::Arm { item, delay })
        }
        Keyword::Cancel => one_item(layout, words).map(Command::Cancel),
        Keyword::Modify => {
            let (item, delay) = item_and_delay(layout, words)?;
            Ok(Command::Modify { item, delay })
        }
        Keyword::Advance => one_word(words).and_then(number).map(Command::Advance),
    }
}
