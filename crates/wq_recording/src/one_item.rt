//! How both languages read a word that is an item.
ghost use Rattle.std.specs.Prelude.{◌<◌, map, IfOk};
ghost use Rattle.wq_text.specs.Arguments.{item, one};
ghost use Rattle.wq_text.specs.Fault.{LineGives};

use wq_text::{LineError, item, one_word};
use wq_words::Layout;

/// The item in the one word that stands there.
pub(crate) fn one_item(layout: Layout, words: &[&str]) -> Result<u32, LineError>
    ensures exact { LineGives result (one (item layout) (map (λ w. w.now) words.now)) }
    ensures within { IfOk result (λ n. n < layout.items) }
{
    let word = one_word(words)?;
    item(layout, word)
}
