//! Items that bring a value.
mod owner;
mod payload;
mod posts;

use crate::benchmark::{Load, Width};
use crate::host::Host;
use crate::refusal::Refusal;
use owner::ValueThroughput;
use payload::{Wide, Word};

/// Executes so many items, each with a value that it reads, as `owner::run` does items that bring none.
pub fn run<R: Host>(rt: &R, width: Width, load: Load) -> Result<ValueThroughput, Refusal> {
    match width {
        Width::Word => owner::run::<R, Word>(rt, load),
        Width::Wide => owner::run::<R, Wide>(rt, load),
    }
}
