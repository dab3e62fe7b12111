//! What the command line itself answers.
use clap::Error;
use clap::error::ErrorKind;
use std::alloc::Global;

/// What is said in place of running a text.
#[derive(Drop)]
pub enum Notice {
    /// Help, or the version.
    Help(Vec<u8>),
    /// What is wrong with the words.
    Wrong(Vec<u8>),
    /// Want of memory.
    Memory,
}

impl Notice {
    // What an error of the command line says.
    pub(crate) fn of(alloc: Global, error: &Error) -> Notice {
        if error.kind() == ErrorKind::OutOfMemory {
            return Notice::Memory;
        }
        let mut text = String::new(alloc);
        if write!(text, "{error}").is_err() {
            return Notice::Memory;
        }
        if error.use_stderr() {
            return Notice::Wrong(text.into_bytes());
        }
        Notice::Help(text.into_bytes())
    }
}
