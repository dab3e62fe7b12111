//! Two logs, whose lines two clients queue and two workers write.
use crate::calls::{Said, right};
use example_log::{Line, Log, LogError, Message, Written, write};
use std::alloc::Global;
use std::sync::Wait;
use std::thread::Threads;
use wq_words::Layout;

/// So many lines a client sends to each log: one more than it has items of it, so that it has to wait for the workers.
const LINES: usize = 5;

/// What each of them is.
const LINE: [u8; 5] = *b"line\n";

/// A message for this log. None where memory was wanting.
fn message_for(alloc: Global, log: Log) -> Option<Message> {
    let line: Line = Vec::from_array(alloc, LINE).ok()?;
    Some(Message { log, line })
}

/// What a client sends. None where memory was wanting.
fn messages(alloc: Global) -> Option<Vec<Message>> {
    let mut messages = Vec::new(alloc);
    for _ in 0..LINES {
        messages.push(message_for(alloc, Log::Access)?).ok()?;
        messages.push(message_for(alloc, Log::Errors)?).ok()?;
    }
    Some(messages)
}

/// Whether a log has so many bytes as both clients' lines have.
fn is_whole(written: &Written) -> bool {
    written.text.len() == LINES * LINE.len() * 2
}

/// Writes both logs.
pub fn write_logs<T: Threads + Wait + Sync>(rt: &T, alloc: Global) -> Said {
    let Ok(layout) = Layout::new(8, 1, 4) else {
        return Said::Wrong;
    };
    let (Some(first), Some(second)) = (messages(alloc), messages(alloc)) else {
        return Said::Memory;
    };
    match write(rt, alloc, layout, first, second) {
        Ok((access, errors)) => {
            let are_whole = is_whole(&access) && is_whole(&errors);
            drop((access, errors));
            right(are_whole)
        }
        Err(LogError::Memory) => Said::Memory,
        Err(LogError::Thread) => Said::Thread,
        Err(LogError::Out { .. }) => Said::Wrong,
    }
}
