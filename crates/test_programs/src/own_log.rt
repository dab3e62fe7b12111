//! The example of a user's own logs.
use crate::expect::expect_each_words;
use example_log::{Line, Log, LogError, Message, Written, write};
use std::alloc::Global;
use std::process::Abort;
use wq_words::Layout;

const RUNS: u32 = 20;

/// So many messages a client sends, from message 0 on: each third is an error.
const MESSAGES: u8 = 60;

/// How long a line is.
const LENGTH: usize = 4;

fn log_of(number: u8) -> Log {
    if number % 3 == 0 {
        Log::Errors
    } else {
        Log::Access
    }
}

/// A client's line of this number: the client, the number in two digits, and a line feed.
fn line_of(client: u8, number: u8) -> [u8; 4] {
    [client, b'0' + number / 10 % 10, b'0' + number % 10, b'\n']
}

/// The number of the message that is this one, from 0 on, of those that a client sends to a log.
fn number_of(log: Log, place: u8) -> u8 {
    match log {
        Log::Errors => place.wrapping_mul(3),
        Log::Access => place.wrapping_add(place / 2).wrapping_add(1),
    }
}

/// How many messages a client sends to a log.
fn sent_to(log: Log) -> u8 {
    match log {
        Log::Errors => MESSAGES / 3,
        Log::Access => MESSAGES / 3 * 2,
    }
}

/// What a client sends.
fn messages_of<R: Abort>(rt: &R, alloc: Global, client: u8) -> Vec<Message> {
    let mut messages = Vec::new(alloc);
    for number in 0..MESSAGES {
        let line: Line = Vec::from_array(alloc, line_of(client, number)).expect(rt, "memory");
        let log = log_of(number);
        messages.push(Message { log, line }).expect(rt, "memory");
    }
    messages
}

/// Of the lines of a text, those of one client are what it sends to the log, in its order.
fn has_all_of(text: &[u8], client: u8, log: Log) -> bool {
    let mut place = 0u8;
    for line in text.chunks(LENGTH) {
        if line.first() == Some(&client) {
            if line != line_of(client, number_of(log, place)).as_slice() {
                return false;
            }
            place = place.wrapping_add(1);
        }
    }
    place == sent_to(log)
}

/// A log has the lines of both clients, each client's in their order, and no others.
fn has_all(written: &Written, log: Log) -> bool {
    let text = written.text.as_slice();
    let all = MESSAGES as usize;
    has_all_of(text, b'1', log)
        && has_all_of(text, b'2', log)
        && text.len() == sent_to(log) as usize * LENGTH * 2
        && written.of_first == all
        && written.of_second == all
}

/// Both logs have all lines of both clients, each client's in its order, each time.
#[test]
fn both_logs_have_all_lines(rt: HostRuntime) {
    for _run in 0..RUNS {
        let alloc = rt.alloc();
        let first = messages_of(&rt, alloc, b'1');
        let second = messages_of(&rt, alloc, b'2');
        let layout = Layout::new(8, 1, 4).expect(&rt, "a layout");
        let (access, errors) = write(&rt, alloc, layout, first, second).expect(&rt, "a run");
        assert!(rt; has_all(&access, Log::Access));
        assert!(rt; has_all(&errors, Log::Errors));
    }
}

const WORDS: &[(LogError, &str)] = &[
    (LogError::Memory, "no memory"),
    (LogError::Thread, "no thread"),
    (LogError::Out { queue: 1 }, "the queue 1 is out"),
];

#[test]
fn words_of_log_errors(rt: HostRuntime) {
    expect_each_words(&rt, rt.alloc(), WORDS);
}
