//! Makes the calls that take memory, and prints what came of each. A line `CALL N` on standard input asks for one call alone, whose
//! Nth allocation is then the hundredth of this program: `rt try --fail-alloc 100` refuses it, and no other.
#![tactic(auto)]

mod calls;
mod checkers;
mod examples;
mod host;
mod log;
mod pool;
mod streams;
mod table;
mod value_worker;
mod values;
mod worker;

use calls::{CALLS, Call, make};
use host::Host;
use std::alloc::Global;
use std::io;
use std::io::Read;

/// The allocation that is refused from outside.
const REFUSED: u32 = 100;

/// Makes allocations. Whether one was refused.
fn spend(alloc: Global, count: u32) -> bool {
    let mut refused = false;
    for _ in 0..count {
        let made: Result<Vec<u8>, _> = Vec::with_capacity(alloc, 1);
        if made.is_err() {
            refused = true;
        }
    }
    refused
}

/// The call that a line asks for, and which of its allocations.
fn asked(line: &[u8]) -> Option<(&'static str, Call, u32)> {
    let (name, place) = str::from_utf8(line).ok()?.trim().split_once(' ')?;
    let place = place.parse().ok()?;
    for (known, call) in CALLS {
        if *known == name {
            return Some((*known, *call, place));
        }
    }
    None
}

/// Makes each call, and prints what came of it.
fn make_all<R: Host>(rt: &R) -> io::Result<()> {
    for (name, call) in CALLS {
        println!(rt; "{name}: {}", make(rt, rt.alloc(), *call))?;
    }
    Ok(())
}

/// Makes a call, with its allocation of this place refused, and prints what came of it.
fn make_one<R: Host>(rt: &R, name: &str, call: Call, place: u32) -> io::Result<()> {
    let alloc = rt.alloc();
    let early = spend(alloc, REFUSED.saturating_sub(place));
    let said = make(rt, alloc, call);
    let late = spend(alloc, REFUSED);
    let refused = if early {
        "before it"
    } else if late {
        "after it"
    } else {
        "in it"
    };
    println!(rt; "{name} {place}: {said}, refused {refused}")
}

fn main(rt: HostRuntime) -> io::Result<()> {
    let mut line = [0u8; 64];
    let count = rt.stdin().read(&mut line)?.min(64);
    match asked(&line[..count]) {
        None => make_all(&rt),
        Some((name, call, place)) => make_one(&rt, name, call, place),
    }
}
