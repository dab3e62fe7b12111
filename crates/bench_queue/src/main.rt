//! Measures executed items. `bench_queue SENDERS SLICE TOTAL` starts that many senders in threads of their own, each of which
//! queues a slice of items again and again, and executes so many items in this thread; it prints `items N nanos T takes K least
//! L`: how many takes found something, and how many items the sender queued that queued fewest. With 0 senders this thread
//! queues a slice and executes it in turn. After a short take the owner passes some time, as `Worker::serve` does, and after
//! the word `eager` it does not.
//!
//! `bench_queue serve SENDERS SLICE TOTAL` measures a worker that serves, and prints `unparks U` besides; after the word `resting`
//! the worker rests before it parks, and its senders wake it on `wakes` alone. `bench_queue lone ROUNDS
//! MICROS` queues one item to such a worker so many microseconds after the last one ran, and prints the median and the 95th
//! percentile of the time until it ran. `bench_queue delays ITEMS ROUNDS` measures a delay table; it prints what an arming, a move, a
//! cancel and letting go took an item. `bench_queue large ITEMS` goes over so many items by each call that does so, and prints a line for
//! each: what it took in all, and how many bytes of memory were resident more after it. `bench_queue values BYTES SENDERS SLICE TOTAL`
//! is the first over items that bring a value of 8 or of 64 bytes, which the owner is handed and reads; it prints `sum V` besides,
//! what the values came to. `bench_queue events N` tells a checker of recordings so many events, `bench_queue marks N` one of traces
//! so many marks; it prints `events N nanos T`, or `marks`.
//!
//! `bench_queue pool QUEUES WORKERS SENDERS TOTAL` starts so many workers that serve so many queues, and so many senders that queue
//! on all of them in turn, and announce a queue where they were answered `wakes`. It prints `items N nanos T picks K strays S`, of
//! which the last is how many items ran out of their sender's order. Picks are counted by what senders announced, so without those
//! of a queue that was worked at for its share and announced again by the pool.
//!
//! Without words it prints what came of a small load of each kind, which depends on no clock.
#![tactic(auto)]

mod benchmark;
mod checker_input;
mod delays;
mod host;
mod large;
mod lone;
mod owner;
mod pace;
mod pool;
mod posts;
mod refusal;
mod run_counter;
mod serve;
mod values;

use benchmark::{Benchmark, Load, Width};
use checker_input::CheckerInput;
use host::Host;
use pace::Pace;
use pool::PoolLoad;
use refusal::Refusal;
use std::io;
use std::process::ExitCode;
use std::time::{Duration, Instant};
use wq_live::Spins;

/// Prints what depends on no clock.
fn show_small<R: Host>(rt: &R) -> Result<(), Refusal> {
    let items = owner::run(rt, Load::small())?.items;
    let with_values = values::run(rt, Width::Word, Load::small())?.items;
    let events = checker_input::tell(rt.alloc(), CheckerInput::Events, 1_000)?;
    let marks = checker_input::tell(rt.alloc(), CheckerInput::Marks, 1_000)?;
    let (counts, _picks) = pool::run(rt, PoolLoad::small())?;
    println!(rt; "items {items}, with values {with_values}")?;
    println!(rt;
        "items of a pool {}, strays {}",
        counts.items, counts.strays
    )?;
    println!(rt; "events {events}, marks {marks}")?;
    Ok(())
}

fn show_owner<R: Host>(rt: &R, mut load: Load) -> Result<(), Refusal> {
    load.spins = Spins::measured(rt)?;
    let start = Instant::now(rt)?;
    let counts = owner::run(rt, load)?;
    let nanos = start.elapsed(rt)?.as_nanos();
    println!(rt;
        "items {} nanos {nanos} takes {} least {}",
        counts.items, counts.takes, counts.least
    )?;
    Ok(())
}

/// The same of items that bring a value, and what the values came to that were read.
fn show_values<R: Host>(rt: &R, width: Width, mut load: Load) -> Result<(), Refusal> {
    load.spins = Spins::measured(rt)?;
    let start = Instant::now(rt)?;
    let counts = values::run(rt, width, load)?;
    let nanos = start.elapsed(rt)?.as_nanos();
    println!(rt;
        "items {} nanos {nanos} takes {} least {} sum {}",
        counts.items, counts.takes, counts.least, counts.sum
    )?;
    Ok(())
}

/// The same of a pool that serves.
fn show_pool<R: Host>(rt: &R, load: PoolLoad) -> Result<(), Refusal> {
    let start = Instant::now(rt)?;
    let (counts, picks) = pool::run(rt, load)?;
    let nanos = start.elapsed(rt)?.as_nanos();
    println!(rt;
        "items {} nanos {nanos} picks {picks} strays {}",
        counts.items, counts.strays
    )?;
    Ok(())
}

/// The same of a worker that serves. Each take that finds something begins with a push onto an empty list, so there were as many.
fn show_serve<R: Host>(rt: &R, mut load: Load) -> Result<(), Refusal> {
    load.spins = Spins::measured(rt)?;
    let start = Instant::now(rt)?;
    let (items, counts) = serve::run(rt, load)?;
    let nanos = start.elapsed(rt)?.as_nanos();
    println!(rt;
        "items {items} nanos {nanos} takes {} least {} unparks {}",
        counts.firsts, counts.least, counts.unparks
    )?;
    Ok(())
}

/// The time at a place in percent among times from the least on.
fn at_percent(times: &[u128], percent: usize) -> u128 {
    let place = times.len().saturating_mul(percent) / 100;
    times.get(place).copied().unwrap_or(0)
}

fn show_lone<R: Host>(rt: &R, rounds: u32, micros: u32, pace: Pace) -> Result<(), Refusal> {
    let times = lone::measure(rt, rounds, Duration::from_micros(u64::from(micros)), pace)?;
    let median = at_percent(times.as_slice(), 50);
    let most = at_percent(times.as_slice(), 95);
    println!(rt; "median {median} nanos, 95th {most} nanos")?;
    Ok(())
}

/// Prints how many nanoseconds each call of a delay table took an item.
fn show_delays<R: Host>(rt: &R, items: u32, rounds: u32) -> Result<(), Refusal> {
    let times = delays::measure(rt, items, rounds)?;
    let count = u128::from(items).saturating_mul(u128::from(rounds)).max(1);
    let an_item = |time: Duration| time.as_nanos().checked_div(count).unwrap_or(0);
    println!(rt; "arm {} nanos", an_item(times.arm))?;
    println!(rt; "move {} nanos", an_item(times.replace))?;
    println!(rt; "cancel {} nanos", an_item(times.cancel))?;
    println!(rt; "let go {} nanos", an_item(times.let_go))?;
    Ok(())
}

/// Prints what each lap took over so many items.
fn show_large<R: Host>(rt: &R, items: u32) -> Result<(), Refusal> {
    for lap in large::measure(rt, items)? {
        println!(rt; "{}: {} nanos, {} bytes", lap.name, lap.nanos, lap.bytes)?;
    }
    Ok(())
}

/// Prints how long it took to tell a checker so much.
fn show_checker<R: Host>(rt: &R, input: CheckerInput, count: u64) -> Result<(), Refusal> {
    let start = Instant::now(rt)?;
    let counted = checker_input::tell(rt.alloc(), input, count)?;
    let nanos = start.elapsed(rt)?.as_nanos();
    println!(rt; "{} {counted} nanos {nanos}", input.name())?;
    Ok(())
}

fn measure<R: Host>(rt: &R, benchmark: Benchmark) -> Result<(), Refusal> {
    match benchmark {
        Benchmark::Small => show_small(rt),
        Benchmark::Owner(load) => show_owner(rt, load),
        Benchmark::Serve(load) => show_serve(rt, load),
        Benchmark::Lone {
            rounds,
            micros,
            pace,
        } => show_lone(rt, rounds, micros, pace),
        Benchmark::Delays { items, rounds } => show_delays(rt, items, rounds),
        Benchmark::Large(items) => show_large(rt, items),
        Benchmark::Pool(load) => show_pool(rt, load),
        Benchmark::Values(width, load) => show_values(rt, width, load),
        Benchmark::Checker(input, count) => show_checker(rt, input, count),
    }
}

/// Measures what the words ask for, at the pace that the first one names: only what has such a pace.
fn obey<R: Host>(rt: &R, words: &[String]) -> Result<(), Refusal> {
    let benchmark = match words {
        [word, rest @ ..] if word.as_str() == "eager" => Benchmark::at(rest, Pace::Eager)?,
        [word, rest @ ..] if word.as_str() == "resting" => Benchmark::at(rest, Pace::Resting)?,
        _ => Benchmark::at(words, Pace::Patient)?,
    };
    measure(rt, benchmark)
}

fn main(rt: HostRuntime) -> io::Result<ExitCode> {
    let words: Vec<String> = std::env::args(&rt)?.collect(rt.alloc())?;
    match obey(&rt, words.get(1..).unwrap_or(&[])) {
        Ok(()) => Ok(ExitCode::SUCCESS),
        Err(refusal) => {
            eprintln!(rt; "{refusal}")?;
            Ok(ExitCode::from(refusal.status()))
        }
    }
}
