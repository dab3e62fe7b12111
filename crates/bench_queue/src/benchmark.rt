//! What is measured.
use crate::checker_input::CheckerInput;
use crate::pace::Pace;
use crate::pool::PoolLoad;
use crate::refusal::Refusal;
use wq_live::Spins;
use wq_words::{Layout, LayoutError};

/// What the words ask for.
#[derive(Clone, Copy)]
pub enum Benchmark {
    /// A small load of each kind, of which what is printed depends on no clock.
    Small,
    /// A load that an owner executes.
    Owner(Load),
    /// A load that a worker serves.
    Serve(Load),
    /// One item, queued so often to a worker that serves at a pace, with so many microseconds before.
    Lone {
        rounds: u32,
        micros: u32,
        pace: Pace,
    },
    /// So many items of a delay table, and so many rounds over them.
    Delays {
        items: u32,
        rounds: u32,
    },
    /// So many items of one queue, all of which each call goes over.
    Large(u32),
    /// A load that a pool's workers serve.
    Pool(PoolLoad),
    /// A load that an owner executes, of items that bring a value.
    Values(Width, Load),
    /// So much that a checker of recordings is told.
    Checker(CheckerInput, u64),
}

/// How wide a value is.
#[derive(Clone, Copy)]
pub enum Width {
    /// 8 bytes.
    Word,
    /// 64 bytes.
    Wide,
}

/// How many senders there are, how many items each of them queues, how many executions end in all, how an owner or a worker goes
/// on, and how long all of them give way.
#[derive(Clone, Copy)]
pub struct Load {
    pub senders: u32,
    pub slice: u32,
    pub total: u64,
    pub pace: Pace,
    pub spins: Spins,
}

/// As many numbers as are wanted, and zeros behind them.
fn numbers(words: &[String], wanted: usize) -> Result<[u32; 4], Refusal> {
    let mut numbers = [0; 4];
    if words.len() != wanted {
        return Err(Refusal::Words);
    }
    for (number, word) in numbers.iter_mut().zip(words) {
        *number = word.parse().map_err(|_| Refusal::Words)?;
    }
    Ok(numbers)
}

impl Width {
    fn read(bytes: &String) -> Result<Width, Refusal> {
        match bytes.as_str() {
            "8" => Ok(Width::Word),
            "64" => Ok(Width::Wide),
            _ => Err(Refusal::Words),
        }
    }
}

impl Benchmark {
    fn checker(input: CheckerInput, words: &[String]) -> Result<Benchmark, Refusal> {
        let [count, ..] = numbers(words, 1)?;
        Ok(Benchmark::Checker(input, u64::from(count)))
    }

    /// Whether it is measured at this pace: each is at the patient one, which needs no word.
    fn goes_at(self, pace: Pace) -> bool {
        match self {
            Benchmark::Serve(_) => true,
            Benchmark::Owner(_) | Benchmark::Lone { .. } | Benchmark::Values(..) => pace
                != Pace::Resting,
            _ => pace == Pace::Patient,
        }
    }

    /// What words ask for, at a pace that it has.
    pub fn at(words: &[String], pace: Pace) -> Result<Benchmark, Refusal> {
        let benchmark = Benchmark::read(words, pace)?;
        if benchmark.goes_at(pace) {
            Ok(benchmark)
        } else {
            Err(Refusal::Words)
        }
    }

    fn read(words: &[String], pace: Pace) -> Result<Benchmark, Refusal> {
        let Some((name, rest)) = words.split_first() else {
            return Ok(Benchmark::Small);
        };
        match name.as_str() {
            "serve" => Ok(Benchmark::Serve(Load::read(rest, pace)?)),
            "lone" => {
                let [rounds, micros, ..] = numbers(rest, 2)?;
                Ok(Benchmark::Lone {
                    rounds,
                    micros,
                    pace,
                })
            }
            "delays" => {
                let [items, rounds, ..] = numbers(rest, 2)?;
                Ok(Benchmark::Delays { items, rounds })
            }
            "large" => {
                let [items, ..] = numbers(rest, 1)?;
                Ok(Benchmark::Large(items))
            }
            "pool" => {
                let [queues, workers, senders, total] = numbers(rest, 4)?;
                Ok(Benchmark::Pool(PoolLoad::new(queues, workers, senders, total)?))
            }
            "values" => {
                let Some((bytes, load)) = rest.split_first() else {
                    return Err(Refusal::Words);
                };
                Ok(Benchmark::Values(Width::read(bytes)?, Load::read(load, pace)?))
            }
            "events" => Benchmark::checker(CheckerInput::Events, rest),
            "marks" => Benchmark::checker(CheckerInput::Marks, rest),
            _ => Ok(Benchmark::Owner(Load::read(words, pace)?)),
        }
    }
}

impl Load {
    /// A load that takes no time.
    pub fn small() -> Load {
        Load {
            senders: 2,
            slice: 64,
            total: 4096,
            pace: Pace::Patient,
            spins: Spins::default(),
        }
    }

    fn read(words: &[String], pace: Pace) -> Result<Load, Refusal> {
        let [senders, slice, total, _] = numbers(words, 3)?;
        Ok(Load {
            senders,
            slice,
            total: u64::from(total),
            pace,
            spins: Spins::default(),
        })
    }

    /// A queue with a slice of items for each sender, and one sender at least; and so many senders more.
    pub fn layout(self, more: u32) -> Result<Layout, LayoutError> {
        let senders = self.senders.max(1);
        let items = senders.saturating_mul(self.slice);
        Layout::new(items, 1, senders.saturating_add(more))
    }
}
