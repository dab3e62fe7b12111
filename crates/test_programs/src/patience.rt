//! How long a test tries what another thread has to step into: on processors that others use it may take thousands of turns.
use std::time::{Clock, Instant};

/// Half of the time that a test has.
const SECONDS: u64 = 30;

/// When a test began to try.
#[derive(Clone, Copy)]
pub(crate) struct Patience {
    began: Option<Instant>,
}

impl Patience {
    pub(crate) fn begin<R: Clock>(rt: &R) -> Patience {
        Patience {
            began: Instant::now(rt).ok(),
        }
    }

    /// Whether its time is up, or the clock cannot be read.
    pub(crate) fn is_over<R: Clock>(&self, rt: &R) -> bool {
        let Some(began) = self.began else {
            return true;
        };
        match began.elapsed(rt) {
            Ok(passed) => passed.as_secs() >= SECONDS,
            Err(_) => true,
        }
    }
}
