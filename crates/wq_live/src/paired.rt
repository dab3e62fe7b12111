//! A pair as the steps of a worker see it.
use crate::pair::Pair;
use wq_calls::Paired;

impl Paired for Pair {
    ghost known = { λ p. p };

    ghost keeps = { λ old new. Unit {0} };

    fn is_closed(&self) -> bool {
        self.is_closed()
    }

    fn is_draining(&self) -> bool {
        self.is_draining()
    }

    fn next(&self) -> Option<u32> {
        self.next()
    }

    fn waiting(&self) -> u32 {
        self.waiting()
    }

    fn running(&self) -> Option<u32> {
        self.running()
    }

    fn take(&mut self) -> u32 {
        self.take()
    }

    fn rest(&mut self) -> bool {
        self.rest()
    }

    fn end(&mut self) {
        self.end();
    }
}
