//! A pair as the steps of a worker see it, where items bring values.
use crate::value_pair::ValuePair;
use wq_calls::Paired;

impl<V: Drop> Paired for ValuePair<V> {
    ghost known = { λ p. p.known };

    ghost use Rattle.wq_values.specs.ValuePairs.{KeepsHanded};

    ghost keeps = { KeepsHanded };

    fn is_closed(&self) -> bool {
        self.is_closed()
    }

    fn is_draining(&self) -> bool {
        self.is_draining()
    }

    fn next(&self) -> Option<u32> {
        self.next()
    }

    fn waiting(&self) -> u32 {
        self.waiting()
    }

    fn running(&self) -> Option<u32> {
        self.running()
    }

    fn take(&mut self) -> u32 {
        self.take()
    }

    fn rest(&mut self) -> bool {
        self.rest()
    }

    fn end(&mut self) {
        self.end();
    }
}
