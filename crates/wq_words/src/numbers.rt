//! The numbers of a queue.
ghost use Rattle.std.specs.Prelude.{◌≡◌, ◌<◌};
ghost use Rattle.wq_words.specs.Numbers.{barrier_number, stop_number, number_count};

use crate::layout::Layout;

impl Layout {
    /// The number of the barrier that is the `barrier`th, counted from 0.
    pub fn barrier(self, barrier: u32) -> u32
        requires { barrier < self.barriers }
        ensures number { result ≡ barrier_number self barrier }
    {
        self.items + barrier
    }

    /// The number of the stop item, the last one.
    pub fn stop(self) -> u32
        ensures number { result ≡ stop_number self }
    {
        self.items + self.barriers
    }

    /// How many numbers the queue has: each is below this.
    pub fn number_count(self) -> u32
        ensures count { result ≡ number_count self }
    {
        self.items + self.barriers + 1
    }
}
