//! A place at which a thread of a test stops, until another thread lets it go on.
use std::sync::atomic::AtomicU64;
use std::sync::atomic::Ordering::SeqCst;
use std::thread::yield_now;

/// So often a thread looks before it gives up.
const LOOKS: u32 = 20_000_000;

#[derive(Drop)]
pub(crate) struct Latch {
    reached: AtomicU64,
    opened: AtomicU64,
}

// Waits until the word is set. False where it gave up.
fn wait_for(word: &AtomicU64) -> bool {
    for _ in 0..LOOKS {
        if word.load(SeqCst) > 0 {
            return true;
        }
        yield_now();
    }
    false
}

impl Latch {
    /// Nobody has come to it, and it is closed.
    pub(crate) fn new() -> Latch {
        Latch {
            reached: AtomicU64::new(0),
            opened: AtomicU64::new(0),
        }
    }

    /// Stops until the latch is opened. False where it never was.
    pub(crate) fn stop(&self) -> bool {
        self.reached.store(1, SeqCst);
        wait_for(&self.opened)
    }

    /// Waits until a thread has stopped. False where none did.
    pub(crate) fn meet(&self) -> bool {
        wait_for(&self.reached)
    }

    pub(crate) fn is_open(&self) -> bool {
        self.opened.load(SeqCst) > 0
    }

    /// Lets the thread go on that has stopped, and each that comes.
    pub(crate) fn open(&self) {
        self.opened.store(1, SeqCst);
    }
}
