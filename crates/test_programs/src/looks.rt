//! No tests: how long a thread of a test looks for what another one does.
use std::sync::atomic::AtomicU64;
use std::sync::atomic::Ordering::SeqCst;
use std::thread::yield_now;

/// So often a thread looks before it gives up.
pub(crate) const LOOKS: u32 = 20_000_000;

/// Looks until it finds what it looks for, up to so often, and yields in between. False where it gave up.
pub(crate) fn finds<F: FnMut() -> bool>(looks: u32, mut look: F) -> bool
    requires { F.IsAlwaysCallable look }
{
    for _ in 0..looks {
        if look() {
            return true;
        }
        yield_now();
    }
    false
}

/// Looks until the word is set. False where it gave up.
pub(crate) fn has_come(word: &AtomicU64) -> bool {
    finds(LOOKS, || word.load(SeqCst) > 0)
}
