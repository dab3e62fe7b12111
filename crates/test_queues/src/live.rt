//! Calls of a queue in one thread and in several.
mod calls;
mod contended;
mod holding;
mod pairs;
pub(crate) mod reading;
mod spins;
mod steps;
mod stopped;
mod threads;
