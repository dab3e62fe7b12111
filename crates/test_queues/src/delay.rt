//! Calls of a delay table in one thread.
mod calls;
mod contended;
mod draining;
mod rows;
mod wheel;
mod words;
