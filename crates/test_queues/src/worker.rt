//! Workers: destroys, books, words of errors, and what threads see.
mod again;
mod books;
mod clearing;
mod contention;
mod crew;
mod destroying;
mod draining;
mod resting;
mod serving;
mod steps;
mod stopping;
pub(crate) mod team;
mod words;
