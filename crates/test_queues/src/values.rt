//! Queues whose items bring values.
mod again;
mod books;
mod drops;
mod flushing;
mod owing;
mod reading;
mod resting;
mod rows;
mod serving;
mod threads;
mod worker;
mod worker_drops;
