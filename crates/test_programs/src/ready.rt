//! Ready queues: worked rows.
mod rows;
