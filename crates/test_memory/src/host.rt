//! What the calls take of the system.
use std::alloc::Global;
use std::rt::Runtime;
use std::sync::Wait;
use std::thread::Threads;

/// What a program has, memory, threads, and that they may wait.
pub trait Host: Runtime + Alloc<A = Global> + Threads + Wait + Sync {}

impl<R: Runtime + Alloc<A = Global> + Threads + Wait + Sync> Host for R {}
