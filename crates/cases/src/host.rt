//! What plays need of the system.

use hplan::System;
use std::fs::File;
use std::io::Eprint;
use std::rt::Files;
use std::sync::Wait;
use std::thread::Threads;
use std::time::Clock;

/// A runtime by which command lines are run: files, memory, and the threads of a search.
pub trait Host: Files<File = File>
    + AllocGlobal
    + Print
    + Threads
    + Wait
    + Sync
    + Eprint
    + Clock
    + System {}

impl<
    R: Files<File = File> + AllocGlobal + Print + Threads + Wait + Sync + Eprint + Clock + System,
> Host for R {}
