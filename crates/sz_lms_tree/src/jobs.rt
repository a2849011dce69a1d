//! How many jobs parallel work is split into.

ghost use Rattle.std.specs.Prelude.{◌≤◌};

use std::thread::{Threads, available_parallelism};

/// The most jobs that parallel work is split into: one for each processor, and two at least.
pub fn most_jobs(rt: &impl Threads) -> usize
    ensures { 2 ≤ result }
{
    match available_parallelism(rt) {
        Ok(processors) => processors.get().max(2),
        Err(_) => 2,
    }
}
