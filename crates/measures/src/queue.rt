//! What the calls of one run queue cost: `measures queue MIX TASKS TURNS` runs a mix of calls so many times on a queue of so many tasks,
//! and prints a checksum of the answers. `bench/queue.sh` counts its instructions.

mod answer_words;
mod asked_run;
mod bench_queue;
mod checksum;
mod mix;
mod pull_queues;
mod sleep_ring;
mod task_values;
mod turn_values;
mod turns;
mod warm_up;

use crate::endings::{fail, status_of};
pub use crate::queue::asked_run::{AskedRun, WordFault};
use crate::queue::turns::checksum_of;
use std::alloc::Global;

/// Runs the turns and prints their checksum, and gives the exit status.
#[inline(never)]
pub fn measure(rt: &(impl Print + Eprint), alloc: Global, run: &AskedRun) -> u8 {
    match checksum_of(alloc, run) {
        Ok(sum) => status_of(println!(rt; "{sum:016x}")),
        Err(_) => fail(rt, "queue", "out of memory"),
    }
}
