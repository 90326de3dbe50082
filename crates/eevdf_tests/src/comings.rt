//! Tasks that come and go, are set to another nice level and slice, and CPUs that are rebased: calls of both fleets in one thread, with
//! what comes of each, and what stands in the queues afterwards; and what the fleets refuse.

mod cases;
mod with_history;
mod without_history;

use crate::fixtures::on_two_cpus;
use crate::stand::{Stand, stand_of};
use eevdf_ops::Setup;
use eevdf_queue::Queue;
use std::alloc::Global;
use std::process::Abort;

/// What stands in a queue: its virtual time, who runs, and the tasks 0, 1 and 2.
#[derive(Clone, Copy, PartialEq, Eq, Debug)]
struct Stands {
    time: i64,
    running: Option<u64>,
    tasks: [Stand; 3],
}

/// Calls of the seats of CPUs, each with what comes of it as it is printed, and what they leave in the queues of both CPUs.
struct Case {
    name: &'static str,
    calls: &'static [(usize, &'static str, &'static str)],
    queues: [Stands; 2],
}

/// Two CPUs and three tasks of CPU 0, of nice level 0 and with slices of 3000000 ns. Tasks 0 and 1 begin runnable, task 2 sleeps.
fn three_tasks(rt: &impl Abort, alloc: Global) -> Setup {
    on_two_cpus(rt, alloc, &[(0, false), (0, false), (0, true)])
}

/// What stands in a queue.
fn stands_in(rt: &impl Abort, queue: &Queue) -> Stands {
    let running = match queue.running() {
        Some(task) => Some(task.get()),
        None => None,
    };
    Stands {
        time: queue.floor_time(),
        running,
        tasks: [
            stand_of(rt, queue, 0),
            stand_of(rt, queue, 1),
            stand_of(rt, queue, 2),
        ],
    }
}
