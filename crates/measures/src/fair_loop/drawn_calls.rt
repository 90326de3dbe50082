//! The calls of a kernel, of which one is drawn after another.

use crate::refused_parcels::end_if_refused;
use drawn_values::Draws;
use eevdf_fair_queue::FairQueue;
use eevdf_queue::{Parcel, TaskId};
use std::alloc::Global;

/// The tasks that come and go have numbers below this.
const TASKS: u64 = 12;

/// Makes one drawn call: of 24 five are ticks, and four picks. Answers the task that it may have moved, if it is of one task.
pub fn make_call(queue: &mut FairQueue, alloc: Global, draws: &mut Draws) -> Option<TaskId> {
    let task = draws.task(TASKS);
    let kind = draws.below(24);
    call(queue, alloc, draws, task, kind);
    if (11 <= kind && kind < 16) || kind == 23 {
        Some(task)
    } else {
        None
    }
}

/// Makes a call of a kind.
fn call(queue: &mut FairQueue, alloc: Global, draws: &mut Draws, task: TaskId, kind: u64) {
    match kind {
        0..5 => {
            let _ = queue.tick(draws.tick());
        }
        5..9 => {
            let _ = queue.pick();
        }
        9 => {
            let _ = queue.yield_now();
        }
        10 => sleep(queue),
        11 => {
            let _ = queue.wake(task);
        }
        12 => {
            let _ = queue.renice(task, draws.nice());
        }
        13 => {
            let _ = queue.set(task, draws.nice(), draws.slice());
        }
        14 => begin(queue, alloc, task, draws),
        15 => end(queue, task),
        16 => doze(queue),
        17 => {
            let _ = queue.adopt(task);
        }
        18 => queue.measure(),
        19 => {
            let _ = queue.rebase();
        }
        20 => {
            let _ = queue.stop_running();
        }
        21 => {
            let _ = queue.set_slice(task, draws.slice());
        }
        22 => {
            let _ = queue.begin(task, draws.nice(), draws.slice());
        }
        _ => put_back(queue, task),
    }
}

/// Whoever runs falls asleep.
fn sleep(queue: &mut FairQueue) {
    if let Some(task) = queue.queue().running() {
        let _ = queue.sleep(task);
    }
}

/// Whoever runs dozes.
fn doze(queue: &mut FairQueue) {
    if let Some(task) = queue.queue().running() {
        let _ = queue.doze(task);
    }
}

/// A task begins at the virtual time, where it isn't here already. None begins where there is no memory for it.
fn begin(queue: &mut FairQueue, alloc: Global, task: TaskId, draws: &mut Draws) {
    let start = queue.queue().floor_time();
    let Ok(parcel) = Parcel::make(alloc, task, draws.nice(), draws.slice(), start) else {
        return;
    };
    end_if_refused(queue.try_admit(parcel));
}

/// A task is taken out and comes back with its lag, or ends where it can't be placed.
fn put_back(queue: &mut FairQueue, task: TaskId) {
    let Some(parcel) = queue.detach_runnable(task) else {
        return;
    };
    end_if_refused(queue.try_attach(parcel));
}

/// A task ends, whether it runs, waits or sleeps.
fn end(queue: &mut FairQueue, task: TaskId) {
    if let Some(parcel) = queue.detach_runnable(task) {
        parcel.retire();
    } else if let Some(parcel) = queue.detach_asleep(task) {
        parcel.retire();
    }
}
