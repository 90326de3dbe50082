//! Loops of calls that are drawn: at each moment the bound that is read is no less than how late requests are.

use crate::kits::{admit, lateness, times};
use drawn_values::Draws;
use eevdf_fair_queue::FairQueue;
use eevdf_queue::{Refused, TaskId};
use std::alloc::Global;
use std::process::Abort;

const TASKS: u64 = 12;

const LOOPS: u64 = 60;

const CALLS: u64 = 400;

/// One call, each of which comes some time.
fn call(rt: &impl Abort, alloc: Global, queue: &mut FairQueue, draws: &mut Draws) {
    let task = draws.task(TASKS);
    match draws.below(16) {
        0..4 => {
            queue.pick();
        }
        4..8 => {
            queue.tick(draws.tick());
        }
        8 => {
            queue.yield_now();
        }
        9 => {
            queue.renice(task, draws.nice());
        }
        10 => {
            queue.set(task, draws.nice(), draws.slice());
        }
        11 => {
            queue.rebase();
        }
        12 => {
            queue.wake(task);
        }
        13 => admit(rt, alloc, queue, task, draws.nice(), draws.slice()),
        14 => leave(queue, task),
        _ => sleep(queue),
    }
}

/// Whoever runs falls asleep.
fn sleep(queue: &mut FairQueue) {
    if let Some(task) = queue.queue().running() {
        queue.sleep(task);
    }
}

/// A task leaves for good, or comes back with its lag where it wasn't runnable.
fn leave(queue: &mut FairQueue, task: TaskId) {
    if let Some(parcel) = queue.detach_runnable(task) {
        parcel.retire();
    } else if let Some(parcel) = queue.detach_asleep(task) {
        if let Err(Refused { parcel, reason: _ }) = queue.try_attach(parcel) {
            parcel.retire();
        }
    }
}

#[test]
fn no_request_is_later_than_the_bound(rt: HostRuntime) {
    let rt = &rt;
    for number in 0..LOOPS {
        let mut draws = Draws::new(7, number);
        let mut queue = FairQueue::open();
        for _call in 0..CALLS {
            call(rt, rt.alloc(), &mut queue, &mut draws);
            let Some(late) = lateness(rt, &queue) else {
                continue;
            };
            let most = times(rt, queue.lateness_bound(), queue.queue().load());
            assert!(rt; late <= most, "a request is later than the bound");
        }
    }
}
