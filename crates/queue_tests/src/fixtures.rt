//! Tasks and times for tests, by their numbers, and tasks on their way into a queue.

use eevdf_queue::{Parcel, Queue, TaskId, TickAnswer};
use eevdf_weight::{Nice, Ns, Slice};
use std::alloc::Global;
use std::process::Abort;

pub fn task(rt: &impl Abort, number: u64) -> TaskId {
    TaskId::new(number).expect(rt, "task")
}

pub fn ns(rt: &impl Abort, number: u64) -> Ns {
    Ns::new(number).expect(rt, "ns")
}

/// A task of nice level 0 that starts at the virtual runtime `v`.
pub fn parcel(rt: &impl Abort, alloc: Global, number: u64, slice_ns: u64, v: i64) -> Parcel {
    let slice = Slice::new(slice_ns).expect(rt, "slice");
    Parcel::make(alloc, task(rt, number), Nice::default(), slice, v).expect(rt, "memory")
}

/// Makes a task that isn't in the queue runnable there.
pub fn admit(rt: &impl Abort, queue: &mut Queue, parcel: Parcel) {
    let task = parcel.task();
    assert!(rt; !queue.contains(task));
    let admitted = match queue.admit(parcel) {
        Ok(()) => true,
        Err(refused) => {
            refused.retire();
            false
        }
    };
    assert!(rt; admitted);
}

/// Makes a task that isn't in the queue, and can join, runnable with its lag.
pub fn attach(rt: &impl Abort, queue: &mut Queue, parcel: Parcel) {
    let task = parcel.task();
    assert!(rt; !queue.contains(task));
    assert!(rt; queue.can_place(parcel.nice(), parcel.slice(), parcel.lag()));
    queue.attach(parcel);
}

/// Puts a task that isn't in the queue to sleep there.
pub fn put_asleep(rt: &impl Abort, queue: &mut Queue, parcel: Parcel) {
    let task = parcel.task();
    assert!(rt; !queue.contains(task));
    queue.put_asleep(parcel);
}

/// Makes an empty queue one of two tasks of equal weight, of which the first runs and has been charged for a million
/// nanoseconds.
pub fn charge_first_of_two(rt: &impl Abort, alloc: Global, queue: &mut Queue) {
    admit(rt, queue, parcel(rt, alloc, 0, 3_000_000, 0));
    admit(rt, queue, parcel(rt, alloc, 1, 3_000_000, 0));
    charge_first(rt, queue, false);
}

/// Picks task 0 and charges it for a million nanoseconds, after which it is to be preempted or not.
pub fn charge_first(rt: &impl Abort, queue: &mut Queue, resched: bool) {
    let first = task(rt, 0);
    assert_eq!(rt; queue.pick(), Some(first));
    let charged = TickAnswer::Charged {
        task: first,
        resched,
    };
    assert_eq!(rt; queue.tick(ns(rt, 1_000_000)), charged);
}
