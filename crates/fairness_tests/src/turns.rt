//! Turns of three tasks, after which one request is late by almost as much as it can be.

use eevdf_fairness::{take_turn, take_turns};
use eevdf_queue::{Parcel, Queue, Refused, TaskId};
use eevdf_weight::{Nice, Ns, Slice};
use std::alloc::Global;
use std::process::Abort;

fn ns(rt: &impl Abort, number: u64) -> Ns {
    Ns::new(number).expect(rt, "ns")
}

fn task(rt: &impl Abort, number: u64) -> TaskId {
    TaskId::new(number).expect(rt, "task")
}

/// Makes a task of nice level 0 runnable at the virtual runtime 0.
fn admit(rt: &impl Abort, alloc: Global, queue: &mut Queue, number: u64, slice_ns: u64) {
    let slice = Slice::new(slice_ns).expect(rt, "slice");
    let parcel = Parcel::make(alloc, task(rt, number), Nice::default(), slice, 0).expect(
        rt, "memory",
    );
    if let Err(Refused { parcel, reason: _ }) = queue.try_admit(parcel) {
        parcel.retire();
    }
}

/// A turn of one tick.
fn turn(rt: &impl Abort, alloc: Global, number: u64) -> Vec<Ns> {
    let mut ticks = Vec::new(alloc);
    ticks.push(ns(rt, number)).expect(rt, "memory");
    ticks
}

fn turns(rt: &impl Abort, alloc: Global) -> Vec<Vec<Ns>> {
    let mut turns = Vec::new(alloc);
    turns.push(turn(rt, alloc, 99_999)).expect(rt, "memory");
    turns.push(turn(rt, alloc, 99_999)).expect(rt, "memory");
    turns
        .push(turn(rt, alloc, 1_000_000_000))
        .expect(rt, "memory");
    turns
}

/// Two tasks run up to a nanosecond before their deadlines, and then the third runs a whole turn. One of the two then runs a whole
/// turn too, so the other is due at 100000 when the virtual time is 666733332.
fn late_by_two_turns(rt: &impl Abort, alloc: Global, queue: &mut Queue) {
    admit(rt, alloc, queue, 0, 100_000);
    admit(rt, alloc, queue, 1, 100_000);
    admit(rt, alloc, queue, 2, 100_000_000);
    take_turns(queue, &turns(rt, alloc));
    take_turn(queue, &[ns(rt, 1_000_000_000)]);
    let late = queue.entry(task(rt, 1)).expect(rt, "not runnable");
    assert_eq!(rt; late.d, 100_000);
    assert_eq!(rt; late.v, 99_999);
    assert_eq!(rt; queue.floor_time(), 666_733_332);
    assert_eq!(rt; queue.running(), Some(task(rt, 0)));
}

#[test]
fn a_request_is_late_by_almost_two_turns(rt: HostRuntime) {
    let mut queue = Queue::open();
    late_by_two_turns(&rt, rt.alloc(), &mut queue);
}
