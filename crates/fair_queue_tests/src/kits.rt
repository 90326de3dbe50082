//! What the tests share.

use eevdf_fair_queue::FairQueue;
use eevdf_queue::{Entry, Parcel, Refused, TaskId};
use eevdf_weight::{Nice, Ns, Slice, weight};
use std::alloc::Global;
use std::process::Abort;

pub fn task(rt: &impl Abort, number: u64) -> TaskId {
    TaskId::new(number).expect(rt, "task")
}

pub fn ns(rt: &impl Abort, number: u64) -> Ns {
    Ns::new(number).expect(rt, "ns")
}

/// Makes a task runnable at the queue's virtual time, where it isn't there already.
pub fn admit(
    rt: &impl Abort,
    alloc: Global,
    queue: &mut FairQueue,
    task: TaskId,
    nice: Nice,
    slice: Slice,
) {
    let start = queue.queue().floor_time();
    let parcel = Parcel::make(alloc, task, nice, slice, start).expect(rt, "memory");
    if let Err(Refused { parcel, reason: _ }) = queue.try_admit(parcel) {
        parcel.retire();
    }
}

/// By how much the exact virtual time is past the earliest deadline, times the load: what the bound, times the load, may not be below.
pub fn lateness(rt: &impl Abort, queue: &FairQueue) -> Option<i128> {
    let mut moment = 0i128;
    let mut earliest: Option<i64> = None;
    for (_task, entry) in queue.queue().runnable_tasks() {
        let part = times(rt, entry.v, weight(entry.nice));
        moment = moment.checked_add(part).expect(rt, "sum");
        earliest = Some(lesser(earliest, &entry));
    }
    let due = times(rt, earliest?, queue.queue().load());
    Some(moment.checked_sub(due).expect(rt, "difference"))
}

/// A virtual time so many times.
pub fn times(rt: &impl Abort, time: i64, number: u64) -> i128 {
    i128::from(time)
        .checked_mul(i128::from(number))
        .expect(rt, "product")
}

fn lesser(before: Option<i64>, entry: &Entry) -> i64 {
    match before {
        Some(deadline) if deadline < entry.d => deadline,
        _ => entry.d,
    }
}
