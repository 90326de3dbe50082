//! A queue whose virtual time would come to its end within a year, and goes on for a hundred by a rebase each day.
//!
//! Its one task is of weight 15, so a second charges it `1000000000 * 1024 / 15 = 68266666666` units, and a day 5898239999942400. The
//! range ends at 2^60, after 195 such days and before 196.

use eevdf_queue::{Parcel, Queue, Refused, TaskId, TickAnswer};
use eevdf_weight::{Nice, Ns, Slice, charge, weight};
use std::alloc::{AllocError, Global};

/// The seconds of a day that no tick charges.
const SKIPPED: i64 = 86_399;

/// Runs a queue with one task for so many days, with a rebase at the end of each or without. Gives the first day on which something was
/// out of range.
pub fn first_day_out_of_range(
    alloc: Global,
    days: u32,
    with_rebase: bool,
) -> Result<Option<u32>, AllocError> {
    let mut queue = Queue::open();
    let mut evening = Queue::open();
    let _ = admit_at(alloc, &mut queue, 0, 0)?;
    let mut out_of_range = None;
    for day in 1..=days {
        if !run_day(alloc, &mut queue, &mut evening)? {
            out_of_range = Some(day);
            break;
        }
        if with_rebase {
            let _ = queue.rebase();
        }
    }
    empty(&mut queue);
    empty(&mut evening);
    Ok(out_of_range)
}

/// Runs the task for a day. The longest tick is a second, and a hundred years of such ticks take too long to be run here. So one second is
/// charged by a tick, and the others are skipped. Whether all of it was in range.
fn run_day(alloc: Global, queue: &mut Queue, evening: &mut Queue) -> Result<bool, AllocError> {
    let Some(task) = queue.pick() else {
        return Ok(false);
    };
    if queue.tick(Ns::MAX) == TickAnswer::Range {
        return Ok(false);
    }
    let second = charge(Ns::MAX.get(), weight(Nice::MAX));
    let skipped = second.saturating_mul(SKIPPED);
    let end = queue.floor_time().saturating_add(skipped);
    if !set_time(alloc, evening, end)? {
        return Ok(false);
    }
    Ok(skip(queue, evening, task))
}

/// Makes the virtual time of a queue a number, by a task of its own that stands there. Whether that is in range. With a rebase each day all
/// days end at one virtual time, so the task that stands there stays.
fn set_time(alloc: Global, queue: &mut Queue, time: i64) -> Result<bool, AllocError> {
    if queue.floor_time() == time {
        return Ok(true);
    }
    empty(queue);
    admit_at(alloc, queue, 1, time)
}

/// Has the running task go on at the virtual time of another queue: a task that is taken out asleep starts at its queue's virtual time, so
/// it sleeps there in between. Whether that is in range.
fn skip(queue: &mut Queue, evening: &mut Queue, task: TaskId) -> bool {
    let Some(parcel) = queue.detach_running(task) else {
        return false;
    };
    if evening.contains(parcel.task()) {
        parcel.retire();
        return false;
    }
    evening.put_asleep(parcel);
    match evening.detach_asleep(task) {
        Some(parcel) => admit(queue, parcel),
        None => false,
    }
}

/// Makes a new task runnable at a virtual runtime. Whether that is in range.
fn admit_at(alloc: Global, queue: &mut Queue, number: u64, v: i64) -> Result<bool, AllocError> {
    let Some(task) = TaskId::new(number) else {
        return Ok(false);
    };
    let parcel = Parcel::make(alloc, task, Nice::MAX, Slice::default(), v)?;
    Ok(admit(queue, parcel))
}

fn admit(queue: &mut Queue, parcel: Parcel) -> bool {
    match queue.try_admit(parcel) {
        Ok(()) => true,
        Err(Refused { parcel, reason: _ }) => {
            parcel.retire();
            false
        }
    }
}

/// Ends all tasks of a queue, whichever these are.
fn empty(queue: &mut Queue) {
    for _number in 0..TaskId::COUNT {
        let Some(parcel) = queue.take_any() else {
            break;
        };
        parcel.retire();
    }
}
