//! One CPU without periodic ticks. A timer is set to the moment at which the running task has used up its request, and a task that
//! wakes preempts the running one where a pick would choose it.

use crate::one_queue::add;
use eevdf_queue::{Parcel, Queue, TaskId, TickAnswer};
use eevdf_weight::{Nice, Ns, Slice};
use std::alloc::{AllocError, Global};

/// A stretch in which one task ran.
#[derive(Clone, Copy)]
pub struct Stretch {
    pub task: TaskId,
    pub ns: Ns,
}

/// Runs two tasks, and a third one that an interrupt wakes after each of these times, in nanoseconds. It sleeps again when it has used
/// up its request, of half a millisecond.
pub fn tickless(alloc: Global, interrupts: &[u64]) -> Result<Vec<Stretch>, AllocError> {
    let mut queue = Queue::open();
    add(alloc, &mut queue, TaskId::new(0).unwrap())?;
    add(alloc, &mut queue, TaskId::new(1).unwrap())?;
    let woken = TaskId::new(2).unwrap();
    put_asleep(alloc, &mut queue, woken)?;
    let mut ran = Vec::new(alloc);
    let _ = queue.pick();
    for after in interrupts {
        run_for(&mut queue, *after, woken, &mut ran)?;
        let _ = queue.wake(woken);
        if queue.peek() != queue.running() {
            let _ = queue.pick();
        }
    }
    Ok(ran)
}

fn put_asleep(alloc: Global, queue: &mut Queue, task: TaskId) -> Result<(), AllocError> {
    let slice = Slice::new(500_000).unwrap();
    let parcel = Parcel::make(alloc, task, Nice::default(), slice, queue.floor_time())?;
    if queue.contains(task) {
        parcel.retire();
    } else {
        queue.put_asleep(parcel);
    }
    Ok(())
}

/// Runs the tasks for so many nanoseconds, until the next interrupt, in a hundred stretches at most.
fn run_for(
    queue: &mut Queue,
    ns: u64,
    woken: TaskId,
    ran: &mut Vec<Stretch>,
) -> Result<(), AllocError> {
    let mut left = ns;
    for _stretch in 0..100 {
        let (Some(task), Some(ns)) = (queue.running(), timer(queue, left)) else {
            break;
        };
        let TickAnswer::Charged { task: _, resched } = queue.tick(ns) else {
            break;
        };
        ran.push(Stretch { task, ns })?;
        left = left.saturating_sub(ns.get());
        if resched {
            if task == woken {
                fall_asleep(queue, task);
            }
            let _ = queue.pick();
        }
    }
    Ok(())
}

/// What the timer is set to: the time until the running task has used up its request, or until the interrupt, if that is sooner.
fn timer(queue: &Queue, left: u64) -> Option<Ns> {
    let interrupt = Ns::new(left)?;
    match queue.time_to_resched() {
        Some(resched) if resched < interrupt => Some(resched),
        _ => Some(interrupt),
    }
}

fn fall_asleep(queue: &mut Queue, task: TaskId) {
    if let Some(parcel) = queue.detach_running(task) {
        queue.put_asleep(parcel);
    }
}
