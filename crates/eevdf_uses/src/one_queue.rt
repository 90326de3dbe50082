//! One CPU's queue in a loop of a pick and a tick, with a task that sleeps, wakes and ends.

use eevdf_queue::{Parcel, Queue, Refused, TaskId};
use eevdf_weight::{Nice, Ns, Slice};
use std::alloc::{AllocError, Global};

/// Runs three tasks for nine turns of 2 ms, and gives who ran in each. Who runs in turn 3 sleeps until turn 6; who runs in 8 ends.
pub fn one_queue(alloc: Global) -> Result<Vec<TaskId>, AllocError> {
    let mut queue = Queue::open();
    for number in 0..3 {
        add(alloc, &mut queue, TaskId::new(number).unwrap())?;
    }
    let mut ran = Vec::new(alloc);
    let mut sleeper = None;
    for turn in 0..9 {
        if let Some(task) = sleeper
            && turn == 6
        {
            let _ = queue.wake(task);
        }
        let Some(task) = queue.pick() else {
            continue;
        };
        let _ = queue.tick(Ns::new(2_000_000).unwrap());
        ran.push(task)?;
        if turn == 3 {
            fall_asleep(&mut queue, task);
            sleeper = Some(task);
        }
        if turn == 8 {
            end(&mut queue, task);
        }
    }
    Ok(ran)
}

/// Makes a task of nice level 0 runnable, if it isn't here yet. It starts at the queue's virtual time: a task that comes late and
/// starts at 0 would be owed all that the others have had, and would run alone until it has caught up.
pub fn add(alloc: Global, queue: &mut Queue, task: TaskId) -> Result<(), AllocError> {
    let nice = Nice::new(0).unwrap();
    let slice = Slice::new(3_000_000).unwrap();
    let parcel = Parcel::make(alloc, task, nice, slice, queue.floor_time())?;
    if let Err(Refused { parcel, reason: _ }) = queue.try_admit(parcel) {
        parcel.retire();
    }
    Ok(())
}

fn fall_asleep(queue: &mut Queue, task: TaskId) {
    if let Some(parcel) = queue.detach_running(task) {
        queue.put_asleep(parcel);
    }
}

fn end(queue: &mut Queue, task: TaskId) {
    if let Some(parcel) = queue.detach_running(task) {
        parcel.retire();
    }
}
