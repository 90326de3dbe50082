//! How tasks go from one queue to another, to sleep and awake, by each call that takes them out or in.

use eevdf_queue::{Parcel, Queue, Refused, TaskId};

/// Moves the tasks below a number to another queue, where it takes them. Who runs stays until nobody else is left.
pub fn move_tasks(queue: &mut Queue, other: &mut Queue, tasks: u64) {
    for number in 0..tasks {
        if let Some(task) = queue.candidate() {
            let parcel = queue.detach(task);
            take_in(other, parcel, number);
        }
    }
}

/// Takes a task in by one of the ways. Any that can't be taken ends.
fn take_in(queue: &mut Queue, parcel: Parcel, way: u64) {
    match way % 4 {
        0 => admit(queue, parcel),
        1 => settle(queue, parcel),
        2 => end_if_refused(queue.try_admit(parcel)),
        _ => end_if_refused(queue.try_attach(parcel)),
    }
}

fn end_if_refused(answer: Result<(), Refused>) {
    if let Err(Refused { parcel, reason: _ }) = answer {
        parcel.retire();
    }
}

fn admit(queue: &mut Queue, parcel: Parcel) {
    if queue.contains(parcel.task()) {
        parcel.retire();
    } else if let Err(parcel) = queue.admit(parcel) {
        parcel.retire();
    }
}

/// Puts a task that isn't here where it can stand. Any other ends.
fn settle(queue: &mut Queue, parcel: Parcel) {
    if queue.contains(parcel.task()) {
        parcel.retire();
    } else if queue.can_place(parcel.nice(), parcel.slice(), parcel.lag()) {
        queue.attach(parcel);
    } else {
        queue.put_asleep(parcel);
    }
}

/// Lets each task run and fall asleep, then wakes half of them, and takes others out and puts them back.
pub fn sleep_and_wake(queue: &mut Queue, tasks: u64) {
    for way in 0..tasks {
        if let Some(task) = queue.pick() {
            fall_asleep(queue, task, way);
        }
    }
    for number in 0..tasks {
        if let Some(task) = TaskId::new(number) {
            wake(queue, task);
        }
    }
}

/// Puts a task that runs to sleep in one of two ways.
fn fall_asleep(queue: &mut Queue, task: TaskId, way: u64) {
    if way % 2 == 0 {
        let _ = queue.doze(task);
    } else if let Some(parcel) = queue.detach_running(task) {
        queue.put_asleep(parcel);
    }
}

/// Wakes a task in one of two ways, or leaves it asleep.
fn wake(queue: &mut Queue, task: TaskId) {
    match task.get() % 3 {
        0 => {
            let _ = queue.wake(task);
        }
        1 => {
            if let Some(parcel) = queue.detach_asleep(task) {
                settle(queue, parcel);
            }
        }
        _ => {}
    }
}

/// Above the numbers that the queues have been filled with.
const FREE: u64 = 64;

/// Lets each task run that is runnable here, and gives each sleeping one to the other queue under a number that is free there.
pub fn adopt_and_renumber(queue: &mut Queue, other: &mut Queue, tasks: u64) {
    for number in 0..tasks {
        if let Some(task) = TaskId::new(number) {
            let _ = queue.adopt(task);
            if let Some(parcel) = queue.detach_asleep(task) {
                settle(other, renumbered(parcel));
            }
        }
    }
}

fn renumbered(parcel: Parcel) -> Parcel {
    match TaskId::new(parcel.task().get() + FREE) {
        Some(number) => parcel.with_number(number),
        None => parcel,
    }
}
