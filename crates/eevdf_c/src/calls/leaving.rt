//! How a task falls asleep or leaves.

ghost use Rattle.std.specs.Prelude.{◌≡◌, Some};
ghost use Rattle.eevdf_c.specs.Errors.{KeepsOnError};
ghost use Rattle.eevdf_c.specs.Leaving as leaving;

use crate::codes::{ABSENT, DONE, INVALID};
use crate::opened::Opened;
use eevdf_queue::{Parcel, Queue, TaskId};

/// The running task falls asleep, with the lag that it keeps.
pub fn sleep(opened: &mut Opened, number: u64) -> i64
    ensures answer { result ≡ (leaving.sleep opened.old number).0 }
    ensures after { opened.new ≡ (leaving.sleep opened.old number).1 }
    ensures kept { KeepsOnError result opened.old opened.new }
{
    match TaskId::new(number) {
        Some(task) => sleep_task(&mut opened.queue, task),
        None => INVALID,
    }
}

fn sleep_task(queue: &mut Queue, task: TaskId) -> i64
    ensures answer { result ≡ (leaving.sleep_by queue.old.state (Some task)).0 }
    ensures after { queue.new.state ≡ (leaving.sleep_by queue.old.state (Some task)).1 }
{
    match queue.detach_running(task) {
        Some(parcel) => {
            queue.put_asleep(parcel);
            DONE
        }
        None => ABSENT,
    }
}

/// The running task falls asleep and is held to its place. `lag` gets the lag with which it leaves, and else stays as it was.
pub fn doze(opened: &mut Opened, number: u64, lag: &mut i64) -> i64
    ensures answer { result ≡ (leaving.doze opened.old number).0 }
    ensures after { opened.new ≡ (leaving.doze opened.old number).1 }
    ensures told { lag.new ≡ leaving.told_doze opened.old lag.old number }
    ensures kept { KeepsOnError result opened.old opened.new }
    ensures held { KeepsOnError result lag.old lag.new }
{
    let Some(task) = TaskId::new(number) else {
        return INVALID;
    };
    match opened.queue.doze(task) {
        Some(left) => {
            *lag = left;
            DONE
        }
        None => ABSENT,
    }
}

/// A task ends, runnable or asleep.
pub fn end(opened: &mut Opened, number: u64) -> i64
    ensures answer { result ≡ (leaving.end opened.old number).0 }
    ensures after { opened.new ≡ (leaving.end opened.old number).1 }
    ensures kept { KeepsOnError result opened.old opened.new }
{
    match TaskId::new(number) {
        Some(task) => end_task(&mut opened.queue, task),
        None => INVALID,
    }
}

/// Ends a task, where it is here.
pub fn end_task(queue: &mut Queue, task: TaskId) -> i64
    ensures answer { result ≡ (leaving.end_by queue.old.state (Some task)).0 }
    ensures after { queue.new.state ≡ (leaving.end_by queue.old.state (Some task)).1 }
{
    match taken_out(queue, task) {
        Some(parcel) => {
            parcel.retire();
            DONE
        }
        None => ABSENT,
    }
}

/// Takes out a task, running, runnable or asleep, with its lag. `None` where it isn't here, and then nothing has changed.
pub fn taken_out(queue: &mut Queue, task: TaskId) -> Option<Parcel>
    ensures parcel { result ≡ leaving.carried_out queue.old.state task }
    ensures after { queue.new.state ≡ leaving.gone queue.old.state task }
{
    if let Some(parcel) = queue.detach_running(task) {
        return Some(parcel);
    }
    if queue.entry(task).is_some() {
        return Some(queue.detach(task));
    }
    queue.detach_asleep(task)
}
