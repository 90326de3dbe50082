//! Whether two runs end alike.

use eevdf_ops::Outcome;
use eevdf_queue::{Queue, TaskId};

/// Whether two runs of so many tasks leave the same queues, as far as their functions tell.
pub fn end_alike(one: &Outcome, other: &Outcome, tasks: u64) -> bool {
    if one.cpus() != other.cpus() {
        return false;
    }
    for cpu in 0..one.cpus() {
        if !are_alike(one.queue(cpu), other.queue(cpu), tasks) {
            return false;
        }
    }
    true
}

fn are_alike(one: &Queue, other: &Queue, tasks: u64) -> bool {
    if one.len() != other.len()
        || one.load() != other.load()
        || one.running() != other.running()
        || one.floor_time() != other.floor_time()
    {
        return false;
    }
    for number in 0..tasks {
        if !have_alike(one, other, number) {
            return false;
        }
    }
    true
}

/// Whether two queues have the same of the task of this number.
fn have_alike(one: &Queue, other: &Queue, number: u64) -> bool {
    let Some(task) = TaskId::new(number) else {
        return false;
    };
    one.entry(task) == other.entry(task)
        && one.asleep(task) == other.asleep(task)
        && one.lag_of(task) == other.lag_of(task)
        && one.place_of(task) == other.place_of(task)
}
