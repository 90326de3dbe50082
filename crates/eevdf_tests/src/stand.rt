//! How a task stands in a queue.

use crate::fixtures::task;
use eevdf_queue::Queue;
use std::process::Abort;

/// Runnable with a virtual runtime and a virtual deadline, or asleep with a lag, and either with a nice
/// level and a slice.
#[derive(Clone, Copy, PartialEq, Eq, Debug)]
pub enum Stand {
    Runnable(i64, i64, i64, u64),
    Asleep(i64, i64, u64),
    Elsewhere,
}

/// How the task of a number stands in a queue.
pub fn stand_of(rt: &impl Abort, queue: &Queue, number: u64) -> Stand {
    let task = task(rt, number);
    if let Some(entry) = queue.entry(task) {
        return Stand::Runnable(entry.v, entry.d, entry.nice.get(), entry.slice.get());
    }
    match queue.sleeper(task) {
        Some(sleeper) => Stand::Asleep(sleeper.lag, sleeper.nice.get(), sleeper.slice.get()),
        None => Stand::Elsewhere,
    }
}
