//! Two queues, each in a lock of the caller's, and a pull from one to the other.

use eevdf_queue::Queue;
use eevdf_weight::weight;
use std::sync::{Mutex, Wait};

/// Pulls between two CPUs: moves the waiting task of latest deadline from one queue to the other, where the puller stays the less
/// loaded of the two. Whether a task was moved. `from_lower` says that the CPU of the higher number pulls.
///
/// The locks are taken in the order of the CPUs, whoever pulls. Two CPUs that pulled from each other, and each took its own lock
/// first, could wait for each other for ever.
pub fn pull(rt: &impl Wait, lower: &Mutex<Queue>, higher: &Mutex<Queue>, from_lower: bool) -> bool {
    let mut lower = lower.lock(rt);
    let mut higher = higher.lock(rt);
    if from_lower {
        move_candidate(&mut higher, &mut lower)
    } else {
        move_candidate(&mut lower, &mut higher)
    }
}

fn move_candidate(puller: &mut Queue, source: &mut Queue) -> bool {
    let Some(task) = source.candidate() else {
        return false;
    };
    let entry = source.entry(task).unwrap();
    let lag = source.lag_of(task).unwrap();
    let load = puller.load().saturating_add(weight(entry.nice));
    if load >= source.load()
        || puller.contains(task)
        || !puller.can_place(entry.nice, entry.slice, lag)
    {
        return false;
    }
    puller.attach(source.detach(task));
    true
}
