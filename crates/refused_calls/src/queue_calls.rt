//! Parcels, and two queues by themselves.

use crate::called::{called, say};
use crate::queue_lines::{say_queue, say_sums};
use crate::queue_moves::{adopt_and_renumber, move_tasks, sleep_and_wake};
use crate::stopped::Stopped;
use eevdf_queue::{Parcel, Queue, Refused, TaskId};
use eevdf_weight::{Nice, Ns, Slice};
use std::alloc::{AllocError, Global};

/// So many tasks that their trees are rebalanced.
const MANY: u64 = 64;

/// The tasks of the other queue. The first has tasks of the same numbers, so those are refused when they come.
const FEW: u64 = 20;

const TURNS: u64 = 100;

/// Makes parcels, and does every call of a queue with their tasks.
pub fn queue_calls(rt: &impl Print, alloc: Global) -> Result<(), Stopped> {
    let mut queue = made_queue(rt, alloc, MANY)?;
    let mut other = made_queue(rt, alloc, FEW)?;
    say(rt, "-- opened");
    use_both(rt, &mut queue, &mut other);
    say(rt, "-- closed");
    Ok(())
}

fn made_queue(rt: &impl Print, alloc: Global, tasks: u64) -> Result<Queue, AllocError> {
    called!(rt, "Parcel::make", Err(_), filled_queue(alloc, tasks))
}

fn use_both(rt: &impl Print, queue: &mut Queue, other: &mut Queue) {
    take_turns(rt, queue);
    move_tasks(queue, other, MANY);
    say_queue(rt, queue);
    take_turns(rt, other);
    sleep_and_wake(other, MANY);
    say_queue(rt, other);
    adopt_and_renumber(other, queue, MANY);
}

/// A queue of so many tasks.
fn filled_queue(alloc: Global, tasks: u64) -> Result<Queue, AllocError> {
    let mut queue = Queue::open();
    for number in 0..tasks {
        let parcel = parcel(alloc, number)?;
        if let Err(Refused { parcel, reason: _ }) = queue.try_admit(parcel) {
            parcel.retire();
        }
    }
    Ok(queue)
}

/// A parcel of this task. Weights, slices and starts differ from task to task.
fn parcel(alloc: Global, number: u64) -> Result<Parcel, AllocError> {
    let (Some(task), Some(nice), Some(slice)) = (
        TaskId::new(number),
        Nice::new((number % 40) as i64 - 20),
        Slice::new(1_000_000 + number % 64 * 29 % 64 * 100_000),
    ) else {
        return Err(AllocError);
    };
    Parcel::make(
        alloc,
        task,
        nice,
        slice,
        (number % 64 * 37 % 64) as i64 * 50_000,
    )
}

/// Lets tasks run, and gives them other nice levels.
fn take_turns(rt: &impl Print, queue: &mut Queue) {
    for turn in 0..TURNS {
        let _ = queue.pick();
        if let Some(ns) = Ns::new(300_000 + turn % 7 * 400_000) {
            let _ = queue.tick(ns);
        }
        if turn % 3 == 0 {
            let _ = queue.yield_now();
        }
        if let (Some(task), Some(nice)) = (
            TaskId::new(turn % MANY),
            Nice::new((turn % 40) as i64 - 20),
        ) {
            let _ = queue.renice(task, nice);
        }
        if turn % 5 == 0 {
            let _ = queue.stop_running();
        }
    }
    say_sums(rt, queue);
}
