//! Calls of single queues on tasks that are hard to tell apart, and far from 0.

ghost use Rattle.std.specs.Prelude.{◌<◌, ◌≤◌};

use crate::digest::Digest;
use crate::job_fault::JobFault;
use crate::job_run::JobRun;
use crate::queue_pair::QueuePair;
use drawn_values::Draws;
use eevdf_queue::{Parcel, TaskId};
use eevdf_weight::{Nice, Ns, Slice};
use std::alloc::{AllocError, Global};

/// Makes so many turns on each of three queues of 1024 tasks.
pub fn hard_queue_job<R>(run: &mut JobRun<'_, R>) -> Result<(), JobFault> {
    let (alloc, turns, draws, digest) = (run.alloc, run.size, &mut run.draws, &mut run.digest);
    equal_turns(full_queues(alloc, 0, 0, digest)?, turns, draws, digest);
    level_turns(full_queues(alloc, 0, 1000, digest)?, turns, draws, digest);
    far_turns(
        full_queues(alloc, 1 << 59, 5000, digest)?,
        turns,
        draws,
        digest,
    );
    Ok(())
}

/// All tasks are alike, and each tick uses up a request: all deadlines are equal at first, and they ascend with each tick.
fn equal_turns(mut queues: QueuePair, turns: u64, draws: &mut Draws, digest: &mut Digest) {
    for turn in 0..turns {
        queues.tick(Ns::new(3_000_000).unwrap(), digest);
        queues.pick(digest);
        if turn % 4 == 0 {
            queues.sleep(digest);
        }
        if turn % 4 == 2 {
            queues.wake(digest);
        }
        if turn % 8 == draws.below(8) {
            queues.yield_now(digest);
        }
    }
    queues.look_at_all(digest);
}

/// Each task gets another nice level, one after the other, and is looked at.
fn level_turns(mut queues: QueuePair, turns: u64, draws: &mut Draws, digest: &mut Digest) {
    for turn in 0..turns {
        let task = TaskId::new(turn % 1024).unwrap();
        queues.renice(task, draws.nice(), digest);
        queues.look(task, digest);
        if turn % 8 == 0 {
            queues.pick(digest);
            queues.tick(draws.tick(), digest);
        }
    }
    queues.look_at_all(digest);
}

/// The virtual times are at half of their range, where sums need 128 bits.
fn far_turns(mut queues: QueuePair, turns: u64, draws: &mut Draws, digest: &mut Digest) {
    for turn in 0..turns {
        queues.tick(draws.tick(), digest);
        queues.pick(digest);
        match turn % 8 {
            0 | 4 => queues.sleep(digest),
            2 | 6 => queues.wake(digest),
            1 => queues.push_away(digest),
            5 => queues.pull_back(digest),
            3 => queues.look(draws.task(1024), digest),
            _ => queues.peek(digest),
        }
    }
    queues.look_at_all(digest);
}

/// Queues with 1024 tasks of level 0, of which each pair starts a step after the one before it. One of them runs.
fn full_queues(
    alloc: Global,
    start: i64,
    step: i64,
    digest: &mut Digest,
) -> Result<QueuePair, AllocError> {
    let mut queues = QueuePair::new();
    for number in 0..1024u64 {
        let task = TaskId::new(number).unwrap();
        let nice = Nice::new(0).unwrap();
        let slice = Slice::new(3_000_000).unwrap();
        let v = start.wrapping_add(step.wrapping_mul((number / 2) as i64));
        queues.admit(Parcel::make(alloc, task, nice, slice, v)?, digest);
    }
    queues.pick(digest);
    Ok(queues)
}
