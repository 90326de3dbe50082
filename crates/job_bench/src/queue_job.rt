//! The calls of single queues, in the mix of a kernel.

ghost use Rattle.std.specs.Prelude.{◌<◌, ◌≤◌};

use crate::digest::Digest;
use crate::drawn_machine::drawn_slice;
use crate::job_fault::JobFault;
use crate::job_run::JobRun;
use crate::queue_pair::QueuePair;
use drawn_values::Draws;
use eevdf_queue::{Parcel, TaskId};
use eevdf_weight::Nice;
use std::alloc::{AllocError, Global};

/// Makes so many turns of calls on queues of 8, of 64 and of 1024 tasks.
pub fn queue_job<R>(run: &mut JobRun<'_, R>) -> Result<(), JobFault> {
    queue_turns(run, 8)?;
    queue_turns(run, 64)?;
    queue_turns(run, 1024)?;
    Ok(())
}

fn queue_turns<R>(run: &mut JobRun<'_, R>, tasks: u64) -> Result<(), AllocError>
    requires some { 0 < tasks }
    requires few { tasks ≤ 1024 }
{
    let draws = &mut run.draws;
    let digest = &mut run.digest;
    let mut queues = QueuePair::new();
    for number in 0..tasks {
        queues.admit(drawn_parcel(run.alloc, number, draws)?, digest);
    }
    queues.pick(digest);
    for turn in 0..run.size {
        turn_of(&mut queues, turn, tasks, draws, digest);
    }
    queues.look_at_all(digest);
    Ok(())
}

/// A task of level 0 or another, with one of the usual slices.
pub fn drawn_parcel(alloc: Global, number: u64, draws: &mut Draws) -> Result<Parcel, AllocError>
    requires { number < 1024 }
{
    let nice = if draws.below(2) == 0 {
        Nice::new(0).unwrap()
    } else {
        draws.nice()
    };
    let task = TaskId::new(number).unwrap();
    Parcel::make(alloc, task, nice, drawn_slice(draws), draws.start())
}

/// A tick and a pick, and by turns a sleep, a wake, a yield, a new level, a move to another queue, and looks.
#[inline(always)]
fn turn_of(queues: &mut QueuePair, turn: u64, tasks: u64, draws: &mut Draws, digest: &mut Digest)
    requires some { 0 < tasks }
    requires few { tasks ≤ 1024 }
{
    queues.tick(draws.tick(), digest);
    queues.pick(digest);
    match turn % 16 {
        0 | 3 | 6 | 9 => queues.sleep(digest),
        1 | 4 | 7 | 10 => queues.wake(digest),
        2 | 8 => queues.yield_now(digest),
        5 => queues.renice(draws.task(tasks), draws.nice(), digest),
        11 => queues.push_away(digest),
        12 => queues.pull_back(digest),
        13 => queues.look(draws.task(tasks), digest),
        14 => queues.peek(digest),
        _ => {}
    }
}
