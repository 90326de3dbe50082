//! Queues from their opening to their end.

ghost use Rattle.std.specs.Prelude.{◌+◌, ◌≤◌};

use crate::job_run::JobRun;
use crate::queue_calls::{admit, close, pick, sleep_running, tick};
use crate::queue_job::drawn_parcel;
use eevdf_queue::Queue;
use std::alloc::AllocError;

/// Opens so many queues, each with none, one, a few or many runnable tasks, and with none, one, a few or many sleeping ones. Half of
/// them are closed, and the others are dropped with their tasks.
pub fn queue_lives<R>(run: &mut JobRun<'_, R>, queues: u64) -> Result<(), AllocError> {
    for number in 0..queues {
        let mut queue = Queue::open();
        let (runnable, asleep) = (count_of(number / 2), count_of(number / 8));
        fill(run, &mut queue, runnable, asleep)?;
        run.digest.add_queue(&queue);
        if number % 2 == 0 {
            close(&mut queue, &mut run.digest);
        }
    }
    Ok(())
}

/// None, one, a few and many by turns.
fn count_of(turn: u64) -> u64
    ensures { result ≤ 256 }
{
    match turn % 4 {
        0 => 0,
        1 => 1,
        2 => 8,
        _ => 256,
    }
}

/// Puts tasks into a queue, and lets some of them fall asleep, each after it ran.
fn fill<R>(
    run: &mut JobRun<'_, R>,
    queue: &mut Queue,
    runnable: u64,
    asleep: u64,
) -> Result<(), AllocError>
    requires { runnable + asleep ≤ 1024 }
{
    let draws = &mut run.draws;
    let digest = &mut run.digest;
    for number in 0..runnable + asleep {
        admit(queue, drawn_parcel(run.alloc, number, draws)?, digest);
    }
    for _sleep in 0..asleep {
        pick(queue, digest);
        tick(queue, draws.tick(), digest);
        sleep_running(queue, digest);
    }
    pick(queue, digest);
    Ok(())
}
