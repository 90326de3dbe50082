//! The turns of a run that is counted. Each mix has a loop of its own, so that a turn is its calls and what is drawn for them.

ghost use Rattle.std.specs.Prelude.{◌≤◌};

use crate::fair_loop::asked_run::{AskedTurns, Kind, Mix};
use crate::fair_loop::counted_queue::CountedQueue;
use drawn_values::Draws;
use eevdf_fair_queue::FairQueue;
use eevdf_queue::{Parcel, Queue, TaskId, TickAnswer};
use std::alloc::{AllocError, Global};

/// The sum of the answers of the turns.
pub fn sum_of(alloc: Global, asked: &AskedTurns) -> Result<u64, AllocError> {
    match asked.kind {
        Kind::Fair => filled_sum(alloc, &mut FairQueue::open(), asked),
        Kind::Plain => filled_sum(alloc, &mut Queue::open(), asked),
    }
}

fn filled_sum<Q: CountedQueue>(
    alloc: Global,
    queue: &mut Q,
    asked: &AskedTurns,
) -> Result<u64, AllocError> {
    let mut draws = Draws::new(1, asked.tasks);
    fill(alloc, queue, &mut draws, asked.tasks)?;
    let _ = queue.pick_next();
    Ok(match asked.mix {
        Mix::Pick => picks(queue, &mut draws, asked.turns),
        Mix::Tick => ticks(queue, &mut draws, asked.turns),
        Mix::TickPick => ticks_and_picks(queue, &mut draws, asked.turns),
    })
}

/// Makes so many drawn tasks runnable.
fn fill<Q: CountedQueue>(
    alloc: Global,
    queue: &mut Q,
    draws: &mut Draws,
    tasks: u64,
) -> Result<(), AllocError>
    requires { tasks ≤ 1024 }
{
    for number in 0..tasks {
        let task = TaskId::new(number).unwrap();
        queue.admit(Parcel::make(alloc, task, draws.nice(), draws.slice(), draws.start())?);
    }
    Ok(())
}

/// Picks, of which every 1024th comes after a tick. Without one a turn would take a whole number of instructions, from which one that the
/// process takes more or less at its start would make the next one.
fn picks<Q: CountedQueue>(queue: &mut Q, draws: &mut Draws, turns: u64) -> u64 {
    let mut sum: u64 = 0;
    for turn in 0..turns {
        if turn % 1024 == 0 {
            let _ = queue.charge(draws.tick());
        }
        sum = sum.wrapping_add(number_of(queue.pick_next()));
    }
    sum
}

fn ticks<Q: CountedQueue>(queue: &mut Q, draws: &mut Draws, turns: u64) -> u64 {
    let mut sum: u64 = 0;
    for _turn in 0..turns {
        sum = sum.wrapping_add(ends_of(queue.charge(draws.tick())));
    }
    sum
}

fn ticks_and_picks<Q: CountedQueue>(queue: &mut Q, draws: &mut Draws, turns: u64) -> u64 {
    let mut sum: u64 = 0;
    for _turn in 0..turns {
        sum = sum
            .wrapping_add(ends_of(queue.charge(draws.tick())))
            .wrapping_add(number_of(queue.pick_next()));
    }
    sum
}

/// The number of a task, and 0 of none.
#[inline(always)]
fn number_of(task: Option<TaskId>) -> u64 {
    task.map_or(0, TaskId::get)
}

/// How many requests a tick has used up.
#[inline(always)]
fn ends_of(answer: TickAnswer) -> u64 {
    match answer {
        TickAnswer::Charged { task: _, resched } => u64::from(resched),
        TickAnswer::Idle | TickAnswer::Range => 0,
    }
}
