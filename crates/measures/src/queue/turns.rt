//! The turns of a run. Each mix has a loop of its own, made of `repeat`, so that a turn is its calls and nothing else.

ghost use Rattle.measures.specs.SharedTasks.{ShareNoTask};

use crate::queue::asked_run::AskedRun;
use crate::queue::bench_queue::BenchQueue;
use crate::queue::mix::Mix;
use crate::queue::pull_queues::PullQueues;
use std::alloc::{AllocError, Global};

/// Turns that make these calls, one after the other.
macro_rules! turns_of {
    ($bench:expr, $turns:expr, $($call:ident),+) => {
        repeat($bench, $turns, |bench| {
            $(bench.$call();)+
        })
    };
}

/// The checksum of the answers of a run.
pub fn checksum_of(alloc: Global, run: &AskedRun) -> Result<u64, AllocError> {
    if run.mix == Mix::Pull {
        return pulled_sum(alloc, run);
    }
    let mut bench = BenchQueue::open(alloc, run)?;
    match run.mix {
        Mix::SleepPickWake | Mix::TickSleepPickWake => {
            repeat(&mut bench, run.tasks / 8, |bench| bench.sleep_pick())
        }
        Mix::DozePickWake | Mix::TickDozePickWake => {
            repeat(&mut bench, run.tasks / 8, |bench| bench.doze_pick())
        }
        _ => {}
    }
    make_turns(&mut bench, run.mix, run.turns);
    Ok(bench.sum())
}

fn make_turns(bench: &mut BenchQueue, mix: Mix, turns: u64) {
    match mix {
        Mix::Pick => turns_of!(bench, turns, pick_with_rare_ticks),
        Mix::TickPick => turns_of!(bench, turns, tick, pick),
        Mix::SleepPickWake => turns_of!(bench, turns, sleep_pick_wake),
        Mix::YieldPick => turns_of!(bench, turns, yield_now, pick),
        Mix::TickSleepPickWake => turns_of!(bench, turns, tick, sleep_pick_wake),
        Mix::DozePickWake => turns_of!(bench, turns, doze_pick_wake),
        Mix::TickDozePickWake => turns_of!(bench, turns, tick, doze_pick_wake),
        Mix::Renice => turns_of!(bench, turns, renice),
        // The pick is known.
        Mix::PickPeek => turns_of!(bench, turns, pick_with_rare_ticks, peek),
        Mix::TickPeekPick => turns_of!(bench, turns, tick, peek, pick),
        // The running task's entry is known.
        Mix::TickPickTimer => turns_of!(bench, turns, tick, pick, timer),
        Mix::TickTimerPick => turns_of!(bench, turns, tick, timer, pick),
        Mix::TickRebasePick => turns_of!(bench, turns, tick, rebase, pick),
        // The pick is known.
        Mix::TickPickRebasePick => turns_of!(bench, turns, tick, pick, rebase, pick),
        Mix::Pull => {}
    }
}

fn pulled_sum(alloc: Global, run: &AskedRun) -> Result<u64, AllocError> {
    let mut queues = PullQueues::open(alloc, run)?;
    if queues.share_no_task() {
        pulls(&mut queues, burst_of(run.tasks), run.turns);
    }
    Ok(queues.sum())
}

/// Makes so many turns, each of these calls.
fn repeat<F: Fn(&mut BenchQueue)>(bench: &mut BenchQueue, turns: u64, turn: F)
    requires { F.IsAlwaysCallable turn }
{
    for _ in 0..turns {
        turn(bench);
    }
}

/// How many tasks are pulled one way before as many are pulled the other way.
fn burst_of(tasks: u64) -> u64 {
    if tasks >= 64 {
        8
    } else if tasks >= 8 {
        2
    } else {
        1
    }
}

fn pulls(queues: &mut PullQueues, burst: u64, turns: u64)
    requires { ShareNoTask queues.old.first.state queues.old.second.state }
{
    let mut left = burst;
    let mut forth = true;
    for _ in 0..turns {
        if forth {
            queues.pull_forth();
        } else {
            queues.pull_back();
        }
        left = left.wrapping_sub(1);
        if left == 0 {
            forth = !forth;
            left = burst;
        }
    }
}
