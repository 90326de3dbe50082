//! Orders of steps for the workbench, made by playing them.

ghost use Rattle.std.specs.Prelude.{◌<◌, ◌≤◌};

use crate::digest::Digest;
use crate::documents::{push_order, push_programs, push_tasks, push_version};
use crate::drawn_machine::{Shape, TaskKind, drawn_tasks, setup_of};
use crate::drawn_programs::{Programs, drawn_programs};
use crate::job_fault::JobFault;
use crate::job_run::JobRun;
use crate::mixed_order::mixed_order;
use crate::workbench::take_report;
use drawn_values::Draws;
use eevdf_bench::Kind;
use eevdf_ops::{CpuId, Op, Setup, TaskSpec};
use eevdf_steps::{MOST_PLACES, Player, StepFault};
use std::alloc::{AllocError, Global};
use std::sync::Wait;
use std::thread::Threads;

/// Draws programs of so many operations on average. Of one half of the inputs an order of their steps is made by playing it, and
/// the other half is replayed by the workbench, in an order that needs no player. Machines of 16 CPUs with 1024 tasks and with 64,
/// and of 64 CPUs, where one has many more operations than each other, take turns.
pub fn order_job<R: Threads + Wait + Sync>(run: &mut JobRun<'_, R>) -> Result<(), JobFault> {
    let (alloc, kind) = (run.alloc, run.input / 2 % 3);
    let shape = shape_of(kind);
    let tasks = drawn_tasks(alloc, &shape, &mut run.draws)?;
    let (programs, average) = if kind == 2 {
        (Programs::Uneven, run.size / 4)
    } else {
        (Programs::Even, run.size)
    };
    let programs = drawn_programs(alloc, &shape, programs, average, &mut run.draws)?;
    if run.input % 2 == 0 {
        let setup = setup_of(alloc, &tasks, &programs)?;
        return play(alloc, &shape, &setup, &mut run.draws, &mut run.digest);
    }
    let text = order_text(alloc, &shape, &tasks, &programs)?;
    take_report(run, text.as_bytes(), Kind::Replay)
}

fn shape_of(kind: u64) -> Shape {
    let (cpus, tasks) = match kind {
        0 => (16, 1024),
        1 => (16, 64),
        _ => (64, 1024),
    };
    Shape {
        cpus,
        tasks,
        kind: TaskKind::HeavyFirst,
    }
}

/// A workload with these programs and an order of their steps.
fn order_text(
    alloc: Global,
    shape: &Shape,
    tasks: &[TaskSpec],
    programs: &[Vec<Op>],
) -> Result<String, AllocError> {
    let order = mixed_order(alloc, shape, programs)?;
    let mut text = String::new(alloc);
    push_version(&mut text, 16 < shape.cpus)?;
    push_order(&mut text, &order)?;
    push_programs(&mut text, programs)?;
    push_tasks(&mut text, tasks)?;
    Ok(text)
}

/// Plays an order in which the callers do all their steps, and takes in the order and what it comes to.
fn play(
    alloc: Global,
    shape: &Shape,
    setup: &Setup,
    draws: &mut Draws,
    digest: &mut Digest,
) -> Result<(), JobFault> {
    let mut player = Player::open(alloc, setup)?;
    let order = played_order(alloc, shape, &mut player, draws, digest)?;
    for caller in &order {
        digest.add(*caller as u64);
    }
    match player.outcome() {
        Ok(outcome) => digest.add_outcome(&outcome),
        Err(player) => add_unfinished(&player, shape, digest),
    }
    Ok(())
}

/// At each place of an order the next caller that may step, from a drawn one on.
fn played_order(
    alloc: Global,
    shape: &Shape,
    player: &mut Player,
    draws: &mut Draws,
    digest: &mut Digest,
) -> Result<Vec<usize>, AllocError> {
    let mut order = Vec::new(alloc);
    for _place in 0..MOST_PLACES {
        let Some(least) = player.ready() else {
            break;
        };
        digest.add(least as u64);
        let first = draws.below(shape.cpus) as usize;
        let caller = step_from(player, shape.cpus as usize, first, least, digest);
        order.push(caller)?;
    }
    Ok(order)
}

/// Does the next step of the next caller that may step, from one on, or of the least one.
fn step_from(
    player: &mut Player,
    count: usize,
    first: usize,
    least: usize,
    digest: &mut Digest,
) -> usize {
    for caller in first..count {
        if is_done(player.step(caller), digest) {
            return caller;
        }
    }
    is_done(player.step(least), digest);
    least
}

/// Whether a step was done. A refusal is taken in.
fn is_done(step: Result<(), StepFault>, digest: &mut Digest) -> bool {
    let Err(fault) = step else {
        return true;
    };
    match fault {
        StepFault::NoCaller => digest.add(1),
        StepFault::Done => digest.add(2),
        StepFault::Blocked { cpu, holder } => digest.add_words(&[3, cpu.get(), holder as u64]),
    }
    false
}

/// Takes in what a player has come to whose callers aren't all done.
fn add_unfinished(player: &Player, shape: &Shape, digest: &mut Digest) {
    digest.add_history(player.history());
    for number in 0..shape.cpus {
        let cpu = CpuId::new(number).unwrap();
        if player.has_cpu(cpu) {
            digest.add_queue(player.queue(cpu));
        }
    }
}
