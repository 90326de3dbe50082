//! Short workloads, one after the other.

ghost use Rattle.std.specs.Prelude.{◌<◌, ◌≤◌};

use crate::documents::{push_order, push_programs, push_tasks, push_version};
use crate::drawn_deeds::Deeds;
use crate::drawn_machine::{Shape, TaskKind, drawn_tasks};
use crate::drawn_programs::{Programs, drawn_programs};
use crate::job_fault::JobFault;
use crate::job_run::JobRun;
use crate::script_job::script_run;
use crate::workbench::take_report;
use drawn_values::Draws;
use eevdf_bench::Kind;
use std::alloc::{AllocError, Global};
use std::sync::Wait;
use std::thread::Threads;

/// Has the workbench do so many short scripts, every eighth of them a replay, on machines of 1 to 64 CPUs with tasks of a kind.
pub fn opening_job<R: Threads + Wait + Sync>(
    run: &mut JobRun<'_, R>,
    count: u64,
    kind: TaskKind,
) -> Result<(), JobFault> {
    for number in 0..count {
        let shape = drawn_shape(kind, &mut run.draws);
        if number % 8 == 7 {
            short_replay(run, &shape)?;
        } else {
            script_run(run, &shape, Deeds::Mixed, 8)?;
        }
    }
    Ok(())
}

/// Mostly one CPU to four, and every sixteenth time 64, with two tasks for each.
fn drawn_shape(kind: TaskKind, draws: &mut Draws) -> Shape {
    let cpus = if draws.below(16) == 0 {
        64
    } else {
        1 + draws.below(4)
    };
    Shape {
        cpus,
        tasks: 2 * cpus,
        kind,
    }
}

/// Programs of one pick each, whose steps the callers do one after the other.
fn short_replay<R: Threads + Wait + Sync>(
    run: &mut JobRun<'_, R>,
    shape: &Shape,
) -> Result<(), JobFault> {
    let tasks = drawn_tasks(run.alloc, shape, &mut run.draws)?;
    let programs = drawn_programs(run.alloc, shape, Programs::Picks, 1, &mut run.draws)?;
    let mut text = String::new(run.alloc);
    push_version(&mut text, true)?;
    push_order(&mut text, &one_by_one(run.alloc, shape)?)?;
    push_programs(&mut text, &programs)?;
    push_tasks(&mut text, &tasks)?;
    take_report(run, text.as_bytes(), Kind::Replay)
}

/// Each caller four times: the steps of a pick.
fn one_by_one(alloc: Global, shape: &Shape) -> Result<Vec<usize>, AllocError> {
    let mut order = Vec::new(alloc);
    for caller in 0..shape.cpus {
        for _step in 0..4 {
            order.push(caller as usize)?;
        }
    }
    Ok(order)
}
