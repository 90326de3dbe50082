//! Scripts for the workbench.

use crate::documents::{begin_script, end_script, push_deed};
use crate::drawn_deeds::{Deeds, drawn_cpu, drawn_deed};
use crate::drawn_machine::{Shape, TaskKind, drawn_tasks};
use crate::job_fault::JobFault;
use crate::job_run::JobRun;
use crate::workbench::take_report;
use eevdf_bench::Kind;
use std::sync::Wait;
use std::thread::Threads;

/// Draws a script of so many deeds and has the workbench do it. Four kinds of inputs take turns.
pub fn script_job<R: Threads + Wait + Sync>(run: &mut JobRun<'_, R>) -> Result<(), JobFault> {
    let (shape, deeds, size) = (shape_of(run.input), deeds_of(run.input), run.size);
    script_run(run, &shape, deeds, size)
}

/// Sixteen CPUs, 64 of them, one with a thousand tasks that are alike, and sixteen.
fn shape_of(input: u64) -> Shape {
    let (cpus, kind) = match input % 4 {
        1 => (64, TaskKind::HeavyFirst),
        2 => (1, TaskKind::Alike),
        _ => (16, TaskKind::HeavyFirst),
    };
    Shape {
        cpus,
        tasks: 1024,
        kind,
    }
}

fn deeds_of(input: u64) -> Deeds {
    match input % 4 {
        1 => Deeds::Mixed,
        3 => Deeds::Refused,
        _ => Deeds::MixedWithoutLevels,
    }
}

/// Draws a machine and a script of so many deeds, and has the workbench do it.
pub fn script_run<R: Threads + Wait + Sync>(
    run: &mut JobRun<'_, R>,
    shape: &Shape,
    deeds: Deeds,
    size: u64,
) -> Result<(), JobFault> {
    let tasks = drawn_tasks(run.alloc, shape, &mut run.draws)?;
    let mut text = String::new(run.alloc);
    begin_script(&mut text, deeds == Deeds::Mixed, shape.cpus)?;
    for _deed in 0..size {
        let cpu = drawn_cpu(shape, &mut run.draws);
        let deed = drawn_deed(shape, deeds, cpu, &mut run.draws);
        push_deed(&mut text, &deed)?;
    }
    end_script(&mut text, &tasks)?;
    take_report(run, text.as_bytes(), Kind::Solo)
}
