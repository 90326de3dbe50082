//! Workloads whose tasks begin asleep, scripts whose sleeps and wakes are mostly done, and queues and fleets from their opening to
//! their end.

use crate::documents::{begin_script, end_script, push_deed};
use crate::drawn_deeds::drawn_cpu;
use crate::drawn_machine::{Shape, TaskKind, drawn_tasks, setup_without_programs};
use crate::fleet_job::fleet_run;
use crate::fleet_seats::Mix;
use crate::job_fault::JobFault;
use crate::job_run::JobRun;
use crate::opening_job::opening_job;
use crate::played_machine::PlayedMachine;
use crate::queue_lives::queue_lives;
use crate::workbench::take_report;
use eevdf_bench::Kind;
use std::sync::Wait;
use std::thread::Threads;

/// Does all of these: short workloads, a script of so many deeds, lives of single queues, and so many operations of a fleet. Machines
/// of 64 CPUs, of 16, of 4 and of one take turns.
pub fn life_job<R: Threads + Wait + Sync>(run: &mut JobRun<'_, R>) -> Result<(), JobFault> {
    let shape = shape_of(run.input);
    let count = 32 + run.size / 64;
    opening_job(run, count, TaskKind::Mixed)?;
    played_script(run, &shape)?;
    queue_lives(run, count)?;
    let operations = run.size;
    fleet_run(run, &shape, Mix::Wakes, 1, operations)
}

fn shape_of(input: u64) -> Shape {
    let (cpus, tasks) = match input % 4 {
        0 => (64, 1024),
        1 => (16, 256),
        2 => (4, 64),
        _ => (1, 1024),
    };
    Shape {
        cpus,
        tasks,
        kind: TaskKind::Mixed,
    }
}

/// Draws a script by a machine that does it, and has the workbench do it again.
fn played_script<R: Threads + Wait + Sync>(
    run: &mut JobRun<'_, R>,
    shape: &Shape,
) -> Result<(), JobFault> {
    let tasks = drawn_tasks(run.alloc, shape, &mut run.draws)?;
    let setup = setup_without_programs(run.alloc, shape, &tasks)?;
    let mut machine = PlayedMachine::open(run.alloc, &setup)?;
    let mut text = String::new(run.alloc);
    begin_script(&mut text, true, shape.cpus)?;
    for _deed in 0..run.size {
        let cpu = drawn_cpu(shape, &mut run.draws);
        let deed = machine.draw(shape, cpu, &mut run.draws);
        machine.apply(deed, &mut run.digest)?;
        push_deed(&mut text, &deed)?;
    }
    end_script(&mut text, &tasks)?;
    run.digest.add_queues(&machine.into_queues());
    take_report(run, text.as_bytes(), Kind::Solo)
}
