//! Making a setup, of the tasks and the programs of another, and copying it.

use crate::called::called;
use crate::stopped::Stopped;
use eevdf_ops::{CpuId, Op, Setup, SetupFault, TaskSpec};
use eevdf_queue::TaskId;
use std::alloc::{AllocError, Global};

/// The same setup, made anew.
pub fn copied_setup(rt: &impl Print, alloc: Global, setup: &Setup) -> Result<Setup, Stopped> {
    let tasks = called!(rt, "the tasks", Err(_), tasks_of(alloc, setup))?;
    let programs = called!(rt, "the programs", Err(_), programs_of(alloc, setup))?;
    made_setup(rt, alloc, &tasks, &programs)
}

fn made_setup(
    rt: &impl Print,
    alloc: Global,
    tasks: &[TaskSpec],
    programs: &[Vec<Op>],
) -> Result<Setup, Stopped> {
    called!(
        rt,
        "Setup::make",
        Err(SetupFault::Memory),
        Setup::make(alloc, tasks, programs)
    )
    .map_err(|_| Stopped)
}

/// What is copied of a setup.
pub fn copy_calls(rt: &impl Print, alloc: Global, setup: &Setup) -> Result<(), Stopped> {
    let copy = called!(rt, "Setup::try_clone", Err(_), setup.try_clone(alloc))?;
    let homes = called!(rt, "Setup::homes", Err(_), copy.homes(alloc))?;
    for home in &homes {
        let home = home.get();
        let _ = println!(rt; "home {home}");
    }
    Ok(())
}

fn tasks_of(alloc: Global, setup: &Setup) -> Result<Vec<TaskSpec>, AllocError> {
    let mut tasks = Vec::new(alloc);
    for number in 0..setup.tasks() {
        if let Some(task) = TaskId::new(number as u64) {
            tasks.push(*setup.spec(task))?;
        }
    }
    Ok(tasks)
}

fn programs_of(alloc: Global, setup: &Setup) -> Result<Vec<Vec<Op>>, AllocError> {
    let mut programs = Vec::new(alloc);
    for number in 0..setup.cpus() {
        if let Some(cpu) = CpuId::new(number as u64) {
            programs.push(Vec::from_slice(alloc, setup.program(cpu))?)?;
        }
    }
    Ok(programs)
}
