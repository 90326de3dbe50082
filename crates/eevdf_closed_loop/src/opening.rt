//! The machine and the tasks of a plan at the start.

ghost use Rattle.std.specs.Prelude.{◌≡◌, ◌≤◌, ◌+◌, ◌++◌, ◌⊎◌, true, length, Some, None, IfOk, IfErr};
ghost use Rattle.eevdf_ops.specs.Numbers.{most_cpus};
ghost use Rattle.eevdf_closed_loop.specs.declared.opening.OpenFault.TheVariants.{Memory};
ghost use Rattle.eevdf_closed_loop.specs.Faults as faults;
ghost use Rattle.eevdf_ops.specs.Setup.{cpus_of};
ghost use Rattle.eevdf_closed_loop.specs.Tasks as given;

use crate::actor::{Actor, Condition};
use crate::draws::Draws;
use crate::opening_faults::{group_fault, is_number_of_cpus};
use crate::phase::Phase;
use crate::plan::{Group, Plan};
use crate::processor::Processor;
use eevdf_ops::{CpuId, Op, Setup, TaskSpec};
use eevdf_queue::TaskId;
use std::alloc::{AllocError, Global};

/// Why no machine was opened.
#[derive(Clone, Copy, PartialEq, Eq, Debug)]
pub enum OpenFault {
    /// Out of memory.
    Memory,
    /// There are no CPUs, or more than `CpuId::COUNT`.
    BadCpus,
    /// The groups have no task, or more than `TaskId::COUNT`.
    BadTasks,
    /// The home of the tasks of the group at this place is no CPU.
    BadHome(usize),
    /// The group at this place has no phases.
    NoPhases(usize),
    /// A phase of the group at this place resumes no group, or is the end of a loop that begins behind it or stands too deep.
    BadPhase(usize),
}

impl From<AllocError> for OpenFault {
    fn from(_out_of_memory: AllocError) -> OpenFault {
        OpenFault::Memory
    }
}

/// The setup of a plan: its tasks by group, each asleep that arrives or begins later than at 0, and a program without operations for each
/// CPU. A plan that has a fault is refused with the first one; `Memory` may come in place of either answer.
pub fn setup_of(alloc: Global, plan: &Plan) -> Result<Setup, OpenFault>
    ensures cpus { IfOk result (λ setup. cpus_of setup ≡ plan.now.cpus) }
    ensures tasks { IfOk result (λ setup. setup.tasks ≡ given.tasks_of plan.now.cpus plan.now.groups.items) }
    ensures some { IfOk result (λ setup. 1 ≤ length setup.tasks) }
    ensures sound { IfOk result (λ _. faults.plan_fault plan.now ≡ None) }
    ensures refused { IfErr result (λ fault. (fault ≡ Memory) ⊎ (faults.plan_fault plan.now ≡ Some fault)) }
{
    if !is_number_of_cpus(plan.cpus) {
        return Err(OpenFault::BadCpus);
    }
    let mut tasks = Vec::new(alloc);
    for (place, group) in plan.groups.iter().enumerate() {
        let fault = group_fault(group, place, tasks.len(), plan.cpus, plan.groups.len());
        if let Some(fault) = fault {
            return Err(fault);
        }
        if push_tasks(&mut tasks, group, plan.cpus).is_err() {
            return Err(OpenFault::Memory);
        }
    }
    if tasks.is_empty() {
        return Err(OpenFault::BadTasks);
    }
    let Ok(programs) = no_programs(alloc, plan.cpus) else {
        return Err(OpenFault::Memory);
    };
    // neither the tasks nor the programs have a fault
    match Setup::make(alloc, &tasks, &programs) {
        Ok(setup) => Ok(setup),
        Err(_) => Err(OpenFault::Memory),
    }
}

/// A program without operations for each of so many CPUs.
fn no_programs(alloc: Global, cpus: usize) -> Result<Vec<Vec<Op>>, AllocError>
    ensures { IfOk result (λ programs. length programs.items ≡ cpus) }
{
    let mut programs = Vec::with_capacity(alloc, cpus)?;
    while programs.len() < cpus {
        programs.push(Vec::new(alloc))?;
    }
    Ok(programs)
}

/// Adds the tasks of a group.
fn push_tasks(tasks: &mut Vec<TaskSpec>, group: &Group, cpus: usize) -> Result<(), AllocError>
    requires some { 1 ≤ cpus }
    requires few { cpus ≤ most_cpus }
    requires home { faults.is_home cpus group.now.home ≡ true }
    ensures tasks { IfOk result (λ _. tasks.new.items ≡
        tasks.old.items ++ given.first_tasks cpus group.now group.now.count) }
    ensures number { IfOk result (λ _. length tasks.new.items ≡ length tasks.old.items + group.now.count) }
{
    for number in 0..group.count {
        tasks.push(TaskSpec {
            home: home_of(group, number, cpus),
            nice: group.nice,
            slice: group.slice,
            start: 0,
            asleep: group.is_asleep_first(),
        })?;
    }
    Ok(())
}

/// The home of a group's task of this number within the group.
fn home_of(group: &Group, number: usize, cpus: usize) -> CpuId
    requires some { 1 ≤ cpus }
    requires few { cpus ≤ most_cpus }
    requires home { faults.is_home cpus group.now.home ≡ true }
    ensures { result ≡ given.home_of cpus group.now.home number }
{
    match group.home {
        Some(home) => CpuId::numbered(home),
        None => CpuId::numbered(number % cpus),
    }
}

/// The tasks of a plan at the start, as the setup numbers them. A task that the setup hasn't is left out.
pub(crate) fn actors_of(
    alloc: Global,
    setup: &Setup,
    plan: &Plan,
) -> Result<Vec<Actor>, AllocError> {
    let mut actors = Vec::with_capacity(alloc, setup.tasks())?;
    for (place, group) in plan.groups.iter().enumerate() {
        push_actors(&mut actors, setup, plan.seed, place, group)?;
    }
    Ok(actors)
}

/// Adds the tasks of the group at a place.
fn push_actors(
    actors: &mut Vec<Actor>,
    setup: &Setup,
    seed: u64,
    place: usize,
    group: &Group,
) -> Result<(), AllocError> {
    for _number in 0..group.count {
        let number = actors.len() as u64;
        let Some(id) = TaskId::new(number) else {
            return Ok(());
        };
        if !setup.has_task(id) {
            return Ok(());
        }
        actors.push(Actor {
            id,
            home: setup.spec(id).home,
            group: place,
            condition: condition_at_start(group),
            at: 0,
            left: 0,
            begun: group.begins,
            arrived: group.begins,
            kept_up_to: group.begins,
            missed: 0,
            rounds: [0; Phase::DEPTHS],
            draws: Draws::of_task(seed, number),
        })?;
    }
    Ok(())
}

/// What the tasks of a group wait for at the start. The numbers of those that arrive are free.
fn condition_at_start(group: &Group) -> Condition {
    if group.arrivals.is_some() {
        Condition::Ended
    } else if group.begins > 0 {
        Condition::Until(group.begins)
    } else {
        Condition::Runnable
    }
}

/// The CPUs of a machine at the start.
pub(crate) fn processors_of(
    alloc: Global,
    setup: &Setup,
    tick: u64,
) -> Result<Vec<Processor>, AllocError> {
    let mut processors = Vec::with_capacity(alloc, setup.cpus())?;
    for cpu in 0..setup.cpus() {
        if let Some(id) = CpuId::new(cpu as u64) {
            processors.push(Processor::at_start(id, tick))?;
        }
    }
    Ok(processors)
}
