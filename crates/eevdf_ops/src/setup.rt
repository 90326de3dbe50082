ghost use Rattle.std.specs.Prelude.{◌≡◌, ◌<◌, ◌≤◌, nat_lt, length, map, slice_index_or, IfOk, None};
ghost use Rattle.eevdf_ops.specs.Faults as faults;
ghost use Rattle.eevdf_ops.specs.{Faults.IsSetupOf, Faults.tasks_fault, Numbers.most_cpus};
ghost use Rattle.eevdf_ops.specs.{Numbers.most_tasks};
ghost use Rattle.eevdf_ops.specs.TasksLeft.{tasks_left};
ghost use Rattle.eevdf_ops.specs.Setup as setup;
ghost use Rattle.std.specs.List.{enumerate_from};

use crate::cpu_id::CpuId;
use crate::deeds::{Deed, Op};
use crate::homes::Homes;
use crate::setup_check::setup_fault;
use crate::setup_fault::SetupFault;
use crate::setup_tasks::SetupTasks;
use crate::task_spec::TaskSpec;
use eevdf_queue::TaskId;
use std::alloc::{AllocError, Global};
use std::marker::Model;

/// What a machine is set up from: the tasks, each numbered by its place, and a program for each CPU.
#[derive(Drop)]
pub struct Setup {
    tasks: Vec<TaskSpec>,
    programs: Vec<Vec<Op>>,
}

impl Model for Setup {
    ghost use Rattle.std.specs.Prelude.{◌≡◌, None, map};
    ghost use Rattle.eevdf_ops.specs.Setup as setup;
    ghost use Rattle.eevdf_ops.specs.Faults.{setup_fault};

    ghost Value = { setup.Setup };

    ghost view = { λ s. record {
      tasks = s.tasks.items;
      programs = map (λ p. p.items) s.programs.items;
    } };

    ghost invariant = { λ s.
        setup_fault s.tasks.items (map (λ p. p.items) s.programs.items) ≡ None };
}

impl Setup {
    /// A program has at most so many operations.
    pub const MOST_OPERATIONS: usize = 10_000;

    /// A setup of these tasks and programs, copied. Where it has a fault, the first one is answered: in the
    /// number of programs, in that of tasks, then of each task in order its home and its start, then of each
    /// program in order its length and each of its operations. `Memory` is answered only where there is no fault.
    pub fn make(
        alloc: Global,
        tasks: &[TaskSpec],
        programs: &[Vec<Op>],
    ) -> Result<Setup, SetupFault>
        ensures { IsSetupOf tasks.now (map (λ p. p.items) programs.now) result }
    {
        match setup_fault(tasks, programs) {
            Some(fault) => Err(fault),
            None => {
                let tasks = Vec::from_slice(alloc, tasks)?;
                let programs = copy_programs(alloc, programs)?;
                Ok(Setup { tasks, programs })
            }
        }
    }

    /// The same setup in memory of its own.
    pub fn try_clone(&self, alloc: Global) -> Result<Setup, AllocError>
        ensures { IfOk result (λ s. s ≡ self.now) }
    {
        let tasks = Vec::from_slice(alloc, &self.tasks)?;
        let programs = copy_programs(alloc, &self.programs)?;
        Ok(Setup { tasks, programs })
    }

    /// The number of CPUs. No setup has a fault.
    pub fn cpus(&self) -> usize
        ensures cpus { result ≡ setup.cpus_of self.now }
        ensures some { 1 ≤ result }
        ensures few { result ≤ most_cpus }
        ensures sound { faults.setup_fault self.now.tasks self.now.programs ≡ None }
    {
        self.programs.len()
    }

    /// The number of tasks.
    pub fn tasks(&self) -> usize
        ensures { result ≡ length self.now.tasks }
    {
        self.tasks.len()
    }

    /// The home of each task by its number, copied. Fails only when out of memory.
    pub fn homes(&self, alloc: Global) -> Result<Vec<CpuId>, AllocError>
        ensures { IfOk result (λ homes. homes.items ≡ setup.homes_of self.now) }
    {
        self.tasks.iter().map(|task| task.home).collect(alloc)
    }

    /// The tasks by their numbers. None of them, and no program, has a fault.
    pub(crate) fn task_specs(&self) -> &[TaskSpec]
        ensures tasks { result.now ≡ self.now.tasks }
        ensures few { length result.now ≤ most_tasks }
        ensures well { tasks_fault (setup.cpus_of self.now) 0 result.now ≡ None }
    {
        &self.tasks
    }

    /// The tasks with their numbers, in ascending order.
    pub fn each_task(&self) -> SetupTasks<'_>
        ensures { tasks_left result ≡ enumerate_from 0 self.now.tasks }
    {
        SetupTasks::of(self.task_specs())
    }

    /// A task of the setup as it was given.
    pub fn spec(&self, task: TaskId) -> &TaskSpec
        requires { task < length self.now.tasks }
        ensures { result.now ≡ slice_index_or self.now.tasks task result.now }
    {
        &self.tasks[task.index()]
    }

    /// The program of a CPU of the setup.
    pub fn program(&self, cpu: CpuId) -> &[Op]
        requires { cpu < setup.cpus_of self.now }
        ensures { result.now ≡ slice_index_or self.now.programs cpu result.now }
    {
        &self.programs[cpu.index()]
    }

    /// Whether the setup has the CPU, the task, the sender and the source that a deed names, a wake is at the
    /// task's home, and a pull is from another CPU.
    pub fn allows(&self, deed: &Deed) -> bool
        ensures { result ≡ setup.allows self.now deed.now }
    {
        Homes::Of(&self.tasks).allows(self.cpus(), deed)
    }

    /// Whether the setup has a CPU.
    pub fn has_cpu(&self, cpu: CpuId) -> bool
        ensures { result ≡ nat_lt cpu (setup.cpus_of self.now) }
    {
        cpu.index() < self.cpus()
    }

    /// Whether the setup has a task.
    pub fn has_task(&self, task: TaskId) -> bool
        ensures { result ≡ setup.is_task (setup.homes_of self.now) task }
    {
        Homes::Of(&self.tasks).has_task(task)
    }
}

fn copy_programs(alloc: Global, programs: &[Vec<Op>]) -> Result<Vec<Vec<Op>>, AllocError>
    ensures { IfOk result (λ copies.
        map (λ p. p.items) copies.items ≡ map (λ p. p.items) programs.now) }
{
    let mut copies = Vec::with_capacity(alloc, programs.len())?;
    for program in programs {
        copies.push(Vec::from_slice(alloc, program)?)?;
    }
    Ok(copies)
}
