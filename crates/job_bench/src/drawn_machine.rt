//! Machines whose tasks are drawn.

ghost use Rattle.std.specs.Prelude.{◌<◌, ◌≤◌, IfOk, vec_len};

use crate::job_fault::JobFault;
use drawn_values::Draws;
use eevdf_ops::{CpuId, Op, Setup, TaskSpec};
use eevdf_queue::TaskId;
use eevdf_weight::{Nice, Slice};
use std::alloc::{AllocError, Global};

/// Of what kind the tasks of a machine are.
#[derive(Clone, Copy, PartialEq, Eq, Debug)]
pub enum TaskKind {
    /// The first two of each CPU are heavy and begin awake, so that they run often. The others are mixed.
    HeavyFirst,
    /// All are mixed: of many levels, slices and starts, and an eighth begins asleep.
    Mixed,
    /// All are of one level, slice and start.
    Alike,
}

/// How large a machine is, and of what kind its tasks are.
#[derive(Clone, Copy)]
pub struct Shape {
    pub cpus: u64,
    pub tasks: u64,
    pub kind: TaskKind,
    pub ghost cpus_some: { 0 < cpus },
    pub ghost cpus_few: { cpus ≤ 64 },
    pub ghost tasks_some: { 0 < tasks },
    pub ghost tasks_few: { tasks ≤ 1024 },
}

/// The lengths of slices, of which each task has one.
const SLICES: [u64; 8] = [
    100_000,
    700_000,
    1_000_000,
    3_000_000,
    3_000_000,
    3_000_000,
    10_000_000,
    100_000_000,
];

/// The tasks of a machine, at home on the CPUs by turns.
pub fn drawn_tasks(
    alloc: Global,
    shape: &Shape,
    draws: &mut Draws,
) -> Result<Vec<TaskSpec>, AllocError> {
    let mut tasks = Vec::new(alloc);
    for number in 0..shape.tasks {
        let home = CpuId::new(number % shape.cpus).unwrap();
        tasks.push(match shape.kind {
            TaskKind::HeavyFirst if number < 2 * shape.cpus => heavy_task(home, draws),
            TaskKind::HeavyFirst | TaskKind::Mixed => mixed_task(home, draws),
            TaskKind::Alike => plain_task(home),
        })?;
    }
    Ok(tasks)
}

/// Level 0 for half of the tasks, any from -20 to 19 for the others; an eighth begins asleep.
fn mixed_task(home: CpuId, draws: &mut Draws) -> TaskSpec {
    let nice = if draws.below(2) == 0 {
        Nice::new(0).unwrap()
    } else {
        draws.nice()
    };
    TaskSpec {
        home,
        nice,
        slice: drawn_slice(draws),
        start: draws.start(),
        asleep: draws.below(8) == 0,
    }
}

/// One of level -20, which begins awake.
fn heavy_task(home: CpuId, draws: &mut Draws) -> TaskSpec {
    TaskSpec {
        home,
        nice: Nice::MIN,
        slice: drawn_slice(draws),
        start: draws.start(),
        asleep: false,
    }
}

fn plain_task(home: CpuId) -> TaskSpec {
    TaskSpec {
        home,
        nice: Nice::new(0).unwrap(),
        slice: Slice::new(3_000_000).unwrap(),
        start: 0,
        asleep: false,
    }
}

/// One of the lengths of slices.
pub fn drawn_slice(draws: &mut Draws) -> Slice {
    match Slice::new(SLICES[draws.below(8) as usize]) {
        Some(slice) => slice,
        None => Slice::MAX,
    }
}

/// The machine of these tasks, with a program without operations for each CPU.
pub fn setup_without_programs(
    alloc: Global,
    shape: &Shape,
    tasks: &[TaskSpec],
) -> Result<Setup, JobFault> {
    let mut programs: Vec<Vec<Op>> = Vec::new(alloc);
    for _cpu in 0..shape.cpus {
        programs.push(Vec::new(alloc))?;
    }
    setup_of(alloc, tasks, &programs)
}

/// The machine of these tasks and programs.
pub fn setup_of(
    alloc: Global,
    tasks: &[TaskSpec],
    programs: &[Vec<Op>],
) -> Result<Setup, JobFault> {
    Setup::make(alloc, tasks, programs).map_err(|_| JobFault::Machine)
}

/// One of the first two tasks of a CPU, where it has two.
pub fn first_task_at(shape: &Shape, cpu: CpuId, draws: &mut Draws) -> TaskId {
    let number = cpu.get() % shape.cpus + shape.cpus * draws.below(2);
    if number < shape.tasks {
        TaskId::new(number).unwrap()
    } else {
        TaskId::new(cpu.get()).unwrap()
    }
}
