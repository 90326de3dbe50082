//! Deeds that are drawn.

ghost use Rattle.std.specs.Prelude.{◌<◌, ◌≤◌, ◌≢◌};

use crate::drawn_machine::{Shape, first_task_at};
use crate::drawn_programs::task_at;
use drawn_values::Draws;
use eevdf_ops::{CpuId, Deed};
use eevdf_queue::TaskId;

/// Of what kind the deeds of a script are.
#[derive(Clone, Copy, PartialEq, Eq, Debug)]
pub enum Deeds {
    /// All kinds.
    Mixed,
    /// The same without changes of nice levels, which version 1 doesn't know.
    MixedWithoutLevels,
    /// Sleeps of tasks that don't run, wakes of tasks that are awake, and pulls: nearly all are refused.
    Refused,
}

/// One of the CPUs.
pub fn drawn_cpu(shape: &Shape, draws: &mut Draws) -> CpuId {
    CpuId::new(draws.below(shape.cpus)).unwrap()
}

/// A deed of a CPU. The tasks that are to fall asleep and to wake are the first two of each CPU, which are heavy on some machines.
/// Even there few sleeps find their task running, and few wakes find theirs asleep.
pub fn drawn_deed(shape: &Shape, deeds: Deeds, cpu: CpuId, draws: &mut Draws) -> Deed {
    let kind = draws.below(100);
    if deeds == Deeds::Refused {
        return refused_deed(shape, cpu, kind, draws);
    }
    match kind {
        0..30 => Deed::Pick { cpu },
        30..55 => Deed::Tick {
            cpu,
            ns: draws.tick(),
        },
        55..60 => Deed::Yield { cpu },
        60..75 => Deed::Sleep {
            cpu,
            task: first_task_at(shape, cpu, draws),
        },
        75..90 => Deed::Wake {
            cpu,
            task: first_task_at(shape, cpu, draws),
            sender: drawn_cpu(shape, draws),
        },
        90..95 if deeds == Deeds::Mixed => Deed::Renice {
            cpu,
            task: task_at(shape, cpu, draws),
            nice: draws.nice(),
        },
        _ => pull_to(shape, cpu, draws),
    }
}

fn refused_deed(shape: &Shape, cpu: CpuId, kind: u64, draws: &mut Draws) -> Deed {
    match kind {
        0..40 => Deed::Sleep {
            cpu,
            task: drawn_task(shape, draws),
        },
        40..80 => wake_of(shape, draws),
        80..98 => pull_to(shape, cpu, draws),
        98 => Deed::Pick { cpu },
        _ => Deed::Tick {
            cpu,
            ns: draws.tick(),
        },
    }
}

/// A wake of one of the tasks.
fn wake_of(shape: &Shape, draws: &mut Draws) -> Deed {
    let task = drawn_task(shape, draws);
    wake_at_home(shape, task, draws)
}

/// A wake of a task at its home.
pub fn wake_at_home(shape: &Shape, task: TaskId, draws: &mut Draws) -> Deed {
    Deed::Wake {
        cpu: CpuId::new(task.get() % shape.cpus).unwrap(),
        task,
        sender: drawn_cpu(shape, draws),
    }
}

/// A pull from another CPU, and a pick where there is no other.
fn pull_to(shape: &Shape, cpu: CpuId, draws: &mut Draws) -> Deed {
    if shape.cpus == 1 {
        return Deed::Pick { cpu };
    }
    Deed::Pull {
        cpu,
        source: other_cpu(shape, cpu, draws),
    }
}

/// One of the CPUs other than this one.
pub fn other_cpu(shape: &Shape, cpu: CpuId, draws: &mut Draws) -> CpuId
    requires { 1 < shape.now.cpus }
    ensures { result ≢ cpu }
{
    let number = draws.below(shape.cpus - 1);
    let other = if number < cpu.get() {
        number
    } else {
        number + 1
    };
    CpuId::new(other).unwrap()
}

/// One of the tasks.
pub fn drawn_task(shape: &Shape, draws: &mut Draws) -> TaskId {
    draws.task(shape.tasks)
}
