//! A machine of two CPUs, driven by orders from outside that may be wrong.

use crate::machines::task_at;
use eevdf_ops::{Answer, CpuId, Deed, Setup, SetupFault, Solo};
use eevdf_queue::TaskId;
use std::alloc::{AllocError, Global};

/// What is asked for: CPU `cpu` runs its next task, or puts this task to sleep. No number has been tested.
#[derive(Clone, Copy)]
pub enum Order {
    Run { cpu: u64 },
    Sleep { cpu: u64, task: u64 },
}

/// What each order is answered, and `None` of each that the machine can't carry out.
pub fn answers(
    alloc: Global,
    setup: &Setup,
    orders: &[Order],
) -> Result<Vec<Option<Answer>>, AllocError> {
    let mut machine = Solo::open(alloc, setup)?;
    let mut answers = Vec::new(alloc);
    for order in orders {
        let answer = match deed_of(order) {
            Some(deed) => machine.try_apply(deed),
            None => None,
        };
        answers.push(answer)?;
    }
    Ok(answers)
}

fn deed_of(order: &Order) -> Option<Deed> {
    Some(match *order {
        Order::Run { cpu } => Deed::Pick {
            cpu: CpuId::new(cpu)?,
        },
        Order::Sleep { cpu, task } => Deed::Sleep {
            cpu: CpuId::new(cpu)?,
            task: TaskId::new(task)?,
        },
    })
}

/// Two CPUs, with a task on each.
pub fn two_cpus(alloc: Global) -> Result<Setup, SetupFault> {
    let tasks = [
        task_at(CpuId::new(0).unwrap(), false),
        task_at(CpuId::new(1).unwrap(), false),
    ];
    Setup::make(alloc, &tasks, &[Vec::new(alloc), Vec::new(alloc)])
}
