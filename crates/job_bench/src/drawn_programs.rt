//! Programs that are drawn.

ghost use Rattle.std.specs.Prelude.{◌<◌, ◌≤◌};

use crate::drawn_deeds::{drawn_cpu, drawn_task, other_cpu};
use crate::drawn_machine::{Shape, first_task_at};
use drawn_values::Draws;
use eevdf_ops::{CpuId, Op};
use eevdf_queue::TaskId;
use std::alloc::{AllocError, Global};

/// Of what kind the programs of a machine are.
#[derive(Clone, Copy, PartialEq, Eq, Debug)]
pub enum Programs {
    /// All kinds of operations, as many for each CPU.
    Even,
    /// One CPU has many more operations than each other; more than half of all are drains and posts.
    Uneven,
    /// No operation concerns another CPU, so the answers don't hang on the order.
    Apart,
    /// Picks alone.
    Picks,
}

/// A program for each CPU, of so many operations on average.
pub fn drawn_programs(
    alloc: Global,
    shape: &Shape,
    programs: Programs,
    average: u64,
    draws: &mut Draws,
) -> Result<Vec<Vec<Op>>, AllocError> {
    let mut drawn = Vec::new(alloc);
    for number in 0..shape.cpus {
        let cpu = CpuId::new(number).unwrap();
        let length = length_of(shape, programs, average, number);
        drawn.push(drawn_program(alloc, shape, programs, cpu, length, draws)?)?;
    }
    Ok(drawn)
}

/// How many operations a CPU has, 10000 at most.
fn length_of(shape: &Shape, programs: Programs, average: u64, cpu: u64) -> u64 {
    let length = match programs {
        Programs::Uneven if cpu == 0 => average.saturating_mul(shape.cpus) / 2,
        Programs::Uneven => average / 2,
        _ => average,
    };
    length.min(10_000)
}

fn drawn_program(
    alloc: Global,
    shape: &Shape,
    programs: Programs,
    cpu: CpuId,
    length: u64,
    draws: &mut Draws,
) -> Result<Vec<Op>, AllocError> {
    let mut program = Vec::new(alloc);
    for _operation in 0..length {
        program.push(match programs {
            Programs::Even => even_operation(shape, cpu, draws),
            Programs::Uneven => uneven_operation(shape, cpu, draws),
            Programs::Apart => apart_operation(shape, cpu, draws),
            Programs::Picks => Op::Pick,
        })?;
    }
    Ok(program)
}

fn even_operation(shape: &Shape, cpu: CpuId, draws: &mut Draws) -> Op {
    let kind = draws.below(100);
    match kind {
        0..57 => pick_tick_or_yield(kind, 28, 52, draws),
        57..70 => Op::Sleep(sleeper(shape, cpu, draws)),
        70..82 => pull(shape, cpu, draws),
        82..92 => Op::Post(sleeper(shape, cpu, draws)),
        _ => Op::Drain,
    }
}

fn uneven_operation(shape: &Shape, cpu: CpuId, draws: &mut Draws) -> Op {
    match draws.below(8) {
        0 => Op::Drain,
        1..4 => Op::Post(sleeper(shape, cpu, draws)),
        4 => Op::Sleep(sleeper(shape, cpu, draws)),
        _ => even_operation(shape, cpu, draws),
    }
}

fn apart_operation(shape: &Shape, cpu: CpuId, draws: &mut Draws) -> Op {
    let kind = draws.below(16);
    match kind {
        0..12 => pick_tick_or_yield(kind, 6, 11, draws),
        12 => Op::Post(first_task_at(shape, cpu, draws)),
        13 => Op::Drain,
        _ => Op::Sleep(first_task_at(shape, cpu, draws)),
    }
}

/// A pick for a kind below `ticks`, a tick for one below `yields`, and else a yield.
fn pick_tick_or_yield(kind: u64, ticks: u64, yields: u64, draws: &mut Draws) -> Op {
    if kind < ticks {
        Op::Pick
    } else if kind < yields {
        Op::Tick(draws.tick())
    } else {
        Op::Yield
    }
}

/// A heavy task, mostly of the CPU itself, where it runs often, and else of any.
fn sleeper(shape: &Shape, cpu: CpuId, draws: &mut Draws) -> TaskId {
    let home = if draws.below(4) == 0 {
        drawn_cpu(shape, draws)
    } else {
        cpu
    };
    first_task_at(shape, home, draws)
}

/// A pull from another CPU, and a pick where there is no other.
fn pull(shape: &Shape, cpu: CpuId, draws: &mut Draws) -> Op {
    if 1 < shape.cpus {
        Op::Pull(other_cpu(shape, cpu, draws))
    } else {
        Op::Pick
    }
}

/// A task that is at home on a CPU, which has such tasks.
pub fn task_at(shape: &Shape, cpu: CpuId, draws: &mut Draws) -> TaskId {
    let task = drawn_task(shape, draws);
    let number = task.get() - task.get() % shape.cpus + cpu.get() % shape.cpus;
    if number < shape.tasks {
        TaskId::new(number).unwrap()
    } else {
        TaskId::new(cpu.get()).unwrap()
    }
}
