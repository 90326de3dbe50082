//! Orders in which no step waits for a lock, so that they are made without a player.

use crate::drawn_machine::Shape;
use eevdf_ops::Op;
use std::alloc::{AllocError, Global};

/// An order of the steps of programs. Operation by operation, those that take one lock alone, that of their own CPU, mix step by
/// step, and after them each that takes two does all its steps.
pub fn mixed_order(
    alloc: Global,
    shape: &Shape,
    programs: &[Vec<Op>],
) -> Result<Vec<usize>, AllocError> {
    let mut order = Vec::new(alloc);
    for at in 0..longest(programs) {
        let present = present_at(programs, at);
        push_mixed(&mut order, shape, present, at)?;
        push_whole(&mut order, shape, present, at)?;
    }
    Ok(order)
}

/// How many operations the longest program has.
fn longest(programs: &[Vec<Op>]) -> usize {
    let mut longest = 0;
    for program in programs {
        longest = program.len().max(longest);
    }
    longest
}

/// The programs up to the last that has an operation at a place.
fn present_at(programs: &[Vec<Op>], at: usize) -> &[Vec<Op>] {
    for last in (0..programs.len()).rev() {
        if at < programs[last].len() {
            return &programs[..last + 1];
        }
    }
    programs
}

/// The steps of the operations at a place of the programs that take one lock, in turn.
fn push_mixed(
    order: &mut Vec<usize>,
    shape: &Shape,
    programs: &[Vec<Op>],
    at: usize,
) -> Result<(), AllocError> {
    for step in 0..most_alone(shape, programs, at) {
        for (caller, program) in programs.iter().enumerate() {
            if let Some(operation) = program.get(at)
                && step < steps_alone(shape, caller, operation)
            {
                order.push(caller)?;
            }
        }
    }
    Ok(())
}

/// The most steps of an operation at a place of the programs that takes one lock.
fn most_alone(shape: &Shape, programs: &[Vec<Op>], at: usize) -> u64 {
    let mut most = 0;
    for (caller, program) in programs.iter().enumerate() {
        if let Some(operation) = program.get(at) {
            most = steps_alone(shape, caller, operation).max(most);
        }
    }
    most
}

/// The steps of the operations at a place of the programs that take two locks, one operation after the other.
fn push_whole(
    order: &mut Vec<usize>,
    shape: &Shape,
    programs: &[Vec<Op>],
    at: usize,
) -> Result<(), AllocError> {
    for (caller, program) in programs.iter().enumerate() {
        if let Some(operation) = program.get(at)
            && steps_alone(shape, caller, operation) == 0
        {
            for _step in 0..7 {
                order.push(caller)?;
            }
        }
    }
    Ok(())
}

/// How many steps an operation has, or 0 where it takes two locks.
fn steps_alone(shape: &Shape, caller: usize, operation: &Op) -> u64 {
    match operation {
        Op::Sleep(task) | Op::Doze(task) | Op::End(task) => {
            if task.get() % shape.cpus == caller as u64 {
                5
            } else {
                0
            }
        }
        Op::Post(_) => 1,
        Op::Drain => 2 * shape.cpus + 2,
        _ if operation.local().is_some() => 4,
        _ => 0,
    }
}
