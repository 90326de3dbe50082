//! The texts of workloads.

use eevdf_ops::{Deed, Op, TaskSpec};
use itoa::{Buffer, Integer};
use std::alloc::AllocError;

/// Writes the tasks of a machine.
pub fn push_tasks(text: &mut String, tasks: &[TaskSpec]) -> Result<(), AllocError> {
    for task in tasks {
        text.push_str("[[task]]\nhome = ")?;
        push_number(text, task.home.get())?;
        text.push_str("\nnice = ")?;
        push_number(text, task.nice.get())?;
        text.push_str("\nslice = ")?;
        push_number(text, task.slice.get())?;
        text.push_str("\nstart = ")?;
        push_number(text, task.start)?;
        text.push_str(if task.asleep {
            "\nasleep = true\n"
        } else {
            "\n"
        })?;
    }
    Ok(())
}

/// Writes the version: 2 for machines and scripts that version 1 doesn't take.
pub fn push_version(text: &mut String, wide: bool) -> Result<(), AllocError> {
    text.push_str(if wide {
        "version = 2\n"
    } else {
        "version = 1\n"
    })
}

/// Begins a workload with a script for so many CPUs. Its deeds come next, and then its end.
pub fn begin_script(text: &mut String, wide: bool, cpus: u64) -> Result<(), AllocError> {
    push_version(text, wide)?;
    push_no_programs(text, cpus)?;
    text.push_str("script = [\n")
}

/// Ends a workload with a script.
pub fn end_script(text: &mut String, tasks: &[TaskSpec]) -> Result<(), AllocError> {
    text.push_str("]\n")?;
    push_tasks(text, tasks)
}

/// Writes the programs of the CPUs.
pub fn push_programs(text: &mut String, programs: &[Vec<Op>]) -> Result<(), AllocError> {
    text.push_str("program = [\n")?;
    for program in programs {
        push_program(text, program)?;
    }
    text.push_str("]\n")
}

fn push_program(text: &mut String, program: &[Op]) -> Result<(), AllocError> {
    text.push_str("[")?;
    for operation in program {
        writeln!(text, "\"{operation}\",")?;
    }
    text.push_str("],\n")
}

/// Writes programs without operations for so many CPUs.
fn push_no_programs(text: &mut String, cpus: u64) -> Result<(), AllocError> {
    text.push_str("program = [")?;
    for _cpu in 0..cpus {
        text.push_str("[],")?;
    }
    text.push_str("]\n")
}

/// Writes an order, 32 places on a line.
pub fn push_order(text: &mut String, order: &[usize]) -> Result<(), AllocError> {
    text.push_str("order = [")?;
    for (at, caller) in order.iter().enumerate() {
        text.push_str(if at % 32 == 0 { "\n" } else { " " })?;
        push_number(text, *caller)?;
        text.push_str(",")?;
    }
    text.push_str("\n]\n")
}

/// Writes a deed as a member of a script.
pub fn push_deed(text: &mut String, deed: &Deed) -> Result<(), AllocError> {
    writeln!(text, "\"{deed}\",")
}

fn push_number<I: Integer>(text: &mut String, number: I) -> Result<(), AllocError> {
    text.push_str(Buffer::new().format(number))
}
