//! Operations of tests by their texts, as a program of a workload lists them.

use eevdf_ops::Op;
use eevdf_workload::read_workload;
use std::alloc::Global;
use std::process::Abort;

/// How many CPUs there are where the texts are read, and how many tasks.
const CPUS: u64 = 64;

const TASKS: u64 = 128;

/// The operations that the lines of a text are. They are read as the program of a CPU at which all tasks are at home. There all operations
/// on tasks of numbers below 128 are allowed, and all pulls but those from that CPU; so this one is to be no source.
pub fn operations_at(rt: &impl Abort, alloc: Global, cpu: u64, lines: &str) -> Vec<Op> {
    let workload = workload_of(rt, alloc, cpu, lines);
    let workload = read_workload(alloc, workload.as_bytes()).expect(rt, "operations");
    let program = workload.setup().program(crate::fixtures::cpu(rt, cpu));
    Vec::from_slice(alloc, program).expect(rt, "memory")
}

/// A workload in which a CPU has these operations, and all tasks.
fn workload_of(rt: &impl Abort, alloc: Global, cpu: u64, lines: &str) -> String {
    let mut text = String::new(alloc);
    text.push_str("version = 4\nprogram = [")
        .expect(rt, "memory");
    for number in 0..CPUS {
        text.push_str("[").expect(rt, "memory");
        if number == cpu {
            push_lines(rt, &mut text, lines);
        }
        text.push_str("], ").expect(rt, "memory");
    }
    text.push_str("]\n").expect(rt, "memory");
    for _task in 0..TASKS {
        write!(text, "[[task]]\nhome = {cpu}\n").expect(rt, "memory");
    }
    text
}

/// Adds each line in quotes.
fn push_lines(rt: &impl Abort, text: &mut String, lines: &str) {
    for line in lines.lines() {
        write!(text, "\"{line}\", ").expect(rt, "memory");
    }
}

/// The calls of a table, each of the seat of a CPU, and what comes of it, where the operation is told by its text. None of these pulls from
/// CPU 63.
pub fn calls_of<T: Copy>(
    rt: &impl Abort,
    alloc: Global,
    table: &[(usize, &'static str, T)],
) -> Vec<(usize, Op, T)> {
    let mut lines = String::new(alloc);
    for (_, line, _) in table {
        write!(lines, "{line}\n").expect(rt, "memory");
    }
    let operations = operations_at(rt, alloc, CPUS - 1, lines.as_str());
    let mut calls = Vec::new(alloc);
    for ((cpu, _, told), operation) in table.iter().zip(&operations) {
        calls.push((*cpu, *operation, *told)).expect(rt, "memory");
    }
    calls
}
