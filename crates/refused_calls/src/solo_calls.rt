//! The scheduler of one thread.

use crate::called::{called, say};
use crate::every_operation::every_operation;
use crate::queue_lines::say_queue;
use crate::solo_deeds::operate;
use crate::stopped::Stopped;
use crate::text_calls::say_outcome;
use eevdf_bench::Workload;
use eevdf_ops::one_thread::solo;
use eevdf_ops::{CpuId, Outcome, Setup, Solo};
use eevdf_queue::TaskId;
use std::alloc::{AllocError, Global};

/// The workload's script in one thread; it is empty where the workload has none.
pub fn script_calls(rt: &impl Print, alloc: Global, workload: &Workload) -> Result<(), Stopped> {
    let outcome = called!(rt, "one_thread::solo", Err(_), solo_of(alloc, workload))?;
    say_outcome(rt, alloc, &outcome)
}

fn solo_of(alloc: Global, workload: &Workload) -> Result<Outcome, AllocError> {
    match workload.script() {
        Some(deeds) => solo(alloc, workload.setup(), deeds),
        None => solo(alloc, workload.setup(), &[]),
    }
}

/// Opens a machine, and does each kind of deed and the programs' operations on it.
pub fn solo_calls(rt: &impl Print, alloc: Global, setup: &Setup) -> Result<(), Stopped> {
    let mut machine = called!(rt, "Solo::open", Err(_), Solo::open(alloc, setup))?;
    say(rt, "-- opened");
    for number in 0..CpuId::COUNT as u64 {
        if let Some(cpu) = CpuId::new(number) {
            operate_all(rt, &mut machine, setup, cpu);
        }
    }
    say_tasks(rt, &machine);
    let queues = machine.into_queues();
    for queue in &queues {
        say_queue(rt, queue);
    }
    say(rt, "-- closed");
    Ok(())
}

fn operate_all(rt: &impl Print, machine: &mut Solo, setup: &Setup, cpu: CpuId) {
    if setup.has_cpu(cpu) {
        for operation in setup.program(cpu) {
            operate(machine, setup, cpu, *operation);
        }
    }
    if let Some(operations) = every_operation(cpu) {
        for operation in &operations {
            operate(machine, setup, cpu, *operation);
        }
    }
    if machine.has_cpu(cpu) {
        say_queue(rt, machine.queue(cpu));
    }
}

fn say_tasks(rt: &impl Print, machine: &Solo) {
    let mut count = 0;
    for number in 0..TaskId::COUNT as u64 {
        if let Some(task) = TaskId::new(number)
            && machine.has_task(task)
        {
            count = number + 1;
        }
    }
    let _ = println!(rt; "tasks {count}");
}
