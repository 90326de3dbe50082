//! The call of both fleets for a CPU that has nothing to run: in one thread which task it finds, at which CPUs it looks, and where it finds
//! none; and by threads, of the fleet without a history, that after one sweep no CPU is left without work.

mod by_threads;
mod with_history;
mod without_history;

use crate::fixtures::{setup_of, task_at};
use eevdf_ops::{Setup, TaskSpec};
use eevdf_weight::Nice;
use std::alloc::Global;
use std::process::Abort;

/// How many CPUs there are in most tests.
const CPUS: u64 = 64;

/// The CPUs that look for work.
const TRIED: [u64; 4] = [0, 1, 8, 63];

/// The CPU that comes so many numbers after another one, where CPU 0 comes after the last.
fn after(cpu: u64, steps: u64) -> u64 {
    cpu.saturating_add(steps) % CPUS
}

/// A setup in which all CPUs are idle but two: the second after this one has the tasks 0 and 1, and the one before this one has the tasks
/// 2, 3 and 4. So this one finds task 1 and then task 4, and is then as loaded as the one before it.
fn two_after_and_three_before(rt: &impl Abort, alloc: Global, cpu: u64) -> Setup {
    let mut tasks = Vec::new(alloc);
    for home in [
        after(cpu, 2),
        after(cpu, 2),
        after(cpu, CPUS - 1),
        after(cpu, CPUS - 1),
        after(cpu, CPUS - 1),
    ] {
        tasks.push(task_at(rt, home, false)).expect(rt, "memory");
    }
    setup_of(rt, alloc, &tasks, CPUS as usize, 0)
}

/// A task of this nice level at a CPU.
fn of_nice(rt: &impl Abort, home: u64, nice: i64) -> TaskSpec {
    let mut task = task_at(rt, home, false);
    task.nice = Nice::new(nice).expect(rt, "nice");
    task
}

/// Three CPUs: this one has a task of nice level -20, task 0, that one the tasks 1, 2 and 3 of nice level 19, and the third has none. The
/// first weighs 88761, and the second 45.
fn one_heavy_and_three_light(rt: &impl Abort, alloc: Global, heavy: u64, light: u64) -> Setup {
    let tasks = [
        of_nice(rt, heavy, -20),
        of_nice(rt, light, 19),
        of_nice(rt, light, 19),
        of_nice(rt, light, 19),
    ];
    setup_of(rt, alloc, &tasks, 3, 0)
}
