//! CPUs and tasks for tests, by their numbers, setups with a task on each CPU, and those of two CPUs.

use eevdf_ops::{CpuId, Op, Setup, TaskSpec};
use eevdf_queue::TaskId;
use eevdf_weight::{Nice, Ns, Slice};
use std::alloc::Global;
use std::process::Abort;

pub fn cpu(rt: &impl Abort, number: u64) -> CpuId {
    CpuId::new(number).expect(rt, "cpu")
}

pub fn task(rt: &impl Abort, number: u64) -> TaskId {
    TaskId::new(number).expect(rt, "task")
}

pub fn ns(rt: &impl Abort, number: u64) -> Ns {
    Ns::new(number).expect(rt, "time")
}

/// A setup of so many CPUs without programs. On each is a task of nice level 0, which has the CPU's number.
pub fn one_task_each(rt: &impl Abort, alloc: Global, cpus: usize) -> Setup {
    picks_of_one_task_each(rt, alloc, cpus, 0)
}

/// The same, where each CPU's program is so many picks.
pub fn picks_of_one_task_each(rt: &impl Abort, alloc: Global, cpus: usize, picks: usize) -> Setup {
    let mut tasks = Vec::new(alloc);
    for number in 0..cpus {
        tasks
            .push(task_at(rt, number as u64, false))
            .expect(rt, "memory");
    }
    setup_of(rt, alloc, &tasks, cpus, picks)
}

/// A setup of two CPUs without programs. Of each task, which is of nice level 0, it is told which CPU is its home, and whether it begins
/// asleep.
pub fn on_two_cpus(rt: &impl Abort, alloc: Global, homes: &[(u64, bool)]) -> Setup {
    let mut tasks = Vec::new(alloc);
    for (home, asleep) in homes {
        tasks.push(task_at(rt, *home, *asleep)).expect(rt, "memory");
    }
    setup_of(rt, alloc, &tasks, 2, 0)
}

/// A setup of so many CPUs without programs, each with so many tasks of nice level 0 that sleep there: those of CPU `c` are `c`, `c` and the
/// number of CPUs, and so on.
pub fn asleep_at_each(rt: &impl Abort, alloc: Global, cpus: usize, each: usize) -> Setup {
    let mut tasks = Vec::new(alloc);
    for _round in 0..each {
        for home in 0..cpus {
            let spec = task_at(rt, home as u64, true);
            tasks.push(spec).expect(rt, "memory");
        }
    }
    setup_of(rt, alloc, &tasks, cpus, 0)
}

/// A setup of these tasks and so many CPUs, of which each has so many picks as its program.
pub fn setup_of(
    rt: &impl Abort,
    alloc: Global,
    tasks: &[TaskSpec],
    cpus: usize,
    picks: usize,
) -> Setup {
    let mut programs = Vec::new(alloc);
    for _cpu in 0..cpus {
        let program = vec![in alloc; Op::Pick; picks].expect(rt, "memory");
        programs.push(program).expect(rt, "memory");
    }
    Setup::make(alloc, tasks, &programs).expect(rt, "setup")
}

/// A task of nice level 0 whose home is the CPU of a number.
pub fn task_at(rt: &impl Abort, home: u64, asleep: bool) -> TaskSpec {
    TaskSpec {
        home: cpu(rt, home),
        nice: Nice::default(),
        slice: Slice::default(),
        start: 0,
        asleep,
    }
}

/// Takes the seats of two CPUs out of all that there are.
pub fn take_pair<S>(rt: &impl Abort, seats: &mut Vec<S>) -> (S, S) {
    let one = seats.pop().expect(rt, "seat 1");
    let zero = seats.pop().expect(rt, "seat 0");
    (zero, one)
}

/// Gives them back.
pub fn give_back<S: Drop>(rt: &impl Abort, seats: &mut Vec<S>, (zero, one): (S, S)) {
    seats.push(zero).expect(rt, "memory");
    seats.push(one).expect(rt, "memory");
}
