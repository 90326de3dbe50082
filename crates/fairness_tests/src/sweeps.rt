//! Sweeps of a CPU that has nothing to run.

use eevdf_balance::sweep::find_work;
use eevdf_ops::{CpuId, Op, Setup, Solo, TaskSpec};
use eevdf_queue::TaskId;
use eevdf_weight::{Nice, Slice};
use std::alloc::Global;
use std::process::Abort;

fn cpu(rt: &impl Abort, number: u64) -> CpuId {
    CpuId::new(number).expect(rt, "cpu")
}

fn task(rt: &impl Abort, number: u64) -> TaskId {
    TaskId::new(number).expect(rt, "task")
}

/// A machine of three CPUs. Of each task it is told which CPU is its home, and its nice level.
fn machine(rt: &impl Abort, alloc: Global, homes: &[(u64, i64)]) -> Solo {
    let mut tasks = Vec::new(alloc);
    for (home, nice) in homes {
        let spec = TaskSpec {
            home: cpu(rt, *home),
            nice: Nice::new(*nice).expect(rt, "nice"),
            slice: Slice::default(),
            start: 0,
            asleep: false,
        };
        tasks.push(spec).expect(rt, "memory");
    }
    let mut programs: Vec<Vec<Op>> = Vec::new(alloc);
    for _cpu in 0..3 {
        programs.push(Vec::new(alloc)).expect(rt, "memory");
    }
    let setup = Setup::make(alloc, &tasks, &programs).expect(rt, "setup");
    Solo::open(alloc, &setup).expect(rt, "memory")
}

/// One task of nice level -20 alone on CPU 1 weighs 88761, three of level 19 on CPU 0 weigh 45. The idle CPU 2 gets one of the three. Then
/// it has a task, and one more would level nothing.
#[test]
fn a_heavy_task_alone_is_no_source(rt: HostRuntime) {
    let rt = &rt;
    let mut solo = machine(rt, rt.alloc(), &[(0, 19), (1, -20), (0, 19), (0, 19)]);
    assert_eq!(rt; find_work(&mut solo, cpu(rt, 2)), Some(task(rt, 3)));
    assert_eq!(rt; solo.queue(cpu(rt, 0)).len(), 2);
    assert_eq!(rt; solo.queue(cpu(rt, 1)).len(), 1);
    assert_eq!(rt; solo.queue(cpu(rt, 2)).len(), 1);
    assert_eq!(rt; find_work(&mut solo, cpu(rt, 2)), None);
}

/// The next number comes first, and after the last one 0.
#[test]
fn a_sweep_begins_at_the_next_cpu(rt: HostRuntime) {
    let rt = &rt;
    let mut solo = machine(rt, rt.alloc(), &[(0, 0), (0, 0), (2, 0), (2, 0)]);
    assert_eq!(rt; find_work(&mut solo, cpu(rt, 1)), Some(task(rt, 3)));
    let mut solo = machine(rt, rt.alloc(), &[(0, 0), (0, 0), (1, 0), (1, 0)]);
    assert_eq!(rt; find_work(&mut solo, cpu(rt, 2)), Some(task(rt, 1)));
}

/// CPUs with one task each have none to give, and keep it.
#[test]
fn a_sweep_of_cpus_with_one_task_finds_none(rt: HostRuntime) {
    let rt = &rt;
    let mut solo = machine(rt, rt.alloc(), &[(0, 0), (1, -20)]);
    assert_eq!(rt; find_work(&mut solo, cpu(rt, 2)), None);
    assert_eq!(rt; solo.queue(cpu(rt, 0)).len(), 1);
    assert_eq!(rt; solo.queue(cpu(rt, 1)).len(), 1);
}
