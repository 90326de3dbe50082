//! CPUs, tasks, nice levels and times for tests, by their numbers.

use eevdf_ops::{CpuId, Deed};
use eevdf_queue::TaskId;
use eevdf_weight::{Nice, Ns, Slice};
use std::process::Abort;

pub fn cpu(rt: &impl Abort, number: u64) -> CpuId {
    CpuId::new(number).expect(rt, "cpu")
}

pub fn task(rt: &impl Abort, number: u64) -> TaskId {
    TaskId::new(number).expect(rt, "task")
}

pub fn nice(rt: &impl Abort, level: i64) -> Nice {
    Nice::new(level).expect(rt, "nice")
}

pub fn ns(rt: &impl Abort, number: u64) -> Ns {
    Ns::new(number).expect(rt, "ns")
}

pub fn slice(rt: &impl Abort, length: u64) -> Slice {
    Slice::new(length).expect(rt, "slice")
}

/// The wake of the task of a number, for a sender.
pub fn wake(rt: &impl Abort, cpu: CpuId, number: u64, sender: CpuId) -> Deed {
    let task = task(rt, number);
    Deed::Wake { cpu, task, sender }
}
