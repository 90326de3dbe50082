//! What the machines of several of these programs are made of: tasks of nice level 0, and programs without operations.

use eevdf_ops::{CpuId, Op, TaskSpec};
use eevdf_weight::{Nice, Slice};
use std::alloc::{AllocError, Global};

/// A task of nice level 0 and a slice of 3 ms.
pub fn task_at(home: CpuId, asleep: bool) -> TaskSpec {
    TaskSpec {
        home,
        nice: Nice::new(0).unwrap(),
        slice: Slice::new(3_000_000).unwrap(),
        start: 0,
        asleep,
    }
}

/// A program without operations for each of so many CPUs: a fleet uses no programs.
pub fn empty_programs(alloc: Global, cpus: usize) -> Result<Vec<Vec<Op>>, AllocError> {
    let mut programs = Vec::new(alloc);
    for _cpu in 0..cpus {
        programs.push(Vec::new(alloc))?;
    }
    Ok(programs)
}
