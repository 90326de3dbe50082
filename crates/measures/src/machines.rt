use eevdf_ops::{Setup, TaskSpec};
use std::alloc::{AllocError, Global};

/// A machine of so many CPUs with these tasks, whose programs are empty. It fails only when out of memory.
pub fn machine_of(alloc: Global, tasks: &[TaskSpec], cpus: usize) -> Result<Setup, AllocError> {
    let mut programs = Vec::with_capacity(alloc, cpus)?;
    for _cpu in 0..cpus {
        programs.push(Vec::new(alloc))?;
    }
    Setup::make(alloc, tasks, &programs).map_err(|_| AllocError)
}
