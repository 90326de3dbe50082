//! Which parts a workload has.

use eevdf_ops::{CpuId, Setup};
use eevdf_workload::Workload;

/// Which of the parts a workload has that a command does.
#[derive(Clone, Copy, PartialEq, Eq, Debug)]
pub struct Parts {
    /// A program that isn't empty.
    pub programs: bool,
    pub order: bool,
    pub script: bool,
}

impl Parts {
    pub const NONE: Parts = Parts {
        programs: false,
        order: false,
        script: false,
    };

    /// The parts of a workload.
    pub fn of(workload: &Workload) -> Parts {
        Parts {
            programs: has_programs(workload.setup()),
            order: workload.order().is_some(),
            script: workload.script().is_some(),
        }
    }
}

fn has_programs(setup: &Setup) -> bool {
    for cpu in 0..setup.cpus() {
        if !setup.program(CpuId::numbered(cpu)).is_empty() {
            return true;
        }
    }
    false
}
