//! The calls of a gate as values.

use eevdf_fleet::Gate;
use eevdf_ops::CpuId;

/// Which call of a gate it is.
#[derive(Clone, Copy, PartialEq, Eq)]
pub enum Moment {
    /// The operation holds its locks.
    Inside,
    /// The operation has done its work on the queues.
    Acted,
    /// The operation has returned.
    Answered,
}

/// A call of a gate: the CPU, and the place of the operation in its program.
#[derive(Clone, Copy, PartialEq, Eq)]
pub struct GateCall {
    pub moment: Moment,
    pub cpu: u64,
    pub n: usize,
}

impl GateCall {
    pub fn inside(cpu: u64, n: usize) -> GateCall {
        GateCall {
            moment: Moment::Inside,
            cpu,
            n,
        }
    }

    pub fn acted(cpu: u64, n: usize) -> GateCall {
        GateCall {
            moment: Moment::Acted,
            cpu,
            n,
        }
    }

    pub fn answered(cpu: u64, n: usize) -> GateCall {
        GateCall {
            moment: Moment::Answered,
            cpu,
            n,
        }
    }
}

/// What is done at each call of a gate.
pub trait Passing {
    fn pass(&self, call: GateCall);
}

/// A gate whose calls are passed on as values.
#[derive(Drop)]
pub struct PassingGate<P: Passing + Drop> {
    pub passing: P,
}

impl<P: Passing + Drop> Gate for PassingGate<P> {
    fn inside(&self, cpu: CpuId, n: usize) {
        self.passing.pass(GateCall::inside(cpu.get(), n));
    }

    fn acted(&self, cpu: CpuId, n: usize) {
        self.passing.pass(GateCall::acted(cpu.get(), n));
    }

    fn answered(&self, cpu: CpuId, n: usize) {
        self.passing.pass(GateCall::answered(cpu.get(), n));
    }
}
