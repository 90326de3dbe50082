//! What an operation names.

ghost use Rattle.std.specs.Prelude.{◌≡◌};
ghost use Rattle.eevdf_ops.specs.Setup.{named};

use crate::cpu_id::CpuId;
use crate::deeds::Op;
use eevdf_queue::TaskId;

/// What an operation of a CPU names, by what a machine has to have for it.
#[derive(Clone, Copy, PartialEq, Eq, Debug)]
pub enum Named {
    /// Neither a task nor a CPU.
    Nothing,
    /// A task, wherever its home is.
    Task(TaskId),
    /// A task that has to have its home at the CPU.
    TaskAtHome(TaskId),
    /// Another CPU, from which a task is pulled.
    Source(CpuId),
}

impl Op {
    /// What the operation names.
    #[inline(always)]
    pub fn named(self) -> Named
        ensures { result ≡ named self }
    {
        self.signature().1.named()
    }
}
