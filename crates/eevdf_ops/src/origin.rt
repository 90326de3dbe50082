//! Who does a deed, and what it comes from.

ghost use Rattle.std.specs.Prelude.{◌≡◌};
ghost use Rattle.eevdf_ops.specs.Origins.{decider, parts};

use crate::cpu_id::CpuId;
use crate::deeds::{Deed, Op};
use eevdf_queue::TaskId;

/// What a deed of a CPU comes from.
#[derive(Clone, Copy, PartialEq, Eq, Debug)]
pub enum Origin {
    /// An operation of the CPU's program, neither a post nor a drain.
    Operation(Op),
    /// A request that `sender` posted: the task is to wake.
    Request { task: TaskId, sender: CpuId },
}

impl Deed {
    /// The CPU that does it, and what it comes from.
    #[inline(always)]
    pub fn parts(self) -> (CpuId, Origin)
        ensures { result ≡ parts self }
    {
        match self {
            Deed::Tick { cpu, ns } => (cpu, Origin::Operation(Op::Tick(ns))),
            Deed::Pick { cpu } => (cpu, Origin::Operation(Op::Pick)),
            Deed::Yield { cpu } => (cpu, Origin::Operation(Op::Yield)),
            Deed::Sleep { cpu, task } => (cpu, Origin::Operation(Op::Sleep(task))),
            Deed::Doze { cpu, task } => (cpu, Origin::Operation(Op::Doze(task))),
            Deed::Wake { cpu, task, sender } => (cpu, Origin::Request { task, sender }),
            Deed::Pull { cpu, source } => (cpu, Origin::Operation(Op::Pull(source))),
            Deed::Renice { cpu, task, nice } => (cpu, Origin::Operation(Op::Renice(task, nice))),
            Deed::Begin {
                cpu,
                task,
                nice,
                slice,
            } => (cpu, Origin::Operation(Op::Begin(task, nice, slice))),
            Deed::End { cpu, task } => (cpu, Origin::Operation(Op::End(task))),
            Deed::Set {
                cpu,
                task,
                nice,
                slice,
            } => (cpu, Origin::Operation(Op::Set(task, nice, slice))),
            Deed::Rebase { cpu } => (cpu, Origin::Operation(Op::Rebase)),
        }
    }

    /// The CPU that does it.
    pub fn cpu(self) -> CpuId
        ensures { result ≡ decider self }
    {
        self.parts().0
    }
}
