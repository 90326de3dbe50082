//! What an operation is called, and what stands behind its name.

ghost use Rattle.std.specs.Prelude.{◌≡◌};
ghost use Rattle.eevdf_ops.specs.Signatures.{named_by, signature};

use crate::cpu_id::CpuId;
use crate::deeds::Op;
use crate::named::Named;
use eevdf_queue::TaskId;
use eevdf_weight::{Nice, Ns, Slice};

/// What stands behind the verb of an operation, in order.
#[derive(Clone, Copy, PartialEq, Eq, Debug)]
pub enum Arguments {
    /// The verb stands alone.
    Nothing,
    /// So many nanoseconds.
    Time(Ns),
    /// A task, wherever its home is.
    Task(TaskId),
    /// A task and the nice level that it gets.
    Level(TaskId, Nice),
    /// A task and the nice level and the slice that it gets.
    State(TaskId, Nice, Slice),
    /// A task that has to have its home at the CPU, and the nice level and the slice that it begins with.
    NewTask(TaskId, Nice, Slice),
    /// Another CPU, from which a task is pulled.
    Source(CpuId),
}

impl Arguments {
    /// What they name of a machine.
    #[inline(always)]
    pub fn named(self) -> Named
        ensures { result ≡ named_by self }
    {
        match self {
            Arguments::Nothing | Arguments::Time(_) => Named::Nothing,
            Arguments::Task(task) | Arguments::Level(task, _) | Arguments::State(task, _, _) => {
                Named::Task(task)
            }
            Arguments::NewTask(task, _, _) => Named::TaskAtHome(task),
            Arguments::Source(source) => Named::Source(source),
        }
    }
}

impl Op {
    /// Its verb, which is the word that it begins with in a program, and what stands behind that. By these an operation is printed, and
    /// what they name decides whether it is allowed.
    #[inline(always)]
    pub fn signature(self) -> (&'static str, Arguments)
        ensures verb { result.0.now ≡ (signature self).0 }
        ensures arguments { result.1 ≡ (signature self).1 }
    {
        match self {
            Op::Tick(ns) => ("tick", Arguments::Time(ns)),
            Op::Pick => ("pick", Arguments::Nothing),
            Op::Yield => ("yield", Arguments::Nothing),
            Op::Sleep(task) => ("sleep", Arguments::Task(task)),
            Op::Doze(task) => ("doze", Arguments::Task(task)),
            Op::Post(task) => ("post", Arguments::Task(task)),
            Op::Drain => ("drain", Arguments::Nothing),
            Op::Pull(source) => ("pull", Arguments::Source(source)),
            Op::Renice(task, nice) => ("renice", Arguments::Level(task, nice)),
            Op::Begin(task, nice, slice) => ("begin", Arguments::NewTask(task, nice, slice)),
            Op::End(task) => ("end", Arguments::Task(task)),
            Op::Set(task, nice, slice) => ("set", Arguments::State(task, nice, slice)),
            Op::Rebase => ("rebase", Arguments::Nothing),
        }
    }
}
