//! What deeds do to run queues, by the queues that they touch.

use crate::cpu_id::CpuId;
use eevdf_queue::TaskId;
use eevdf_weight::{Nice, Ns, Slice};

/// What is done to the run queue of one CPU alone, by `LocalAct::apply`.
#[derive(Clone, Copy, PartialEq, Eq, Debug)]
pub enum LocalAct {
    /// The running task is charged so many nanoseconds.
    Tick(Ns),
    /// The eligible task of earliest virtual deadline runs.
    Pick,
    /// The running task's virtual deadline grows by one request.
    Yield,
    /// The task, if it runs here, falls asleep here, where it has its home.
    Sleep(TaskId),
    /// The task, if it runs here, dozes off here, where it has its home: it keeps no debt, and its place.
    Doze(TaskId),
    /// The task, if it sleeps here, becomes runnable. `sender` is the CPU that asked for it.
    Wake { task: TaskId, sender: CpuId },
    /// The task, if it is runnable here, gets this nice level.
    Renice(TaskId, Nice),
    /// The task, if it sleeps here, begins anew with this nice level and slice.
    Begin(TaskId, Nice, Slice),
    /// The task, if it is runnable here, where it has its home, ends: it falls asleep without a lag.
    End(TaskId),
    /// The task, if it is here, gets this nice level and slice.
    Set(TaskId, Nice, Slice),
    /// All virtual times are lowered by one number.
    Rebase,
}

/// How a task comes from the run queue of one CPU to that of another. One of the two does it, by `Transfer::apply`.
#[derive(Clone, Copy, PartialEq, Eq, Debug)]
pub enum Transfer {
    /// The task, if it runs here, falls asleep at its home, which is the other CPU. A doze away from home is this too.
    Sleep(TaskId),
    /// A task that waits at the other CPU becomes runnable here, where that levels the loads.
    Pull,
    /// The task, if it is runnable here, ends: it falls asleep without a lag at its home, which is the other CPU.
    End(TaskId),
}

/// What a deed does, without the CPU that does it. It is done by `LocalAct::apply` or `Transfer::apply`.
#[derive(Clone, Copy, PartialEq, Eq, Debug)]
pub enum Act {
    /// It touches the run queue of its CPU alone.
    Local(LocalAct),
    /// It touches the run queue of this other CPU too.
    Transfer(CpuId, Transfer),
}
