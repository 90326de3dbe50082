use crate::drains::Drained;
use crate::rings::RingFull;
use eevdf_ops::{Answer, CpuId};
use eevdf_queue::TaskId;

/// What came of an operation that was done.
#[derive(Clone, Copy, PartialEq, Eq, Debug, Drop)]
pub enum Operated {
    /// The operation was a deed of the seat's CPU, which was answered so.
    Answer(Answer),
    /// The request stands in the ring to its task's home.
    Posted,
    /// The seat's CPU drained.
    Drained(Drained),
}

/// Why an operation wasn't done. Nothing has changed.
#[derive(Clone, Copy, PartialEq, Eq, Debug, Drop)]
pub enum Refused {
    /// The setup has no such task.
    NoTask(TaskId),
    /// The setup has no such CPU to pull from.
    NoCpu(CpuId),
    /// A pull was to be from the seat's own CPU.
    OwnCpu,
    /// The task that was to begin has its home at another CPU than the seat's.
    OtherHome(TaskId),
    /// The seat has room for fewer lines than the operation may need: one, or for a drain one for each CPU. A fleet that keeps no history
    /// never says so.
    SeatFull,
    /// The ring to the task's home doesn't take the request, which comes back, as `post` of the seat says.
    RingFull(RingFull),
}
