use eevdf_ops::CpuId;
use eevdf_queue::TaskId;

/// A micro-step of an operation: what a caller does at once.
#[derive(Clone, Copy, PartialEq, Eq, Debug)]
pub enum Micro {
    /// The caller takes the lock of a CPU, which nobody holds.
    Acquire(CpuId),
    /// The operation's deed is done on the caller's own queue, and its answer is kept.
    Act,
    /// The task that is to move leaves its queue into the caller's hand, or the answer that refuses is kept.
    Detach,
    /// The task in the caller's hand is put down where it is to go.
    Attach,
    /// The operation's deed is added to the history with the answer that was kept.
    Commit,
    /// The oldest request of a sender to the caller's CPU is found, if one is left.
    Take(CpuId),
    /// The wake that was found is done, and added to the history with its answer.
    Settle(CpuId),
    /// The caller gives up the lock of a CPU.
    Release(CpuId),
    /// A wake of a task is posted to its home.
    Post(TaskId),
}
