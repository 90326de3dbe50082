use eevdf_ops::CpuId;

/// What the threads of a run call at each operation, so that a test can hold them at a place or see them pass it. `cpu` is
/// the CPU whose program it is, `n` the operation's place in this program, from 0 on. The calls come from the thread that
/// runs the program, and its operation goes on when they return. So a gate can change the order in which the threads come,
/// and nothing else.
pub trait Gate {
    /// The operation holds the locks of its queues, and has changed nothing yet. A drain holds its lock, and has taken no
    /// request yet. It isn't called for a post, which takes no lock.
    fn inside(&self, cpu: CpuId, n: usize);

    /// The operation has done its work on the queues, whatever it answers, still holds their locks, and hasn't taken the
    /// journal's lock. It is called neither for a post nor for a drain.
    fn acted(&self, cpu: CpuId, n: usize);

    /// The operation has returned.
    fn answered(&self, cpu: CpuId, n: usize);
}

/// A gate that does nothing.
#[derive(Clone, Copy, PartialEq, Eq, Debug, Drop)]
pub struct OpenGate;

impl Gate for OpenGate {
    fn inside(&self, _cpu: CpuId, _n: usize) {}

    fn acted(&self, _cpu: CpuId, _n: usize) {}

    fn answered(&self, _cpu: CpuId, _n: usize) {}
}
