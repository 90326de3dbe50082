use eevdf_ops::CpuId;

/// Where a task stands.
#[derive(Clone, Copy, PartialEq, Eq, Debug)]
pub enum Place {
    /// Among the runnable tasks of a CPU.
    Runnable(CpuId),
    /// Among the sleeping tasks of a CPU.
    Asleep(CpuId),
    /// In a caller's hand, on its way from one place to another.
    InHand(usize),
}
