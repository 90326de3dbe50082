use eevdf_ops::CpuId;

/// What refuses a step.
#[derive(Clone, Copy, PartialEq, Eq, Debug)]
pub enum StepFault {
    /// There is no such caller.
    NoCaller,
    /// The caller has done its program.
    Done,
    /// The caller is to take a lock that is held.
    Blocked { cpu: CpuId, holder: usize },
}
