use std::alloc::AllocError;

/// The calls can't go on: a call was refused twice, or isn't answered as the workload has it.
#[derive(Clone, Copy, PartialEq, Eq, Debug, Drop)]
pub struct Stopped;

impl From<AllocError> for Stopped {
    fn from(_: AllocError) -> Stopped {
        Stopped
    }
}
