use std::alloc::AllocError;
use thiserror::Error;

/// Why a run came to nothing.
#[derive(Clone, Copy, PartialEq, Eq, Debug, Error)]
pub enum RunFault {
    #[error("out of memory")]
    Memory,
    #[error("a thread has not given its seats back in order")]
    Seats,
    #[error("a task doesn't stand in one place")]
    Places,
}

impl From<AllocError> for RunFault {
    fn from(_: AllocError) -> RunFault {
        RunFault::Memory
    }
}
