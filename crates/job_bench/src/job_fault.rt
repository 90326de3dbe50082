use eevdf_bench::BenchFault;
use std::alloc::{AllocError, AllocFailed};
use thiserror::Error;

/// Why a job came to nothing.
#[derive(Clone, Copy, PartialEq, Eq, Debug, Error)]
pub enum JobFault {
    #[error("out of memory")]
    Memory,
    #[error("a drawn machine is refused")]
    Machine,
    #[error("the workbench refuses a workload")]
    Workbench,
    #[error("a seat is missing")]
    Seats,
}

impl From<AllocError> for JobFault {
    fn from(_: AllocError) -> JobFault {
        JobFault::Memory
    }
}

impl From<BenchFault> for JobFault {
    fn from(_: BenchFault) -> JobFault {
        JobFault::Workbench
    }
}

impl<T: Drop> From<AllocFailed<T>> for JobFault {
    fn from(_: AllocFailed<T>) -> JobFault {
        JobFault::Memory
    }
}
