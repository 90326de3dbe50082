//! Why there is no report.

use eevdf_bench::{BenchFault, Key, RefusedDeed, fault_text, status_of};
use std::alloc::{AllocError, Global};

/// Why there is no report.
#[derive(Clone, Copy)]
pub(crate) enum NoReport {
    /// The workbench's own fault.
    Fault(BenchFault),
    /// No deed of the script was to be refused, and this one is the first that was.
    Refused(RefusedDeed),
}

impl From<BenchFault> for NoReport {
    fn from(fault: BenchFault) -> NoReport {
        NoReport::Fault(fault)
    }
}

impl NoReport {
    /// The line that is printed.
    pub(crate) fn line(&self, alloc: Global) -> Result<Vec<u8>, AllocError> {
        match self {
            NoReport::Fault(fault) => fault_text(alloc, fault),
            NoReport::Refused(deed) => {
                let key = Key::Script(deed.at);
                Ok(format!(in alloc; "fault: refused deed at {key}\n")?.into_bytes())
            }
        }
    }

    /// The program's status.
    pub(crate) fn status(&self) -> u8 {
        match self {
            NoReport::Fault(fault) => status_of(fault),
            NoReport::Refused(_) => 1,
        }
    }
}
