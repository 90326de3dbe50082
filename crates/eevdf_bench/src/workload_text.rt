//! What a program has read, and what it has to tell of that.

use crate::parts::Parts;
use crate::refused_deeds::RefusedDeeds;
use std::alloc::Global;

/// The bytes of a workload, from which a fault can be explained, and what is told of it where it isn't refused.
#[derive(Drop)]
pub struct WorkloadText {
    pub bytes: Vec<u8>,
    pub notes: Notes,
}

impl WorkloadText {
    /// What has been read before anything is.
    pub fn new(alloc: Global) -> Self {
        WorkloadText {
            bytes: Vec::new(alloc),
            notes: Notes::none(alloc),
        }
    }
}

/// What is told of a workload beside its report.
#[derive(Drop)]
pub struct Notes {
    /// Whether it has a key that nothing reads.
    pub has_unread_keys: bool,
    pub parts: Parts,
    /// The deeds of its script that were refused, where that was done.
    pub refused: RefusedDeeds,
}

impl Notes {
    /// Of a workload that hasn't been read.
    pub fn none(alloc: Global) -> Self {
        Notes {
            has_unread_keys: false,
            parts: Parts::NONE,
            refused: RefusedDeeds::none(alloc),
        }
    }
}
