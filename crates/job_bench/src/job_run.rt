use crate::digest::Digest;
use drawn_values::Draws;
use std::alloc::Global;

/// What a job is done with on an input.
#[derive(Drop)]
pub struct JobRun<'a, R> {
    pub rt: &'a R,
    pub alloc: Global,
    /// The number of the input, and how many operations it has.
    pub input: u64,
    pub size: u64,
    /// What the input is drawn from.
    pub draws: Draws,
    /// The digest of all that came of this input and of those before it.
    pub digest: Digest,
}
