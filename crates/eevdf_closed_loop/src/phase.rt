//! What a task does, one thing after the other.

use eevdf_weight::Nice;

/// A length of time in nanoseconds: from `least` to `most`, both included. Where they differ, one is drawn each time.
#[derive(Clone, Copy, PartialEq, Eq, Debug)]
pub struct Span {
    pub least: u64,
    pub most: u64,
}

/// One phase of a task.
#[derive(Clone, Copy, PartialEq, Eq, Debug)]
pub enum Phase {
    /// It runs for so long on whatever CPU it is picked.
    Run(Span),
    /// It sleeps for so long.
    Sleep(Span),
    /// It sleeps until the next moment that is a whole number of periods after it began. The period is in nanoseconds.
    Timer(u64),
    /// It sleeps until another task resumes it, or goes on at once where a resume of its group has been kept.
    Suspend,
    /// Of the group at this place it wakes the suspended task of least number. Where none is suspended the resume is kept.
    Resume(usize),
    /// It yields.
    Yield,
    /// It gets this nice level.
    Nice(Nice),
    /// The end of a loop: back to the phase at the place `first` until the loop has been gone through so many times. A loop at depth 0
    /// stands in no other, and the depth is below `Phase::DEPTHS`.
    Again {
        first: usize,
        depth: usize,
        rounds: u64,
    },
    /// It ends.
    End,
}

impl Phase {
    /// So deep loops stand in one another at most.
    pub const DEPTHS: usize = 8;
}
