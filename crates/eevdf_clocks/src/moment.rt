use eevdf_ops::Line;

/// A line of a history with its time, in nanoseconds.
#[derive(Clone, Copy, PartialEq, Eq, Debug)]
pub struct Moment {
    pub line: Line,
    /// The clock of the deed's CPU as the deed began.
    pub begin: u64,
    /// The same after it: only a tick takes time.
    pub end: u64,
    /// The clock of the other CPU that the deed names, the source of a pull or the sender of a wake, and else of its own. It is no later
    /// than the begin.
    pub other: u64,
}
