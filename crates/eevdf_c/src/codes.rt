//! The codes that a call answers. Errors are below 0, with the values of errno where one fits.

/// Done.
pub const DONE: i64 = 0;

/// A tick's: the running task has used up its request, so it is time to pick.
pub const TIME_TO_PICK: i64 = 1;

/// What is asked about isn't here: a task, one that runs, or one in a hand.
pub const ABSENT: i64 = -2;

/// No task comes, since that wouldn't bring two loads closer.
pub const BALANCED: i64 = -11;

/// The allocator gave no memory.
pub const NO_MEMORY: i64 = -12;

/// The hand is full.
pub const BUSY: i64 = -16;

/// The task is here already.
pub const PRESENT: i64 = -17;

/// A number is out of its range.
pub const INVALID: i64 = -22;

/// A virtual runtime or deadline would be out of range.
pub const RANGE: i64 = -34;
