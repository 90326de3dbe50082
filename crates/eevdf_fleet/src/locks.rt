//! The locks of the queues and of the journal, and how they are taken.
//!
//! A seat has one [`LockLeave`], and who takes locks borrows it for as long as they are held. With them comes a [`JournalLeave`], which
//! who takes the journal's lock borrows for as long as that is held. Neither can be made anywhere else. So an operation can't be written
//! that takes a queue's lock while it holds one, but for the two that are taken together, in ascending order; nor one that takes the
//! journal's lock before those of its queues, or twice, or takes a queue's lock while it holds that of the journal. A look borrows the
//! value until its closure has returned.

mod adaptive_lock;
mod journal_lock;
mod lock_leave;
mod looking;
mod queue_locks;
mod taken_locks;

pub(crate) use journal_lock::JournalLock;
pub(crate) use lock_leave::{JournalLeave, LockLeave};
pub(crate) use queue_locks::QueueLock;
