//! One EEVDF run queue: the runnable tasks of a CPU with their virtual runtimes and virtual deadlines, the
//! running one among them, the sleeping tasks with their kept lags, and the queue's virtual time.
//!
//! A task is eligible when its lag isn't negative, and the eligible task of earliest virtual deadline is
//! picked (Stoica and Abdel-Wahab 1995; the Linux kernel's documentation of its EEVDF scheduler). To another
//! CPU a queue offers the waiting task of latest deadline. Contracts see a queue as a record of two finite
//! maps; the laws of that model are functions of [`laws`].
#![tactic(auto)]

mod answers;
mod block;
mod entry;
mod lag;
pub mod laws;
mod parcel;
mod place;
mod queue;
mod refusal;
mod request;
mod room;
mod running;
mod sleeper;
mod sleepers;
mod spot;
mod task;
mod task_id;
mod tree;

pub use answers::{ReniceAnswer, SetAnswer, TickAnswer, TickFrom, WakeAnswer, YieldAnswer};
pub use block::Block;
pub use entry::Entry;
pub use parcel::Parcel;
pub use queue::{Offer, Queue, Runnable, Sleeping};
pub use refusal::{Refusal, Refused};
pub use sleeper::Sleeper;
pub use task_id::{BadTaskId, TaskId};
