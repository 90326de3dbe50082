//! A run queue that knows how late its requests can be.
//!
//! A [`FairQueue`] is a queue with a few words beside it, its [`Bounds`], which each of its calls keeps. They say at every moment by
//! how much the virtual time can be past the deadline of a pending request: by the longest turn that was run, however many tasks come,
//! leave, sleep and wake, but for what a task has moved the front that came before the pick or past the furthest, or that ran while no turn
//! was known. Nobody says beforehand how long ticks are. A `Queue` without it costs nothing more.
#![tactic(auto)]

mod bounds;
mod fair_queue;
pub mod laws;
mod share_clock;
mod shares;

pub use bounds::{Bounds, Mark};
pub use fair_queue::FairQueue;
pub use share_clock::ShareMark;
pub use shares::Shares;
