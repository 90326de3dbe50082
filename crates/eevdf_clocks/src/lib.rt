//! The time of each deed of a history.
//!
//! Nothing in a history says when it was done, but for the ticks: each takes the nanoseconds that it was given. So each CPU has a clock,
//! which begins at 0 and is moved on by its ticks. Before a deed that names another CPU it moves on to the clock of that one, a pull's
//! source or a wake's sender, and before a deed that found a task asleep to the time at which that one fell asleep or ended, where it is
//! behind: no effect comes before its cause.
#![tactic(auto)]

mod clocks;
mod moment;
mod named_tasks;

pub use clocks::Clocks;
pub use moment::Moment;
pub use named_tasks::named_task;
