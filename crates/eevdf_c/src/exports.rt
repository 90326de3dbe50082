//! What C calls, one line each: the pointers become references, and the work is done by [`crate::calls`].

pub mod blocks;
pub mod fair_arrivals;
pub mod fair_turns;
pub mod hands;
pub mod lateness;
pub mod opening;
pub mod pulls;
pub mod readers;
pub mod shares;
pub mod sizes;
pub mod tasks;
pub mod turns;
pub mod version;
