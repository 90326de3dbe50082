//! Times as texts have them: in a workload of phases, which people write, and in a trace, which a tool prints.
//!
//! A [`length`] of time is a number and a unit, a [`span`] is one length or two, and a [`moment`] is seconds with digits behind a point.
//! They come to whole nanoseconds. The [`number`] in them, as each other one of a trace, is digits alone. `None` tells of a text that is
//! none of these, or one that is too great.
#![tactic(auto)]

mod lengths;
mod moments;
mod numbers;
mod spans;

pub use lengths::{MOST_NS, length};
pub use moments::moment;
pub use numbers::number;
pub use spans::span;
