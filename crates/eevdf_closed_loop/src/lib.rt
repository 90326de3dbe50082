//! A scheduler's machine and the tasks on it, each of which goes through its phases: it runs for a while, sleeps, waits for others and
//! wakes them. What the tasks do next depends on whom the scheduler lets run, so the two are played together, deed by deed, by one clock.
//!
//! [`ClosedLoop::step`] gives the next deed with its answer. The order of the deeds is fixed: docs/phases.md has its rules.
#![tactic(auto)]

mod actor;
mod arrivals;
mod begins;
mod closed_loop;
mod draws;
mod opening;
mod opening_faults;
mod phase;
mod phases_on;
mod places;
mod plan;
mod processor;
mod resumes;
mod schedule;
mod sleeps;
mod stop;
mod turns;

pub use closed_loop::ClosedLoop;
pub use opening::{OpenFault, setup_of};
pub use phase::{Phase, Span};
pub use plan::{Arrivals, FallAsleep, Group, Plan, Preempt};
pub use stop::Stop;
