//! How fair the turns of a queue are: laws of the model of eevdf_queue, on any list of picks with their ticks.
//!
//! A turn is a pick, and then ticks of the task picked. Each function of [`laws`] does nothing; what it says is its contract.
//! [`take_turns`] takes turns. [`rebase_laws`] are laws of what rebases do to a machine and to its history, [`balance_laws`] of what a task
//! has of its ideal share where a machine is balanced.
#![tactic(auto)]

pub mod balance_laws;
pub mod laws;
pub mod rebase_laws;
mod turns;

pub use turns::{take_turn, take_turns};
