//! When CPUs share their work: laws of the pulls of eevdf_ops, on any deeds and in any history.
//!
//! A CPU is idle where it has no runnable task, and crowded where it has two or more. Each function of [`laws`] does nothing; what it
//! says is its contract. Since what a seat of a fleet has seen is a history, they hold of running threads too. Of a machine that pulls have
//! balanced they say what each task has of the share that it would have on an ideal machine. [`sweep`] finds work for an idle CPU of a
//! machine of one thread.
#![tactic(auto)]

pub mod laws;
pub mod sweep;
