//! Laws of tasks that doze: of a second way to fall asleep, by which a task gains nothing, and the others lose nothing.
//!
//! A task that dozes keeps its place, the virtual runtime at which it left, and what it is owed, but no debt. A wake puts it at the later
//! of its place and its placement. The calls are `Queue::doze` and `Queue::wake` of eevdf_queue, and these are laws of them beside all other
//! calls of a queue, and so of one CPU of a machine, whatever deeds all CPUs do. Each function of [`laws`] does nothing; what it says is its
//! contract.
#![tactic(auto)]

pub mod laws;
