//! The trace of a schedule, as Trace Event JSON: a track for each CPU and for each task, and counters of loads and lags.
//!
//! `trace_of` gathers all that happens in the time that is drawn, sorts it by time, and writes it event by event (event.rt): the names of
//! tracks (names.rt), slices and arrows (slices.rt), and counters (counters.rt).
#![tactic(auto)]

mod counters;
mod event;
mod names;
mod slices;
mod trace;

pub use trace::trace_of;
