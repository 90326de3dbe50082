//! The reader of a trace of a real machine: what `perf sched script` or `trace-cmd report` prints of the switches and the wakeups on its
//! CPUs becomes a plan, in which each task runs and sleeps as it did there. docs/phases.md has the lines that are read, and what is made of
//! them.
//!
//! [`read_trace`] goes through the text line by line. A line's event is a [`Change`] of one task or of two; what it makes of a task's
//! [`Course`], and which phases are over by it, is [`step_of`], and what is left to be added at the trace's end is [`end_of`].
#![tactic(auto)]

mod course;
mod event_text;
mod line_words;
mod priorities;
mod reading;
mod trace_fault;
mod trace_line;
mod track;
mod tracks;

pub use course::{Change, Course, End, Leaving, Standing, Step, end_of, step_of};
pub use priorities::nice_at;
pub use reading::{MOST_BYTES, read_trace};
pub use trace_fault::{Place, TraceFault, Wrong};
