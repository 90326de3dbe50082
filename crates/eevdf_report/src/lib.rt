//! The report of an outcome: each CPU's schedule, its queue and the requests that were left to it, with times where those are
//! wanted, and the history as a script where that is.
//!
//! A text is pushed onto a vector of bytes, one kind of line by one function. The lines of the history, of which there
//! are the most, are written into a `BlockText` first, which is pushed whole.
#![tactic(auto)]

mod block_text;
mod form;
mod schedules;
mod text_blocks;
mod text_deeds;
mod text_lines;
mod text_numbers;
mod text_queue;
mod text_report;
mod text_tasks;
mod text_times;
mod timed_report;

pub use form::Form;
pub use text_report::report;
