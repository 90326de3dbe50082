//! The figures of a schedule: what each task and each CPU came to, as text in columns or as JSON.
//!
//! `Counts` is an observer of a history that is done once more: it counts each deed as far as it is in the time that is counted, and looks
//! at the queues for what no line says: lags, shares (service.rt), and how late requests were beside how late they could be (lateness.rt).
//! `figures_of` makes rows of what was counted, and `table_of`, `html_of` and `json_of` write these.
#![tactic(auto)]

mod counted;
mod counts;
mod deeds;
mod lateness;
mod rows;
mod service;
mod table;
mod virtual_times;
mod waits;

pub use counts::Counts;
pub use rows::{Figures, figures_of};
pub use table::{html_of, json_of, table_of};
