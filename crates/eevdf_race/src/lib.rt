//! The race of an order's callers, as SVG: each step at its place of the order, above the history of the one thread that it equals.
//!
//! `race_of` plays the order once more, and notes who does which step where (steps.rt). Each caller has a row of steps (rows.rt), in a
//! frame with an axis of places (frame.rt), and an arrow leads from each step that adds a line to that line below (history.rt).
#![tactic(auto)]

mod frame;
mod history;
mod race;
mod rows;
mod steps;

pub use race::race_of;
