//! Values that follow from a seed, the same at each run: numbers, tasks, nice levels, slices and times for the program that
//! measures a fleet, and for tests; and the words that a program which measures is given.
#![tactic(auto)]

mod draws;
mod words;

pub use draws::Draws;
pub use words::{count_of, words_of};
