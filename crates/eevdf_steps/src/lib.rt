//! The scheduler of many callers, each with a program of operations, played step by step in any order.
//!
//! An operation is a list of micro-steps: locks of CPUs are acquired and released, a task is taken out of one
//! queue and put into another, a request is posted, taken and settled, a deed is committed to the history. A
//! player does the next micro-step of whichever caller it is told, if that caller may do it.
#![tactic(auto)]

mod callers;
mod hand;
mod journal;
pub mod laws;
mod lists_of_steps;
mod micro;
mod openings;
mod place;
mod plan;
mod play_fault;
mod played_order;
mod player;
mod post_list;
mod requests;
mod step_fault;
mod texts;
mod work;
mod work_steps;

pub use micro::Micro;
pub use place::Place;
pub use play_fault::PlayFault;
pub use played_order::{MOST_PLACES, play};
pub use player::Player;
pub use step_fault::StepFault;
