//! The page of a schedule, as HTML: the picture, the table and the figures, with a script that tells what the pointer is at.
//!
//! The script (script.rt) has what it tells from the data of the stretches (details.rt, data.rt), which stand in the page as JSON. A text
//! from elsewhere, as the name of a file, goes through escape.rt, so that nothing of it is taken for a tag.
#![tactic(auto)]

mod data;
mod details;
mod escape;
mod head;
mod notes;
mod page;
mod script;
mod table;

pub use page::page_of;
