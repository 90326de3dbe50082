//! Where in the text of a TOML document a key or a value stands: for what is said of a document that is refused.
//!
//! A [`Step`] leads to what stands at a key of a table or at a place of a list, and some steps, from the document on, are the way to a
//! value. [`find`] follows it through the headers, pairs and lists of the text, and tells the bytes of what it [`Found`]. What values mean
//! isn't looked at, and the text is taken to be a document: of one that is none, what is found may be anything that lies in it.
#![tactic(auto)]

mod finding;
mod pieces;
mod ways;

pub use finding::{Found, find};
pub use ways::Step;
