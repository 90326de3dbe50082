//! The rings by which CPUs post requests to one another: one for each pair of a sender and a home, a CPU with itself
//! too. The sender has the ends that push, one for each home, and the home those that pop, one for each sender. The first
//! item of each ring says whose home it leads to, so that a home knows of each request that it is of a task of its own.

mod consumer_ends;
mod named_ends;
mod opened_rings;
mod producer_ends;
mod request;
mod returned_ends;
mod ring_ends;

pub(crate) use consumer_ends::Consumers;
pub(crate) use opened_rings::Rings;
pub(crate) use producer_ends::Producers;
pub use producer_ends::RingFull;
pub(crate) use request::Request;
pub(crate) use returned_ends::ReturnedEnds;
