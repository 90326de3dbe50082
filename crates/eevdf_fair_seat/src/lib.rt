//! How late the requests of one CPU of a fleet can be, from what its thread keeps beside its seat.
//!
//! The laws of eevdf_dozes say how late a request can be on one CPU of a machine, whatever deeds all CPUs do, by the longest turn of that
//! CPU. A thread that operates a CPU's seat decides all its turns, so it knows the longest one: a [`SeatBound`] has it, where the thread
//! hands over each deed that it has done there. Two words beside a seat, and no look at a queue, at a history or at another CPU.
#![tactic(auto)]

mod seat_bound;

pub use seat_bound::SeatBound;
