//! What each call does, on the queue or the hand itself: its contract gives the code that is answered and the state afterwards.

pub mod blocks;
pub mod carrying;
pub mod changing;
pub mod closing;
pub mod coming;
pub mod fair_arrivals;
pub mod fair_turns;
pub mod lateness;
pub mod leaving;
pub mod pulling;
pub mod reading;
pub mod shares;
pub mod times;
pub mod turns;
