//! A fleet that keeps no history, so that it can run for ever: it takes no memory after it was opened, and refuses nothing for want of
//! room. What a closed fleet's lines show, each call says by itself: its answer is the one-thread scheduler's, in a history that
//! only grows, in which the seat's CPU has the lines of its calls and no other.

mod closed;
mod exchange;
mod exchange_turn;
mod finding_work;
mod fleet;
mod kit;
mod looking;
mod seat;
mod seat_turn;
mod seen_line;
mod try_operate;
mod turn_threads;

pub use crate::posted::Posted;
pub use crate::seen::Seen;
pub use closed::Closed;
pub use exchange::Exchange;
pub use exchange_turn::ExchangeTurn;
pub use fleet::Fleet;
pub use kit::Kit;
pub use seat::Seat;
pub use seat_turn::SeatTurn;
pub use seen_line::SeenLine;
pub use turn_threads::{run_exchange_turns, run_turns};
