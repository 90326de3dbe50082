//! A scheduler for several threads: each CPU's run queue stands in a lock of its own. There are two fleets on one base.
//!
//! [`Fleet`] keeps a history: a journal, in a lock of its own, has the lines of what was done, in the order in which it was committed, and
//! each seat has those of its CPU. When it is closed with all its seats, its lines are the history of one thread.
//! [`endless::Fleet`] keeps none, and can run for ever. The contract of each of its calls has the answer in a history of one thread that
//! only grows, and that contracts alone see.
//!
//! A fleet is opened from a kit, with a seat for each CPU. Whoever has a CPU's seat does its operations: they take the
//! locks of the queues that they touch, in ascending order, work on these queues, and then commit their line. A request to wake a
//! task is posted to the task's home by a ring of the two CPUs, without a lock, and decided there by a drain.
//!
//! What holds across the locks is kept by a board of claims: who holds a seat, a queue or the journal has a token, which
//! takes no memory and claims what the one history has of it.
#![tactic(auto)]

mod agreement;
mod allowed_operations;
mod board;
mod call;
mod closing;
mod commit;
mod drains;
pub mod endless;
mod finding_work;
mod fleet;
mod gate;
mod journal;
mod kit;
mod kit_parts;
mod line_commits;
mod listed_drains;
mod locked_deeds;
mod locks;
mod names;
mod opening;
mod operated;
mod operations;
mod post_agreement;
mod posted;
mod program_needs;
mod program_threads;
mod reserve;
mod rings;
mod run_fault;
mod run_queues;
mod seat;
mod seat_log;
mod seat_parts;
mod seat_program;
mod seat_threads;
mod seat_turn;
mod seat_work;
mod seen;
mod slot;
mod texts;
mod try_operate;
mod turn_threads;
mod wake_list;

pub use drains::Drained;
pub use fleet::{Closed, Fleet, SeatFull};
pub use gate::{Gate, OpenGate};
pub use kit::Kit;
pub use listed_drains::ListedDrain;
pub use names::Names;
pub use operated::{Operated, Refused};
pub use program_threads::run_all;
pub use rings::RingFull;
pub use run_fault::RunFault;
pub use seat::Seat;
pub use seat_turn::SeatTurn;
pub use turn_threads::run_turns;
pub use wake_list::DrainedWake;
