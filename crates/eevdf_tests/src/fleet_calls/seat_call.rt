//! A call of a seat, and what comes of it.

ghost use Rattle.std.specs.Prelude.{◌≡◌};

use eevdf_fleet::{Drained, Fleet, Names, Operated, Refused, Seat};
use eevdf_ops::Op;
use std::sync::Wait;

/// What comes of a call. The answer in a line is told by the report.
#[derive(Clone, Copy, PartialEq, Eq)]
pub enum Done {
    Line,
    Drained { taken: usize, woken: usize },
    Posted,
    SeatFull,
    RingFull,
}

/// Makes a call. `None` where the setup hasn't the task or the CPU.
pub fn call_on<N: Names, R: Wait>(
    rt: &R,
    fleet: &Fleet<N>,
    seat: &mut Seat<N>,
    operation: Op,
) -> Option<Done>
    ensures { seat.new.cpu ≡ seat.old.cpu }
{
    match fleet.try_operate(rt, seat, operation) {
        Ok(Operated::Answer(_)) => Some(Done::Line),
        Ok(Operated::Posted) => Some(Done::Posted),
        Ok(Operated::Drained(Drained { taken, woken })) => Some(Done::Drained { taken, woken }),
        Err(Refused::SeatFull) => Some(Done::SeatFull),
        Err(Refused::RingFull(_)) => Some(Done::RingFull),
        Err(_) => None,
    }
}
