ghost use Rattle.std.specs.Prelude.{◌≡◌, Bool, is_some};
ghost use Rattle.std.specs.ControlFlow.{break_value};
ghost use Rattle.eevdf_fleet.specs.{Endless.Seat, Fleets.Kit};

use crate::endless::exchange::Exchange;
use crate::endless::fleet::Fleet;
use crate::endless::seat::Seat;
use crate::endless::seat_turn::SeatTurn;
use crate::names::Names;
use std::ops::ControlFlow;
use std::sync::Wait;

/// What each thread of `run_exchange_turns` does with the seat of its CPU, as `SeatTurn`; in a turn the threads may also tell one another
/// what they have done and seen.
pub trait ExchangeTurn {
    /// What holds of a turn, as `SeatTurn::turn_gives` says it.
    ghost turn_gives: { Self → Kit → Seat → Seat → Bool → Type 0 } = { λ _ _ _ _ _. Unit {0} };

    /// Does a turn: any operations of the seat. `Break` ends the thread, so that its CPU has no further turn; after `Continue` comes
    /// the next. The seat stays that of its CPU, and the turn is as `turn_gives` says. One that waits for another CPU has to break where
    /// `Fleet::thread_was_refused` is `true`.
    fn turn<N: Names, R: Wait>(
        &self,
        rt: &R,
        fleet: &Fleet<N>,
        seat: &mut Seat<N>,
        exchange: &Exchange<N>,
    ) -> ControlFlow<()>
        ensures cpu { seat.new.cpu ≡ seat.old.cpu }
        ensures gives { turn_gives self.now N.kit seat.old seat.new (is_some (break_value result)) };
}

/// Turns that exchange nothing.
#[derive(Drop)]
pub(super) struct Alone<'a, T> {
    pub(super) each: &'a T,
}

impl<'a, T: SeatTurn> ExchangeTurn for Alone<'a, T> {
    ghost turn_gives = { λ alone kit before after breaks. T.turn_gives alone.each.now kit before after breaks };

    #[inline(always)]
    fn turn<N: Names, R: Wait>(
        &self,
        rt: &R,
        fleet: &Fleet<N>,
        seat: &mut Seat<N>,
        _exchange: &Exchange<N>,
    ) -> ControlFlow<()> {
        self.each.turn(rt, fleet, seat)
    }
}
