ghost use Rattle.std.specs.Prelude.{◌≡◌, Bool, is_some};
ghost use Rattle.std.specs.ControlFlow.{break_value};
ghost use Rattle.eevdf_fleet.specs.{Endless.Seat, Fleets.Kit};

use crate::endless::fleet::Fleet;
use crate::endless::seat::Seat;
use crate::names::Names;
use std::ops::ControlFlow;
use std::sync::Wait;

/// What each thread of `run_turns` does with the seat of its CPU, one turn after the other, without end. The threads share the value,
/// and each finds by its seat which CPU it has.
pub trait SeatTurn {
    /// What holds of a turn, by the kit that the fleet was opened from, the seat before it, the seat after it, and whether it is
    /// `Break`. `run_turns` says it of each turn that was done. An impl that leaves it out says nothing of its turns.
    ghost turn_gives: { Self → Kit → Seat → Seat → Bool → Type 0 } = { λ _ _ _ _ _. Unit {0} };

    /// Does a turn: any operations of the seat. `Break` ends the thread, so that its CPU has no further turn; after `Continue` comes
    /// the next. The seat stays that of its CPU, and the turn is as `turn_gives` says. One that waits for another CPU has to break where
    /// `Fleet::thread_was_refused` is `true`.
    fn turn<N: Names, R: Wait>(
        &self,
        rt: &R,
        fleet: &Fleet<N>,
        seat: &mut Seat<N>,
    ) -> ControlFlow<()>
        ensures cpu { seat.new.cpu ≡ seat.old.cpu }
        ensures gives { turn_gives self.now N.kit seat.old seat.new (is_some (break_value result)) };
}
