ghost use Rattle.std.specs.Prelude.{◌≡◌, ℕ, Bool, is_some};
ghost use Rattle.std.specs.ControlFlow.{break_value};
ghost use Rattle.eevdf_fleet.specs.Fleets.{Kit, Seat};

use crate::fleet::Fleet;
use crate::names::Names;
use crate::seat::Seat;
use std::ops::ControlFlow;
use std::sync::Wait;

/// What each thread of `run_turns` does with the seat of its CPU, one turn after the other. The threads share the value, and each
/// finds by its seat which CPU it has, what was answered before, and how much room is left.
pub trait SeatTurn {
    /// What holds of a turn, by the kit that the fleet was opened from, the number of the turn, the seat before it, the seat after
    /// it, and whether it is `Break`. `run_turns` says it of each turn that was done. An impl that leaves it out says nothing of
    /// its turns.
    ghost turn_gives: { Self → Kit → ℕ → Seat → Seat → Bool → Type 0 } = { λ _ _ _ _ _ _. Unit {0} };

    /// Does the turn of this number, from 0 on: any operations of the seat. `Break` ends the thread, so that its CPU has no
    /// further turn; `Continue` goes on to the next turn, if there is one. The seat stays that of its CPU, and the turn is as
    /// `turn_gives` says. One that waits for another CPU has to break where `Fleet::thread_was_refused` is `true`.
    fn turn<N: Names, R: Wait>(
        &self,
        rt: &R,
        fleet: &Fleet<N>,
        seat: &mut Seat<N>,
        turn: usize,
    ) -> ControlFlow<()>
        ensures cpu { seat.new.cpu ≡ seat.old.cpu }
        ensures gives { turn_gives self.now N.kit turn seat.old seat.new
            (is_some (break_value result)) };
}
