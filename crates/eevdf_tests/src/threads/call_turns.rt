//! Turns that are calls of a seat, of fleets of both kinds.

use crate::fleet_calls::seat_call::call_on;
use eevdf_fleet::{Fleet, Names, Seat, SeatTurn, endless};
use eevdf_ops::Op;
use std::ops::ControlFlow;
use std::sync::Wait;

/// What the CPUs do in their turns.
pub trait TurnCalls {
    /// The operation at a place of a CPU's turn of a number, or `None` behind the last one.
    fn call_at(&self, cpu: u64, turn: usize, at: usize) -> Option<Op>;

    /// Whether a CPU has no turn after the one of a number.
    fn ends(&self, _cpu: u64, _turn: usize) -> bool {
        false
    }
}

/// Turns of such calls, at most `MOST_CALLS` in each.
#[derive(Drop)]
pub struct CallTurns<T: TurnCalls + Drop> {
    pub each: T,
}

const MOST_CALLS: usize = 13;

impl<T: TurnCalls + Drop> SeatTurn for CallTurns<T> {
    fn turn<N: Names, R: Wait>(
        &self,
        rt: &R,
        fleet: &Fleet<N>,
        seat: &mut Seat<N>,
        turn: usize,
    ) -> ControlFlow<()> {
        let cpu = seat.cpu().get();
        for at in 0..MOST_CALLS {
            if let Some(operation) = self.each.call_at(cpu, turn, at) {
                let _done = call_on(rt, fleet, seat, operation);
            }
        }
        if self.each.ends(cpu, turn) {
            ControlFlow::Break(())
        } else {
            ControlFlow::Continue(())
        }
    }
}

/// Without a history turns have no number: each CPU has the one of number 0.
impl<T: TurnCalls + Drop> endless::SeatTurn for CallTurns<T> {
    fn turn<N: Names, R: Wait>(
        &self,
        rt: &R,
        fleet: &endless::Fleet<N>,
        seat: &mut endless::Seat<N>,
    ) -> ControlFlow<()> {
        let cpu = seat.cpu().get();
        for at in 0..MOST_CALLS {
            if let Some(operation) = self.each.call_at(cpu, 0, at) {
                let _ = fleet.try_operate(rt, seat, operation);
            }
        }
        ControlFlow::Break(())
    }
}
