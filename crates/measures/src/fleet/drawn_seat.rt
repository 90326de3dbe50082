//! A seat of a fleet of either kind, with a history or without.

use eevdf_fleet::{Fleet, Names, Operated, Refused, Seat, endless};
use eevdf_ops::{CpuId, Op};
use std::sync::Wait;

/// A seat that does drawn operations.
pub trait DrawnSeat {
    /// The fleet that the seat is of.
    type Fleet;

    /// The seat's CPU.
    fn own_cpu(&self) -> CpuId;

    /// Does an operation of the seat's CPU.
    fn operate<R: Wait>(
        &mut self,
        rt: &R,
        fleet: &Self::Fleet,
        operation: Op,
    ) -> Result<Operated, Refused>;
}

impl<N: Names> DrawnSeat for Seat<N> {
    type Fleet = Fleet<N>;

    #[inline(always)]
    fn own_cpu(&self) -> CpuId {
        self.cpu()
    }

    #[inline(always)]
    fn operate<R: Wait>(
        &mut self,
        rt: &R,
        fleet: &Fleet<N>,
        operation: Op,
    ) -> Result<Operated, Refused> {
        fleet.try_operate(rt, self, operation)
    }
}

impl<N: Names> DrawnSeat for endless::Seat<N> {
    type Fleet = endless::Fleet<N>;

    #[inline(always)]
    fn own_cpu(&self) -> CpuId {
        self.cpu()
    }

    #[inline(always)]
    fn operate<R: Wait>(
        &mut self,
        rt: &R,
        fleet: &endless::Fleet<N>,
        operation: Op,
    ) -> Result<Operated, Refused> {
        fleet.try_operate(rt, self, operation)
    }
}
