ghost use Rattle.std.specs.Prelude.{◌≡◌};

use crate::fair_seats::rounds::run_rounds;
use eevdf_fleet::Names;
use eevdf_fleet::endless::{Fleet, Seat, SeatTurn};
use eevdf_ops::CpuId;
use eevdf_weight::{Nice, Ns};
use std::alloc::{AllocError, Global};
use std::ops::ControlFlow;
use std::sync::Wait;
use std::sync::atomic::{AtomicU64, Ordering};

/// How many rounds each CPU runs, and what comes of them.
#[derive(Drop)]
pub struct SeatRounds {
    rounds: u64,
    /// By how much a request of each CPU can be late, in virtual time, once its thread has ended.
    bounds: Vec<AtomicU64>,
}

impl SeatRounds {
    /// So many rounds for each of two CPUs.
    pub fn new(alloc: Global, rounds: u64) -> Result<SeatRounds, AllocError> {
        let mut bounds = Vec::new(alloc);
        for _cpu in 0..2 {
            bounds.push(AtomicU64::new(0))?;
        }
        Ok(SeatRounds { rounds, bounds })
    }

    /// What was answered of each CPU.
    pub fn bound(&self, cpu: usize) -> Option<u64> {
        Some(self.bounds.get(cpu)?.load(Ordering::SeqCst))
    }
}

impl SeatTurn for SeatRounds {
    fn turn<N: Names, R: Wait>(
        &self,
        rt: &R,
        fleet: &Fleet<N>,
        seat: &mut Seat<N>,
    ) -> ControlFlow<()> {
        let cpu = seat.cpu();
        let lightest = Nice::new(5).unwrap();
        let bound = run_rounds(rt, fleet, seat, self.rounds, tick_of(cpu), lightest);
        if let Some(place) = self.bounds.get(cpu.index())
            && let Some(bound) = bound
        {
            place.store(u64::try_from(bound).unwrap_or(u64::MAX), Ordering::SeqCst);
        }
        ControlFlow::Break(())
    }
}

/// The length of a CPU's ticks.
fn tick_of(cpu: CpuId) -> Ns {
    if cpu.get() == 0 {
        Ns::new(1_000_000).unwrap()
    } else {
        Ns::new(2_000_000).unwrap()
    }
}
