//! CPUs that wait for one another: each comes to a barrier, and none goes on before all have come. Where the system refuses a thread its CPU
//! never comes, and those that wait learn it from the fleet.

use crate::machines::{empty_programs, task_at};
use eevdf_fleet::{Fleet, Kit, Names, RunFault, Seat, SeatTurn, endless, run_turns};
use eevdf_ops::{CpuId, Setup, SetupFault};
use std::alloc::Global;
use std::ops::ControlFlow;
use std::sync::Wait;
use std::sync::atomic::{AtomicU64, Ordering};
use std::thread;
use std::thread::Threads;

/// A barrier to which so many CPUs come one after the other.
#[derive(Drop)]
struct Barrier {
    cpus: u64,
    come: AtomicU64,
}

impl Barrier {
    fn new(setup: &Setup) -> Barrier {
        Barrier {
            cpus: setup.cpus() as u64,
            come: AtomicU64::new(0),
        }
    }

    /// A turn of a CPU: it comes when those before it have come, and goes when all have, or when one of them never will.
    fn turn_of(&self, cpu: CpuId, thread_was_refused: bool) -> ControlFlow<()> {
        if self.come.load(Ordering::SeqCst) == cpu.get() {
            self.come.store(cpu.get() + 1, Ordering::SeqCst);
        }
        if self.come.load(Ordering::SeqCst) == self.cpus || thread_was_refused {
            return ControlFlow::Break(());
        }
        thread::yield_now();
        ControlFlow::Continue(())
    }

    /// How many CPUs have come.
    fn come(self) -> u64 {
        self.come.into_inner()
    }
}

impl SeatTurn for Barrier {
    fn turn<N: Names, R: Wait>(
        &self,
        _rt: &R,
        fleet: &Fleet<N>,
        seat: &mut Seat<N>,
        _turn: usize,
    ) -> ControlFlow<()> {
        self.turn_of(seat.cpu(), fleet.thread_was_refused())
    }
}

impl endless::SeatTurn for Barrier {
    fn turn<N: Names, R: Wait>(
        &self,
        _rt: &R,
        fleet: &endless::Fleet<N>,
        seat: &mut endless::Seat<N>,
    ) -> ControlFlow<()> {
        self.turn_of(seat.cpu(), fleet.thread_was_refused())
    }
}

/// How many CPUs of a fleet with a history have met.
pub fn met_with_history<R: Threads + Wait + Sync>(
    rt: &R,
    alloc: Global,
    setup: &Setup,
) -> Result<u64, RunFault> {
    let kit = Kit::make(alloc, setup, 0, 0)?;
    let barrier = Barrier::new(setup);
    let _ = run_turns(rt, alloc, kit, usize::MAX, &barrier)?;
    Ok(barrier.come())
}

/// How many CPUs of a fleet without a history have met.
pub fn met_without_history<R: Threads + Wait + Sync>(
    rt: &R,
    alloc: Global,
    setup: &Setup,
) -> Result<u64, RunFault> {
    let kit = endless::Kit::make(alloc, setup, 0)?;
    let barrier = Barrier::new(setup);
    let _ = endless::run_turns(rt, alloc, kit, &barrier)?;
    Ok(barrier.come())
}

/// So many CPUs, and a task at the first.
pub fn cpus_with_a_task(alloc: Global, cpus: usize) -> Result<Setup, SetupFault> {
    let programs = empty_programs(alloc, cpus)?;
    let task = task_at(CpuId::new(0).unwrap(), false);
    Setup::make(alloc, &[task], &programs)
}
