//! Threads that take turns as those of the pool of crates/eevdf_uses do, where a heavy task hides light ones from a CPU that goes by loads.

ghost use Rattle.std.specs.Prelude.{◌≡◌};

use super::one_heavy_and_three_light;
use crate::kits::endless_kit_of;
use eevdf_fleet::Names;
use eevdf_fleet::endless::{Closed, Fleet, Seat, SeatTurn, run_turns};
use eevdf_ops::Answer;
use eevdf_weight::Ns;
use std::ops::ControlFlow;
use std::sync::Wait;
use std::sync::atomic::{AtomicU64, Ordering};

/// How many turns each CPU has.
const TURNS: u64 = 200;

/// How often the threads run.
const RUNS: usize = 50;

/// A task runs for so many nanoseconds in a turn, and then goes on: none sleeps or ends.
const STEP: u64 = 1_000_000;

/// The turns of three CPUs, of which each runs a task in a turn. A CPU picks, and where there is none it looks for work and picks next.
#[derive(Drop)]
struct PoolTurns {
    taken: [AtomicU64; 3],
    /// How often a CPU that had nothing has looked for work.
    sweeps: AtomicU64,
    /// In how many turns no task ran.
    idle_turns: AtomicU64,
}

impl PoolTurns {
    fn new() -> PoolTurns {
        PoolTurns {
            taken: [AtomicU64::new(0), AtomicU64::new(0), AtomicU64::new(0)],
            sweeps: AtomicU64::new(0),
            idle_turns: AtomicU64::new(0),
        }
    }

    /// Runs a task, if there is one after at most one sweep. `None` where there is none.
    fn run_next<N: Names, R: Wait>(
        &self,
        rt: &R,
        fleet: &Fleet<N>,
        seat: &mut Seat<N>,
    ) -> Option<Answer>
        ensures { seat.new.cpu ≡ seat.old.cpu }
    {
        if !has_picked(rt, fleet, seat) {
            self.sweeps.fetch_add(1, Ordering::SeqCst);
            fleet.find_work(rt, seat)?;
            if !has_picked(rt, fleet, seat) {
                return None;
            }
        }
        Some(fleet.tick(rt, seat, Ns::new(STEP)?))
    }

    /// Whether a CPU has another turn after this one.
    fn goes_on(&self, cpu: usize) -> bool {
        match self.taken.get(cpu) {
            Some(taken) => taken.fetch_add(1, Ordering::SeqCst).saturating_add(1) < TURNS,
            None => false,
        }
    }
}

/// Whether a pick found a task.
fn has_picked<N: Names, R: Wait>(rt: &R, fleet: &Fleet<N>, seat: &mut Seat<N>) -> bool
    ensures { seat.new.cpu ≡ seat.old.cpu }
{
    matches!(fleet.pick(rt, seat), Answer::Picked(_))
}

impl SeatTurn for PoolTurns {
    fn turn<N: Names, R: Wait>(
        &self,
        rt: &R,
        fleet: &Fleet<N>,
        seat: &mut Seat<N>,
    ) -> ControlFlow<()> {
        if self.run_next(rt, fleet, seat).is_none() {
            self.idle_turns.fetch_add(1, Ordering::SeqCst);
        }
        if self.goes_on(seat.cpu().index()) {
            ControlFlow::Continue(())
        } else {
            ControlFlow::Break(())
        }
    }
}

/// How many runnable tasks each CPU has at the end.
fn tasks_at(closed: &Closed) -> [Option<usize>; 3] {
    [0, 1, 2].map(|cpu: usize| Some(closed.queues.get(cpu)?.len()))
}

/// One CPU has a heavy task, another one three light ones, and the third none. Nobody but the third pulls, since the tasks of the two neither
/// sleep nor end. So whenever its first turn comes, its first sweep finds a light task, which no CPU can pull away, and it needs no other one.
#[test]
fn each_cpu_has_work_after_one_sweep(rt: HostRuntime) {
    for run in 0..RUNS {
        let (heavy, light) = if run % 2 == 0 { (1, 0) } else { (0, 1) };
        let setup = one_heavy_and_three_light(&rt, rt.alloc(), heavy, light);
        let kit = endless_kit_of(&rt, rt.alloc(), &setup, 1);
        let turns = PoolTurns::new();
        let closed = run_turns(&rt, rt.alloc(), kit, &turns).expect(&rt, "turns");
        assert!(rt; turns.idle_turns.load(Ordering::SeqCst) == 0, "run {run}");
        assert!(rt; turns.sweeps.load(Ordering::SeqCst) == 1, "run {run}");
        let (first, second) = if heavy == 0 { (1, 2) } else { (2, 1) };
        let wanted = [Some(first), Some(second), Some(1)];
        assert!(rt; tasks_at(&closed) == wanted, "run {run}");
    }
}
