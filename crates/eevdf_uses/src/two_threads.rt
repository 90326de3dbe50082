//! Two CPUs, each operated by a thread of its own. One puts a task to sleep again and again, and the other asks to wake it.

ghost use Rattle.std.specs.Prelude.{◌≡◌, not};
ghost use Rattle.eevdf_ops.specs.Setup.{homes_of, is_task};
ghost use Rattle.eevdf_fleet.specs.Fleets.{setup_of};

use eevdf_fleet::{Closed, Fleet, Kit, Names, RunFault, Seat, SeatTurn, run_turns};
use eevdf_ops::Setup;
use eevdf_queue::TaskId;
use eevdf_weight::Ns;
use std::alloc::Global;
use std::ops::ControlFlow;
use std::sync::Wait;
use std::thread::Threads;

/// In each turn a CPU runs its next task for 2 ms. CPU 0 then asks to wake the sleeper; another CPU takes such requests, and puts
/// the sleeper to sleep if it runs there.
#[derive(Drop)]
pub struct SleepAndWake {
    pub sleeper: TaskId,
}

impl SeatTurn for SleepAndWake {
    // A turn breaks where the setup doesn't have the sleeper, and nowhere else.
    ghost turn_gives = { λ it kit _ _ _ breaks.
        breaks ≡ not (is_task (homes_of (setup_of kit)) it.sleeper) };

    fn turn<N: Names, R: Wait>(
        &self,
        rt: &R,
        fleet: &Fleet<N>,
        seat: &mut Seat<N>,
        _turn: usize,
    ) -> ControlFlow<()> {
        if !fleet.has_task(self.sleeper) {
            return ControlFlow::Break(());
        }
        let _ = fleet.pick(rt, seat);
        let _ = fleet.tick(rt, seat, Ns::new(2_000_000).unwrap());
        if seat.cpu().get() == 0 {
            let _ = seat.post(self.sleeper);
        } else {
            let _ = fleet.drain(rt, seat);
            let _ = fleet.sleep(rt, seat, self.sleeper);
        }
        ControlFlow::Continue(())
    }
}

/// What three turns on each CPU come to, of which no order is fixed.
pub fn sleep_and_wake<R: Threads + Wait + Sync>(
    rt: &R,
    alloc: Global,
    setup: &Setup,
    sleeper: TaskId,
) -> Result<Closed, RunFault> {
    let kit = Kit::make(alloc, setup, 20, 3)?;
    run_turns(rt, alloc, kit, 3, &SleepAndWake { sleeper })
}
