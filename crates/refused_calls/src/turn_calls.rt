//! A fleet whose seats have a thread each, which does turns of its own.

use crate::called::{called, say};
use crate::stopped::Stopped;
use crate::text_calls::say_report;
use eevdf_bench::Form;
use eevdf_fleet::{Closed, Fleet, Kit, Names, RunFault, Seat, SeatTurn, run_turns};
use eevdf_ops::Setup;
use eevdf_weight::Ns;
use std::alloc::{AllocError, Global};
use std::ops::ControlFlow;
use std::sync::Wait;
use std::thread::Threads;

/// In each turn a CPU runs its next task for a while. It leaves the other CPUs alone, so that they all come to the same
/// report whichever thread comes first.
#[derive(Drop)]
struct OwnQueue {
    ns: Ns,
}

const TURNS: usize = 3;

impl SeatTurn for OwnQueue {
    fn turn<N: Names, R: Wait>(
        &self,
        rt: &R,
        fleet: &Fleet<N>,
        seat: &mut Seat<N>,
        _turn: usize,
    ) -> ControlFlow<()> {
        let _ = fleet.pick(rt, seat);
        let _ = fleet.tick(rt, seat, self.ns);
        ControlFlow::Continue(())
    }
}

/// Opens a fleet, has its seats do their turns by threads, and closes it. Where that was refused, the kit is lost, and another
/// is made.
pub fn turn_calls<R: Print + Threads + Wait + Sync>(
    rt: &R,
    alloc: Global,
    setup: &Setup,
) -> Result<(), Stopped> {
    let kit = called!(rt, "Kit::make", Err(_), kit_of(alloc, setup))?;
    say(rt, "== run_turns");
    let closed = match turns(rt, alloc, kit) {
        Ok(closed) => closed,
        Err(_) => {
            say(rt, "-- refused");
            turns(rt, alloc, kit_of(alloc, setup)?).map_err(|_| Stopped)?
        }
    };
    say_report(rt, alloc, &closed, Form::PLAIN)
}

/// A kit of the setup with room for the turns.
fn kit_of(alloc: Global, setup: &Setup) -> Result<Kit, AllocError> {
    Kit::make(alloc, setup, 2 * TURNS, 0)
}

fn turns<R: Threads + Wait + Sync>(rt: &R, alloc: Global, kit: Kit) -> Result<Closed, RunFault> {
    let ns = Ns::new(2_000_000).unwrap();
    run_turns(rt, alloc, kit, TURNS, &OwnQueue { ns })
}
