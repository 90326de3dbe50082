//! A fleet, whose seats one thread has, and a run of programs by threads.

ghost use Rattle.std.specs.Prelude.{◌≡◌, IfOk};
ghost use Rattle.eevdf_fleet.specs.Fleets.{setup_of};

use crate::called::{called, say};
use crate::fleet_operations::operate;
use crate::stopped::Stopped;
use crate::text_calls::say_outcome;
use eevdf_fleet::{Fleet, Kit, Names, OpenGate, RunFault, run_all};
use eevdf_ops::{Outcome, Setup};
use std::alloc::{AllocError, Global};
use std::marker::Brand;
use std::sync::Wait;
use std::thread::Threads;

/// The programs of the setup, run by threads.
pub fn run_calls<R: Print + Threads + Wait + Sync>(
    rt: &R,
    alloc: Global,
    setup: &Setup,
) -> Result<(), Stopped> {
    let ran = called!(
        rt,
        "run_all",
        Err(RunFault::Memory | RunFault::Start),
        run_all(rt, alloc, setup, &OpenGate)
    );
    match ran {
        Ok(outcome) => say_outcome(rt, alloc, &outcome),
        Err(_) => Err(Stopped),
    }
}

/// Opens a fleet, does each kind of operation and the programs' on its seats, and closes it. Where opening it was refused,
/// the kit is lost, and another is made.
pub fn fleet_calls<R: Print + Wait>(rt: &R, alloc: Global, setup: &Setup) -> Result<(), Stopped> {
    let kit = called!(rt, "Kit::make", Err(_), kit(alloc, setup))?;
    say(rt, "== Fleet::open");
    let outcome = match closed::<Brand, R>(rt, alloc, setup, kit) {
        Ok(outcome) => outcome,
        Err(_) => {
            say(rt, "-- refused");
            closed_of(rt, alloc, setup)?
        }
    };
    say_outcome(rt, alloc, &outcome)
}

/// A kit of the setup with so little room that a second post is refused, and some operations of a long program are too.
fn kit(alloc: Global, setup: &Setup) -> Result<Kit, AllocError>
    ensures { IfOk result (λ k. setup_of k ≡ setup.now) }
{
    Kit::make(alloc, setup, 15, 1)
}

fn closed_of<R: Print + Wait>(rt: &R, alloc: Global, setup: &Setup) -> Result<Outcome, AllocError> {
    let kit = kit(alloc, setup)?;
    closed::<Brand, R>(rt, alloc, setup, kit)
}

/// What the fleet of a kit is closed to after the operations.
fn closed<N: Names, R: Print + Wait>(
    rt: &R,
    alloc: Global,
    setup: &Setup,
    kit: Kit,
) -> Result<Outcome, AllocError>
    requires kit { kit ≡ N.kit }
    requires setup { setup_of kit ≡ setup.now }
{
    let (fleet, mut seats) = Fleet::<N>::open(alloc, kit)?;
    say(rt, "-- opened");
    for seat in seats.iter_mut() {
        operate(rt, &fleet, setup, seat);
    }
    if !fleet.has_all_seats(&seats) {
        return Err(AllocError);
    }
    let outcome = fleet.close(seats);
    say(rt, "-- closed");
    Ok(outcome)
}
