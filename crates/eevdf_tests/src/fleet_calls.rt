//! The calls of a fleet and of its seats: tables of calls in one thread, each with what comes of it and the report of the
//! outcome, and a test of two threads.

mod cases;
mod limits;
pub mod seat_call;
mod two_threads;

ghost use Rattle.std.specs.Prelude.{◌≡◌};

use crate::kits::kit_of;
use crate::operation_texts::calls_of;
use eevdf_fleet::{Fleet, Kit, Names, Seat};
use eevdf_ops::{Op, Outcome};
use eevdf_report::{Form, report};
use eevdf_workload::read_workload;
use seat_call::{Done, call_on};
use std::alloc::Global;
use std::marker::Brand;
use std::process::Abort;
use std::sync::Wait;

/// A fleet of the setup of a workload, the calls that are made one after the other, each on the seat of a CPU, and what the
/// report of the outcome is, with its history.
struct Case {
    name: &'static str,
    workload: &'static [u8],
    quota: usize,
    rings: usize,
    calls: &'static [(usize, &'static str, Done)],
    report: &'static str,
}

/// Makes the calls, up to the first of which something else comes than is told, and says whether there is none.
fn make_calls<N: Names, R: Wait>(
    rt: &R,
    fleet: &Fleet<N>,
    seats: &mut [Seat<N>],
    calls: &[(usize, Op, Done)],
) -> bool {
    for (cpu, operation, done) in calls {
        let Some(seat) = seats.get_mut(*cpu) else {
            return false;
        };
        if call_on(rt, fleet, seat, *operation) != Some(*done) {
            return false;
        }
    }
    true
}

/// What a fleet comes to by these calls, where each comes to what is told.
fn outcome_of<N: Names, R: Wait + Abort>(
    rt: &R,
    alloc: Global,
    kit: Kit,
    calls: &[(usize, Op, Done)],
) -> Option<Outcome>
    requires { kit ≡ N.kit }
{
    let (fleet, mut seats) = Fleet::<N>::open(alloc, kit).expect(rt, "memory");
    if make_calls(rt, &fleet, &mut seats, calls) {
        closed(fleet, seats)
    } else {
        None
    }
}

/// Closes a fleet, where these are its seats. It has no handle `Wait`, so it compiles only as long as `close` doesn't wait.
fn closed<N: Names>(fleet: Fleet<N>, seats: Vec<Seat<N>>) -> Option<Outcome> {
    if fleet.has_all_seats(&seats) {
        Some(fleet.close(seats))
    } else {
        None
    }
}

/// The same of a fleet of the setup of a workload.
fn outcome_of_calls<R: Wait + Abort>(
    rt: &R,
    alloc: Global,
    workload: &[u8],
    quota: usize,
    rings: usize,
    calls: &[(usize, Op, Done)],
) -> Option<Outcome> {
    let workload = read_workload(alloc, workload).expect(rt, "workload");
    let kit = kit_of(rt, alloc, workload.setup(), quota, rings);
    outcome_of::<Brand, _>(rt, alloc, kit, calls)
}

/// Whether a case comes to what it tells.
fn holds<R: Wait + Abort>(rt: &R, alloc: Global, case: &Case) -> Option<bool> {
    let calls = calls_of(rt, alloc, case.calls);
    let outcome = outcome_of_calls(rt, alloc, case.workload, case.quota, case.rings, &calls)?;
    Some(is_reported(rt, alloc, &outcome, case.report))
}

/// Whether this is the report of an outcome, with its history.
fn is_reported(rt: &impl Abort, alloc: Global, outcome: &Outcome, text: &str) -> bool {
    let printed = report(alloc, outcome, Form::WITH_HISTORY).expect(rt, "memory");
    printed.as_slice() == text.as_bytes()
}

#[test]
fn seats_do_what_the_cases_tell(rt: HostRuntime) {
    for case in &cases::CASES {
        assert!(rt; holds(&rt, rt.alloc(), case) == Some(true), "{}", case.name);
    }
}
