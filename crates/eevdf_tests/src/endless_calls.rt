//! The calls of a fleet that keeps no history, and of its seats: tables of calls in one thread, each with what comes of it and the
//! report of what the fleet is closed to, calls beyond the quota of a fleet that keeps one, and two threads.

mod cases;
mod listed;
mod looks;
mod moments;
mod no_quota;
mod two_threads;

ghost use Rattle.std.specs.Prelude.{◌≡◌};

use crate::kits::endless_kit_of;
use crate::seats::make_told_calls;
use eevdf_fleet::Names;
use eevdf_fleet::endless::{Closed, Fleet, Kit, Seat};
use eevdf_ops::Outcome;
use eevdf_report::{Form, report};
use eevdf_workload::read_workload;
use std::alloc::Global;
use std::marker::Brand;
use std::process::Abort;
use std::sync::Wait;

/// A fleet of the setup of a workload, the calls that are made one after the other, each on the seat of a CPU, with what comes of it
/// as it is printed, and the report of what the fleet is closed to.
struct Case {
    name: &'static str,
    workload: &'static [u8],
    rings: usize,
    calls: &'static [(usize, &'static str, &'static str)],
    report: &'static str,
}

/// Makes the calls of a case on a fleet of this kit, of which each is to come to what is told, and asks that what the fleet is closed to is
/// reported as is told.
fn check_case<N: Names, R: Wait + Abort>(rt: &R, alloc: Global, kit: Kit, case: &Case)
    requires { kit ≡ N.kit }
{
    let (fleet, mut seats) = Fleet::<N>::open(alloc, kit).expect(rt, "memory");
    make_told_calls(rt, alloc, &fleet, &mut seats, case.name, case.calls);
    let outcome = closed(alloc, fleet, seats).expect(rt, "outcome");
    let text = report(alloc, &outcome, Form::PLAIN).expect(rt, "memory");
    assert!(rt; text.as_slice() == case.report.as_bytes(), "{}", case.name);
}

/// Closes a fleet, where these are its seats. It has no handle `Wait`, so it compiles only as long as `close` doesn't wait.
fn closed<N: Names>(alloc: Global, fleet: Fleet<N>, seats: Vec<Seat<N>>) -> Option<Outcome> {
    if fleet.has_all_seats(&seats) {
        without_lines(alloc, fleet.close(seats))
    } else {
        None
    }
}

/// What a fleet was closed to, as an outcome that has no lines.
fn without_lines(alloc: Global, closed: Closed) -> Option<Outcome> {
    let Closed { queues, left } = closed;
    let cpus = queues.len();
    if cpus <= 64 && left.len() == cpus * cpus {
        Some(Outcome::of(Vec::new(alloc), queues, left))
    } else {
        None
    }
}

#[test]
fn seats_do_what_the_cases_tell(rt: HostRuntime) {
    for case in &cases::CASES {
        let workload = read_workload(rt.alloc(), case.workload).expect(&rt, "workload");
        let kit = endless_kit_of(&rt, rt.alloc(), workload.setup(), case.rings);
        check_case::<Brand, _>(&rt, rt.alloc(), kit, case);
    }
}
