//! Two threads operate a fleet at the same time, each by a seat of its own.

ghost use Rattle.std.specs.Prelude.{◌≡◌, IfSome, true};
ghost use Rattle.std.specs.List.{list_all};
ghost use Rattle.eevdf_fleet.specs.Fleets.{setup_of};
ghost use Rattle.eevdf_ops.specs.Programs.{deeds_of};
ghost use Rattle.eevdf_ops.specs.Setup.{allows};

use super::seat_call::call_on;
use crate::fixtures::{give_back, take_pair};
use crate::kits::kit_of;
use crate::one_thread_again::done_alone;
use crate::same_end::end_alike;
use eevdf_fleet::{Fleet, Kit, Names, Seat};
use eevdf_ops::{CpuId, Op, Outcome, Setup};
use eevdf_weight::Ns;
use eevdf_workload::read_workload;
use std::alloc::Global;
use std::marker::Brand;
use std::process::Abort;
use std::sync::Wait;
use std::thread::{Threads, join};

/// A pick, a tick and a pull in turn.
fn operation_at(number: usize, other: u64) -> Option<Op> {
    Some(match number % 3 {
        0 => Op::Pick,
        1 => Op::Tick(Ns::new(1_000)?),
        _ => Op::Pull(CpuId::new(other)?),
    })
}

/// A hundred such operations on one seat.
fn operate<N: Names, R: Wait>(rt: &R, fleet: &Fleet<N>, mut seat: Seat<N>, other: u64) -> Seat<N> {
    for number in 0..100usize {
        if let Some(operation) = operation_at(number, other) {
            let _done = call_on(rt, fleet, &mut seat, operation);
        }
    }
    seat
}

/// What a fleet comes to by two threads.
fn two_operate<N: Names + Send + Sync, R: Threads + Wait + Abort + Sync>(
    rt: &R,
    alloc: Global,
    setup: &Setup,
    kit: Kit,
) -> Option<Outcome>
    requires kit { kit ≡ N.kit }
    requires setup { setup_of kit ≡ setup.now }
    ensures allowed { IfSome result
        (λ outcome. list_all (allows setup.now) (deeds_of outcome.lines) ≡ true) }
{
    let (fleet, mut seats) = Fleet::<N>::open(alloc, kit).expect(rt, "memory");
    let (zero, one) = take_pair(rt, &mut seats);
    let shared = &fleet;
    let (zero, one) = join(
        rt,
        move || operate(rt, shared, zero, 1),
        move || operate(rt, shared, one, 0),
    );
    give_back(rt, &mut seats, (zero, one));
    if fleet.has_all_seats(&seats) {
        Some(fleet.close(seats))
    } else {
        None
    }
}

/// Two CPUs with four tasks of CPU 0.
const FOUR_TASKS: &[u8] =
    b"version = 1\nprogram = [[], []]\n[[task]]\n[[task]]\n[[task]]\n[[task]]\n";

/// What two threads do is what one thread does that goes by their history.
#[test]
fn two_threads_operate(rt: HostRuntime) {
    let workload = read_workload(rt.alloc(), FOUR_TASKS).expect(&rt, "workload");
    let setup = workload.setup();
    let kit = kit_of(&rt, rt.alloc(), setup, 100, 1);
    let outcome = two_operate::<Brand, _>(&rt, rt.alloc(), setup, kit).expect(&rt, "outcome");
    assert!(rt; outcome.history().len() == 200);
    is_of_one_thread(&rt, rt.alloc(), setup, &outcome);
}

/// Asks that one thread comes to this outcome that does the deeds of its lines.
fn is_of_one_thread(rt: &impl Abort, alloc: Global, setup: &Setup, outcome: &Outcome)
    requires { list_all (allows setup.now) (deeds_of outcome.now.lines) ≡ true }
{
    let alone = done_alone(rt, alloc, setup, outcome);
    assert!(rt; alone.history() == outcome.history());
    assert!(rt; end_alike(&alone, outcome, 4));
}
