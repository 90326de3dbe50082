//! A seat that goes on beyond the lines that a fleet with a history may keep, and a ring that goes on beyond its room.

ghost use Rattle.std.specs.Prelude.{◌≡◌};
ghost use Rattle.eevdf_fleet.specs.Fleets.{setup_of};

use crate::fixtures::{one_task_each, task};
use crate::kits::endless_kit_of;
use eevdf_fleet::endless::{Fleet, Kit, Seat};
use eevdf_fleet::{Drained, Names};
use eevdf_ops::{Answer, CpuId, Op};
use eevdf_queue::TaskId;
use std::alloc::Global;
use std::marker::Brand;
use std::process::Abort;
use std::sync::Wait;

/// More than the lines that a seat with a quota may have, and than the requests that a ring may have room for.
const TIMES: usize = 1_000_001;

/// Whether a pick, a post to the seat's own CPU and a drain succeed again and again, in a ring with room for one request.
fn goes_on<N: Names, R: Wait>(rt: &R, fleet: &Fleet<N>, seat: &mut Seat<N>, own: TaskId) -> bool {
    let awake = Drained { taken: 1, woken: 0 };
    for _time in 0..TIMES {
        if fleet.pick(rt, seat) != Answer::Picked(own)
            || fleet.try_operate(rt, seat, Op::Post(own)).is_err()
            || fleet.drain(rt, seat) != awake
        {
            return false;
        }
    }
    true
}

/// Whether a seat of a fleet of one CPU and one task goes on.
fn seat_goes_on<N: Names, R: Wait + Abort>(rt: &R, alloc: Global, kit: Kit) -> bool
    requires { kit ≡ N.kit }
{
    let (fleet, mut seats) = Fleet::<N>::open(alloc, kit).expect(rt, "memory");
    let mut seat = seats.pop().expect(rt, "seat");
    goes_on(rt, &fleet, &mut seat, task(rt, 0))
}

#[test]
fn a_seat_goes_on_without_a_quota(rt: HostRuntime) {
    let setup = one_task_each(&rt, rt.alloc(), 1);
    let kit = endless_kit_of(&rt, rt.alloc(), &setup, 1);
    assert!(rt; seat_goes_on::<Brand, _>(&rt, rt.alloc(), kit));
}

/// How many places a seat knows to be free in its ring to a CPU.
fn free<N: Names>(fleet: &Fleet<N>, seat: &mut Seat<N>, home: CpuId) -> Option<usize> {
    if fleet.has_cpu(home) {
        Some(seat.free(home))
    } else {
        None
    }
}

/// Asks that a ring of one CPU with room for two requests has so many free places as posts and drains leave.
fn places_come_back<N: Names, R: Wait + Abort>(rt: &R, alloc: Global, kit: Kit)
    requires { kit ≡ N.kit }
{
    let (fleet, mut seats) = Fleet::<N>::open(alloc, kit).expect(rt, "memory");
    let task = task(rt, 0);
    let mut seat = seats.pop().expect(rt, "seat");
    let home = seat.cpu();
    assert!(rt; free(&fleet, &mut seat, home) == Some(2));
    assert!(rt; fleet.try_operate(rt, &mut seat, Op::Post(task)).is_ok());
    assert!(rt; free(&fleet, &mut seat, home) == Some(1));
    assert!(rt; fleet.try_operate(rt, &mut seat, Op::Post(task)).is_ok());
    assert!(rt; free(&fleet, &mut seat, home) == Some(0));
    assert!(rt; fleet.try_operate(rt, &mut seat, Op::Post(task)).is_err());
    assert!(rt; fleet.drain(rt, &mut seat).taken == 1);
    assert!(rt; free(&fleet, &mut seat, home) == Some(1));
}

#[test]
fn places_of_a_ring_come_back(rt: HostRuntime) {
    let setup = one_task_each(&rt, rt.alloc(), 1);
    let kit = endless_kit_of(&rt, rt.alloc(), &setup, 2);
    places_come_back::<Brand, _>(&rt, rt.alloc(), kit);
}
