//! The calls of a fleet that keeps its history.

ghost use Rattle.std.specs.Prelude.{◌≡◌};

use super::cases::CASES;
use super::{Case, stands_in, three_tasks};
use crate::fixtures::{cpu, task};
use crate::kits::kit_of;
use crate::operation_texts::operations_at;
use crate::seats::{CallingSeat, make_told_calls};
use eevdf_fleet::{Fleet, Kit, Names, Refused};
use std::alloc::Global;
use std::marker::Brand;
use std::process::Abort;
use std::sync::Wait;

/// Makes the calls of a case on a fleet of this kit, and closes it.
fn make_calls<N: Names, R: Wait + Abort>(rt: &R, alloc: Global, kit: Kit, case: &Case)
    requires { kit ≡ N.kit }
{
    let (fleet, mut seats) = Fleet::<N>::open(alloc, kit).expect(rt, "memory");
    make_told_calls(rt, alloc, &fleet, &mut seats, case.name, case.calls);
    assert!(rt; fleet.has_all_seats(&seats));
    let closed = fleet.close(seats);
    for (cpu, wanted) in case.queues.iter().enumerate() {
        assert!(rt;
            cpu < closed.cpus() && stands_in(rt, closed.queue(cpu)) == *wanted,
            "{}: CPU {cpu}",
            case.name
        );
    }
}

#[test]
fn tasks_come_and_go(rt: HostRuntime) {
    let setup = three_tasks(&rt, rt.alloc());
    for case in &CASES {
        let kit = kit_of(&rt, rt.alloc(), &setup, 20, 1);
        make_calls::<Brand, _>(&rt, rt.alloc(), kit, case);
    }
}

/// Makes each of the calls on a seat without room.
fn are_refused<N: Names, R: Wait + Abort>(rt: &R, alloc: Global, kit: Kit) -> bool
    requires { kit ≡ N.kit }
{
    let (fleet, mut seats) = Fleet::<N>::open(alloc, kit).expect(rt, "memory");
    let seat = seats.get_mut(0).expect(rt, "seat");
    let lines = "begin 2 5 1000000\nend 0\nset 2 5 1000000\nrebase";
    for operation in operations_at(rt, alloc, 0, lines) {
        if seat.call(rt, &fleet, operation) != Err(Refused::SeatFull) {
            return false;
        }
    }
    !fleet.is_at_home(task(rt, 2), cpu(rt, 1)) && !fleet.is_at_home(task(rt, 3), cpu(rt, 0))
}

#[test]
fn a_seat_without_room_lets_none_come_or_go(rt: HostRuntime) {
    let setup = three_tasks(&rt, rt.alloc());
    let kit = kit_of(&rt, rt.alloc(), &setup, 0, 1);
    assert!(rt; are_refused::<Brand, _>(&rt, rt.alloc(), kit));
}
