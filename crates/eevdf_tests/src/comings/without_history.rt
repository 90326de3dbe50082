//! The calls of a fleet that keeps no history.

ghost use Rattle.std.specs.Prelude.{◌≡◌};

use super::cases::CASES;
use super::{Case, stands_in, three_tasks};
use crate::fixtures::{cpu, task};
use crate::kits::endless_kit_of;
use crate::seats::make_told_calls;
use eevdf_fleet::Names;
use eevdf_fleet::endless::{Fleet, Kit};
use std::alloc::Global;
use std::marker::Brand;
use std::process::Abort;
use std::sync::Wait;

/// Makes the calls of a case on a fleet of this kit, and closes it.
fn make_calls<N: Names, R: Wait + Abort>(rt: &R, alloc: Global, kit: Kit, case: &Case)
    requires { kit ≡ N.kit }
{
    let (fleet, mut seats) = Fleet::<N>::open(alloc, kit).expect(rt, "memory");
    make_told_calls(rt, alloc, &fleet, &mut seats, case.name, case.calls);
    assert!(rt; !fleet.is_at_home(task(rt, 2), cpu(rt, 1)));
    assert!(rt; !fleet.is_at_home(task(rt, 3), cpu(rt, 0)));
    assert!(rt; fleet.has_all_seats(&seats));
    let closed = fleet.close(seats);
    for (cpu, wanted) in case.queues.iter().enumerate() {
        let queue = closed.queues.get(cpu).expect(rt, "CPU");
        assert!(rt; stands_in(rt, queue) == *wanted, "{}: CPU {cpu}", case.name);
    }
}

#[test]
fn tasks_come_and_go(rt: HostRuntime) {
    let setup = three_tasks(&rt, rt.alloc());
    for case in &CASES {
        let kit = endless_kit_of(&rt, rt.alloc(), &setup, 1);
        make_calls::<Brand, _>(&rt, rt.alloc(), kit, case);
    }
}
