//! The calls of a fleet that keeps its history.

ghost use Rattle.std.specs.Prelude.{◌≡◌};
ghost use Rattle.eevdf_fleet.specs.Fleets.{setup_of};

use super::{call_both, pairs, two_tasks_each};
use crate::kits::kit_of;
use eevdf_fleet::{Fleet, Kit, Names};
use std::alloc::Global;
use std::marker::Brand;
use std::process::Abort;
use std::sync::Wait;

/// Room for the lines of a seat, and for a drain once more.
const QUOTA: usize = 100;

/// Makes the calls of a CPU and of a neighbour on a fleet of this kit.
fn make_calls<N: Names, R: Wait + Abort>(rt: &R, alloc: Global, kit: Kit, cpu: u64, neighbour: u64)
    requires { kit ≡ N.kit }
{
    let (fleet, mut seats) = Fleet::<N>::open(alloc, kit).expect(rt, "memory");
    call_both(rt, alloc, &fleet, &mut seats, cpu, neighbour);
}

#[test]
fn each_cpu_makes_each_call(rt: HostRuntime) {
    let setup = two_tasks_each(&rt, rt.alloc());
    for (cpu, neighbour) in pairs(&rt, rt.alloc()) {
        let kit = kit_of(&rt, rt.alloc(), &setup, QUOTA, 1);
        make_calls::<Brand, _>(&rt, rt.alloc(), kit, cpu, neighbour);
    }
}
