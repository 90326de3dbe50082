//! The calls of a fleet that keeps no history, with looks, and with how many requests more fit into a ring.

ghost use Rattle.std.specs.Prelude.{◌≡◌};
ghost use Rattle.eevdf_fleet.specs.Fleets.{setup_of};

use super::{call_both, pairs, two_tasks_each};
use crate::fixtures::cpu;
use crate::kits::endless_kit_of;
use eevdf_fleet::Names;
use eevdf_fleet::endless::{Fleet, Kit, Seat};
use std::alloc::Global;
use std::marker::Brand;
use std::process::Abort;
use std::sync::Wait;

/// The load of a task of nice level 0, and of one of level 5.
const LEVEL_0: u64 = 1024;

const LEVEL_5: u64 = 335;

/// What a seat sees of a CPU: the load there, and how many requests more fit into its ring to it.
fn seen<N: Names, R: Wait + Abort>(
    rt: &R,
    fleet: &Fleet<N>,
    seat: &mut Seat<N>,
    number: u64,
) -> Option<(u64, usize)> {
    let cpu = cpu(rt, number);
    if !fleet.has_cpu(cpu) {
        return None;
    }
    let load = fleet.look(rt, seat, cpu, |queue| queue.load());
    Some((load, seat.free(cpu)))
}

/// Makes the calls of a CPU and of a neighbour on a fleet of this kit, whose rings have room for two requests, and then has either look at
/// both.
fn make_calls<N: Names, R: Wait + Abort>(rt: &R, alloc: Global, kit: Kit, cpu: u64, neighbour: u64)
    requires { kit ≡ N.kit }
{
    let (fleet, mut seats) = Fleet::<N>::open(alloc, kit).expect(rt, "memory");
    call_both(rt, alloc, &fleet, &mut seats, cpu, neighbour);
    for caller in [cpu, neighbour] {
        let seat = seats.get_mut(caller as usize).expect(rt, "seat");
        let own = seen(rt, &fleet, seat, cpu);
        assert!(rt;
            own == Some((LEVEL_0 + LEVEL_5, 2)),
            "CPU {cpu} seen by {caller}"
        );
        let beside = seen(rt, &fleet, seat, neighbour);
        assert!(rt;
            beside == Some((2 * LEVEL_0, 2)),
            "CPU {neighbour} seen by {caller}"
        );
    }
}

#[test]
fn each_cpu_makes_each_call(rt: HostRuntime) {
    let setup = two_tasks_each(&rt, rt.alloc());
    for (cpu, neighbour) in pairs(&rt, rt.alloc()) {
        let kit = endless_kit_of(&rt, rt.alloc(), &setup, 2);
        make_calls::<Brand, _>(&rt, rt.alloc(), kit, cpu, neighbour);
    }
}
