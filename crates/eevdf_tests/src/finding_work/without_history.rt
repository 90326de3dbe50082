//! The call of a fleet that keeps no history.

ghost use Rattle.std.specs.Prelude.{◌≡◌};
ghost use Rattle.eevdf_fleet.specs.Fleets.{setup_of};

use super::{CPUS, TRIED, one_heavy_and_three_light, two_after_and_three_before};
use crate::fixtures::{one_task_each, task};
use crate::kits::endless_kit_of;
use eevdf_fleet::Names;
use eevdf_fleet::endless::{Fleet, Kit};
use eevdf_ops::Setup;
use std::alloc::Global;
use std::marker::Brand;
use std::process::Abort;
use std::sync::Wait;

/// A CPU looks for work again and again on a fleet of this kit, and is to find these tasks, and then none.
fn finds<N: Names, R: Wait + Abort>(rt: &R, alloc: Global, kit: Kit, cpu: u64, tasks: &[u64])
    requires { kit ≡ N.kit }
{
    let (fleet, mut seats) = Fleet::<N>::open(alloc, kit).expect(rt, "memory");
    let seat = seats.get_mut(cpu as usize).expect(rt, "seat");
    for number in tasks {
        let found = fleet.find_work(rt, seat);
        assert!(rt;
            found == Some(task(rt, *number)),
            "CPU {cpu}: task {number}"
        );
    }
    assert!(rt; fleet.find_work(rt, seat).is_none(), "CPU {cpu}");
}

/// The same on a fleet of this setup.
fn finds_in<R: Wait + Abort>(rt: &R, alloc: Global, setup: &Setup, cpu: u64, tasks: &[u64]) {
    let kit = endless_kit_of(rt, alloc, setup, 1);
    finds::<Brand, _>(rt, alloc, kit, cpu, tasks);
}

#[test]
fn a_cpu_finds_the_nearest_task_first(rt: HostRuntime) {
    for cpu in TRIED {
        let setup = two_after_and_three_before(&rt, rt.alloc(), cpu);
        finds_in(&rt, rt.alloc(), &setup, cpu, &[1, 4]);
    }
}

#[test]
fn a_cpu_finds_none_where_each_has_one(rt: HostRuntime) {
    let setup = one_task_each(&rt, rt.alloc(), CPUS as usize);
    for cpu in TRIED {
        finds_in(&rt, rt.alloc(), &setup, cpu, &[]);
    }
    let alone = one_task_each(&rt, rt.alloc(), 1);
    finds_in(&rt, rt.alloc(), &alone, 0, &[]);
}

#[test]
fn a_heavy_task_hides_no_light_ones(rt: HostRuntime) {
    for (heavy, light) in [(0, 1), (1, 0)] {
        let setup = one_heavy_and_three_light(&rt, rt.alloc(), heavy, light);
        finds_in(&rt, rt.alloc(), &setup, 2, &[3]);
    }
}
