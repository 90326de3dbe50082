//! The call of a fleet that keeps its history.

ghost use Rattle.std.specs.Prelude.{◌≡◌};
ghost use Rattle.eevdf_fleet.specs.Fleets.{setup_of};

use super::{CPUS, TRIED, after, one_heavy_and_three_light, two_after_and_three_before};
use crate::fixtures::{one_task_each, task};
use crate::kits::kit_of;
use eevdf_fleet::{Fleet, Kit, Names, SeatFull};
use eevdf_ops::{Answer, Deed, Line, Setup};
use std::alloc::Global;
use std::marker::Brand;
use std::process::Abort;
use std::sync::Wait;

/// A CPU looks for work again and again on a fleet of this kit, and is to find these tasks, and then none. Its lines.
fn finds<N: Names, R: Wait + Abort>(
    rt: &R,
    alloc: Global,
    kit: Kit,
    cpu: u64,
    tasks: &[u64],
) -> Vec<Line>
    requires { kit ≡ N.kit }
{
    let (fleet, mut seats) = Fleet::<N>::open(alloc, kit).expect(rt, "memory");
    let seat = seats.get_mut(cpu as usize).expect(rt, "seat");
    for number in tasks {
        let found = fleet.find_work(rt, seat);
        assert!(rt;
            found == Ok(Some(task(rt, *number))),
            "CPU {cpu}: task {number}"
        );
    }
    assert!(rt; fleet.find_work(rt, seat) == Ok(None), "CPU {cpu}");
    seat.log().to_vec(alloc).expect(rt, "memory")
}

/// The same on a fleet of this setup.
fn finds_in<R: Wait + Abort>(
    rt: &R,
    alloc: Global,
    setup: &Setup,
    cpu: u64,
    tasks: &[u64],
) -> Vec<Line> {
    let kit = kit_of(rt, alloc, setup, 200, 1);
    finds::<Brand, _>(rt, alloc, kit, cpu, tasks)
}

/// Asks that these lines are pulls by a CPU from the CPUs after it in turn, of which the last took a task or none did.
fn are_in_turn(rt: &impl Abort, cpu: u64, lines: &[Line], found: bool) {
    let mut steps: u64 = 0;
    for line in lines {
        steps = steps.saturating_add(1);
        let Deed::Pull { cpu: own, source } = line.deed else {
            assert!(rt; false, "CPU {cpu}: not a pull");
            return;
        };
        assert!(rt;
            own.get() == cpu && source.get() == after(cpu, steps),
            "CPU {cpu}: pull {steps}"
        );
        let last = steps as usize == lines.len();
        let took = matches!(line.answer, Answer::Pulled(_));
        assert!(rt; took == (found && last), "CPU {cpu}: pull {steps}");
    }
}

#[test]
fn a_cpu_tries_the_others_in_turn(rt: HostRuntime) {
    for cpu in TRIED {
        let setup = two_after_and_three_before(&rt, rt.alloc(), cpu);
        let lines = finds_in(&rt, rt.alloc(), &setup, cpu, &[1, 4]);
        assert!(rt; lines.len() == 128, "CPU {cpu}");
        are_in_turn(&rt, cpu, &lines[..2], true);
        are_in_turn(&rt, cpu, &lines[2..65], true);
        are_in_turn(&rt, cpu, &lines[65..], false);
    }
}

#[test]
fn a_cpu_finds_none_where_each_has_one(rt: HostRuntime) {
    let setup = one_task_each(&rt, rt.alloc(), CPUS as usize);
    for cpu in TRIED {
        let lines = finds_in(&rt, rt.alloc(), &setup, cpu, &[]);
        assert!(rt; lines.len() == 63, "CPU {cpu}");
        are_in_turn(&rt, cpu, &lines, false);
    }
    let alone = one_task_each(&rt, rt.alloc(), 1);
    let lines = finds_in(&rt, rt.alloc(), &alone, 0, &[]);
    assert!(rt; lines.is_empty());
}

#[test]
fn a_heavy_task_hides_no_light_ones(rt: HostRuntime) {
    for (heavy, light) in [(0, 1), (1, 0)] {
        let setup = one_heavy_and_three_light(&rt, rt.alloc(), heavy, light);
        let _lines = finds_in(&rt, rt.alloc(), &setup, 2, &[3]);
    }
}

/// Looks for work with the last seat of a fleet of this kit, twice.
fn twice<N: Names, R: Wait + Abort>(rt: &R, alloc: Global, kit: Kit) -> [bool; 2]
    requires { kit ≡ N.kit }
{
    let (fleet, mut seats) = Fleet::<N>::open(alloc, kit).expect(rt, "memory");
    let mut seat = seats.pop().expect(rt, "seat");
    let first = fleet.find_work(rt, &mut seat) == Err(SeatFull);
    let second = fleet.find_work(rt, &mut seat) == Err(SeatFull);
    [first, second]
}

#[test]
fn room_is_asked_for_each_other_cpu(rt: HostRuntime) {
    let setup = one_task_each(&rt, rt.alloc(), CPUS as usize);
    for (quota, full) in [
        (62, [true, true]),
        (63, [false, true]),
        (125, [false, true]),
        (126, [false, false]),
    ] {
        let kit = kit_of(&rt, rt.alloc(), &setup, quota, 1);
        assert!(rt; twice::<Brand, _>(&rt, rt.alloc(), kit) == full, "{quota}");
    }
    let alone = one_task_each(&rt, rt.alloc(), 1);
    let kit = kit_of(&rt, rt.alloc(), &alone, 0, 1);
    assert!(rt; twice::<Brand, _>(&rt, rt.alloc(), kit) == [false, false]);
}
