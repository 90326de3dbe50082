//! Tasks and strays on CPUs of a fleet of sixty-four, in one thread. A call that waits for ever for some CPU doesn't end here.

ghost use Rattle.std.specs.Prelude.{◌≡◌};

use super::{open_beside, wake_a_stray};
use crate::fixtures::asleep_at_each;
use crate::kits::endless_kit_of;
use eevdf_fleet::Names;
use eevdf_fleet::endless::Kit;
use eevdf_ops::{Answer, Setup};
use std::alloc::Global;
use std::marker::Brand;
use std::process::Abort;
use std::sync::Wait;

/// How many CPUs there are. Numbers c, `CPUS + c` and `2 * CPUS + c` have CPU c as their home.
const CPUS: usize = 64;

/// The CPUs whose calls are tried, each beside the one above.
const TRIED: [usize; 8] = [0, 1, 2, 4, 8, 16, 32, 62];

/// Three tasks begin and wake. One ends where it runs, and its late wake is ended by the drain; one ends where it waits, and the stray that
/// it leaves by the pick. Then all three numbers are free.
fn come_and_go<N: Names, R: Wait + Abort>(
    rt: &R,
    alloc: Global,
    setup: &Setup,
    kit: Kit,
    cpu: usize,
)
    requires { kit ≡ N.kit }
{
    let mut machine = open_beside::<N>(rt, alloc, setup, kit, cpu);
    let one = cpu as u64;
    let two = one.saturating_add(CPUS as u64);
    let three = two.saturating_add(CPUS as u64);
    for number in [one, two, three] {
        machine.begins(rt, Some(number));
    }
    machine.begins(rt, None);
    machine.wakes(rt, one, Answer::Woken, true);
    machine.picks(rt, Some(one));
    machine.wakes(rt, two, Answer::Woken, false);
    machine.wakes(rt, three, Answer::Woken, false);
    machine.ends(rt, one);
    machine.picks(rt, Some(two));
    machine.wakes(rt, one, Answer::Woken, true);
    machine.begins(rt, Some(one));
    machine.ends(rt, three);
    wake_a_stray(rt, &mut machine, three);
    machine.ends(rt, two);
    machine.picks(rt, None);
    machine.ends(rt, one);
    for number in [three, two, one] {
        machine.begins(rt, Some(number));
    }
}

#[test]
fn tasks_come_and_go_on_each_cpu(rt: HostRuntime) {
    let setup = asleep_at_each(&rt, rt.alloc(), CPUS, 3);
    for cpu in TRIED {
        let kit = endless_kit_of(&rt, rt.alloc(), &setup, 4);
        come_and_go::<Brand, _>(&rt, rt.alloc(), &setup, kit, cpu);
    }
}
