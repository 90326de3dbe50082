//! What a seat sees of the queues, and of the history.

ghost use Rattle.std.specs.Prelude.{◌≡◌};
ghost use Rattle.eevdf_fleet.specs.Fleets.{setup_of};

use crate::fixtures::{cpu, one_task_each, task};
use crate::kits::endless_kit_of;
use eevdf_fleet::Names;
use eevdf_fleet::endless::{Fleet, Kit, Seat};
use eevdf_ops::CpuId;
use eevdf_queue::TaskId;
use std::alloc::Global;
use std::marker::Brand;
use std::process::Abort;
use std::sync::Wait;

/// The load of a CPU's queue, who runs there, and who would be given to a pull.
type Seen = (u64, Option<TaskId>, Option<TaskId>);

/// What a seat sees in a look, which ends here. `None` where there is no such CPU.
fn seen<N: Names, R: Wait>(
    rt: &R,
    fleet: &Fleet<N>,
    seat: &mut Seat<N>,
    cpu: CpuId,
) -> Option<Seen> {
    if !fleet.has_cpu(cpu) {
        return None;
    }
    let seen = fleet.look(rt, seat, cpu, |queue| {
        (queue.load(), queue.running(), queue.candidate())
    });
    Some(seen)
}

/// CPU 1 looks at CPU 0 before and after the task there runs, and then the two meet.
fn looks_and_meets<N: Names, R: Wait + Abort>(rt: &R, alloc: Global, kit: Kit)
    requires { kit ≡ N.kit }
{
    let (fleet, mut seats) = Fleet::<N>::open(alloc, kit).expect(rt, "memory");
    let mut one = seats.pop().expect(rt, "seat 1");
    let mut zero = seats.pop().expect(rt, "seat 0");
    let (cpu, task) = (cpu(rt, 0), task(rt, 0));
    assert!(rt; seen(rt, &fleet, &mut one, cpu) == Some((1024, None, Some(task))));
    let _picked = fleet.pick(rt, &mut zero);
    assert!(rt; seen(rt, &fleet, &mut one, cpu) == Some((1024, Some(task), None)));
    assert!(rt; seen(rt, &fleet, &mut zero, cpu) == Some((1024, Some(task), None)));
    fleet.meet(&mut zero, &mut one);
    assert!(rt; (zero.cpu().get(), one.cpu().get()) == (0, 1));
}

#[test]
fn a_look_shows_the_queue(rt: HostRuntime) {
    let setup = one_task_each(&rt, rt.alloc(), 2);
    let kit = endless_kit_of(&rt, rt.alloc(), &setup, 1);
    looks_and_meets::<Brand, _>(&rt, rt.alloc(), kit);
}
