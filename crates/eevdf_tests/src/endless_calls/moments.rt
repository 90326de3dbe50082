//! What seats have seen and posted, as values of their own: calls that compare them decide nothing at run time, so the next calls go on as
//! if they hadn't been made.

ghost use Rattle.std.specs.Prelude.{◌≡◌};
ghost use Rattle.eevdf_fleet.specs.Fleets.{setup_of};

use crate::fixtures::{cpu, one_task_each, task};
use crate::kits::endless_kit_of;
use eevdf_fleet::endless::{Fleet, Kit, Seat};
use eevdf_fleet::{Drained, Names, Operated};
use eevdf_ops::{Answer, Op};
use std::alloc::Global;
use std::marker::Brand;
use std::process::Abort;
use std::sync::Wait;

/// Compares what two seats have seen, and what the first has posted, with one another and with a look at the second's queue.
fn compare<N: Names, R: Wait>(rt: &R, fleet: &Fleet<N>, seat: &mut Seat<N>, other: &mut Seat<N>)
    ensures seat { seat.new.cpu ≡ seat.old.cpu }
    ensures other { other.new.cpu ≡ other.old.cpu }
{
    let mut seen = fleet.seen(seat);
    let mut others = fleet.seen(other);
    let mut copy = fleet.copy(&mut others);
    let mut posted = seat.posted();
    let mut posted_once_more = fleet.copy_posted(&mut posted);
    fleet.agree(&mut seen, &mut copy);
    fleet.agree_on_posts(&mut copy, &mut posted_once_more);
    seat.agree_on_posts(&mut others);
    let number = other.cpu();
    fleet.learn(seat, &mut others);
    let _load = fleet.look(rt, seat, number, |queue| queue.load());
    let mut now = fleet.seen(seat);
    fleet.agree(&mut now, &mut seen);
}

/// CPU 1 posts twice to CPU 0, which drains three times. All is compared before each drain and after it.
fn goes_on<N: Names, R: Wait + Abort>(rt: &R, alloc: Global, kit: Kit)
    requires { kit ≡ N.kit }
{
    let (fleet, mut seats) = Fleet::<N>::open(alloc, kit).expect(rt, "memory");
    let mut one = seats.pop().expect(rt, "seat 1");
    let mut zero = seats.pop().expect(rt, "seat 0");
    let task = task(rt, 0);
    let home = cpu(rt, 0);
    assert!(rt; fleet.has_cpu(home));
    assert!(rt; fleet.pick(rt, &mut zero) == Answer::Picked(task));
    let slept = fleet.try_operate(rt, &mut zero, Op::Sleep(task));
    assert!(rt; slept == Ok(Operated::Answer(Answer::Slept(0))));
    for (taken, woken) in [(1, 1), (1, 0), (0, 0)] {
        if taken == 1 {
            assert!(rt; fleet.try_operate(rt, &mut one, Op::Post(task)).is_ok());
        }
        compare(rt, &fleet, &mut one, &mut zero);
        assert!(rt; fleet.drain(rt, &mut zero) == Drained { taken, woken });
        compare(rt, &fleet, &mut one, &mut zero);
        assert!(rt; one.free(home) == 1);
    }
    assert!(rt; fleet.pick(rt, &mut zero) == Answer::Picked(task));
}

#[test]
fn comparing_moments_changes_nothing(rt: HostRuntime) {
    let setup = one_task_each(&rt, rt.alloc(), 2);
    let kit = endless_kit_of(&rt, rt.alloc(), &setup, 1);
    goes_on::<Brand, _>(&rt, rt.alloc(), kit);
}
