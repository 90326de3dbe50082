//! What a drain names of the wakes, whether it says that the running task is to be preempted, and what a post sees of the ring.

ghost use Rattle.std.specs.Prelude.{◌≡◌};
ghost use Rattle.eevdf_fleet.specs.Fleets.{setup_of};

use crate::fixtures::{cpu, setup_of, task, task_at};
use crate::kits::endless_kit_of;
use eevdf_fleet::endless::{Fleet, Kit, Seat};
use eevdf_fleet::{DrainedWake, Names};
use eevdf_ops::{Answer, Op, Setup, TaskSpec};
use eevdf_queue::TaskId;
use eevdf_weight::Slice;
use std::alloc::Global;
use std::marker::Brand;
use std::process::Abort;
use std::sync::Wait;

/// A setup of so many CPUs without programs, with tasks of nice level 0: of each the home, the slice, and whether it begins asleep.
fn setup_of_tasks(
    rt: &impl Abort,
    alloc: Global,
    cpus: usize,
    tasks: &[(u64, u64, bool)],
) -> Setup {
    let mut specs = Vec::new(alloc);
    for (home, slice, asleep) in tasks {
        let spec = TaskSpec {
            slice: Slice::new(*slice).expect(rt, "slice"),
            ..task_at(rt, *home, *asleep)
        };
        specs.push(spec).expect(rt, "memory");
    }
    setup_of(rt, alloc, &specs, cpus, 0)
}

/// Tasks that sleep on four CPUs, and the CPUs by the tasks.
const AT_FOUR_HOMES: [(u64, u64, bool); 4] = [
    (0, 3_000_000, true),
    (1, 3_000_000, true),
    (8, 3_000_000, true),
    (63, 3_000_000, true),
];

const HOMES: [(u64, usize); 4] = [(0, 0), (1, 1), (2, 8), (3, 63)];

/// Drains into a list, which is emptied before, and answers `resched`.
fn drain<N: Names, R: Wait + Abort>(
    rt: &R,
    fleet: &Fleet<N>,
    seat: &mut Seat<N>,
    wakes: &mut Vec<DrainedWake>,
) -> bool
    ensures { seat.new.cpu ≡ seat.old.cpu }
{
    wakes.clear();
    let capacity = wakes.capacity();
    assert!(rt; fleet.cpus() <= capacity);
    let listed = fleet.drain_into(rt, seat, wakes);
    assert!(rt; wakes.capacity() == capacity);
    assert!(rt; listed.drained.taken == wakes.len());
    listed.resched
}

/// Whether the wakes are one of each CPU of sixty-four in order, of this task, of which the first got this answer and the others `Awake`.
fn are_of_all(wakes: &[DrainedWake], task: TaskId, first: Answer) -> bool {
    let mut answer = first;
    let mut sender = 0;
    for wake in wakes {
        if wake.task != task
            || wake.sender.get() != sender
            || wake.answer != answer
            || sender > 63
        {
            return false;
        }
        answer = Answer::Awake;
        sender += 1;
    }
    sender == 64
}

/// All of sixty-four seats ask for a task, whose home drains and picks it, and then all ask once more.
fn all_ask_twice<N: Names, R: Wait + Abort>(
    rt: &R,
    alloc: Global,
    kit: Kit,
    number: u64,
    home: usize,
) -> bool
    requires { kit ≡ N.kit }
{
    let (fleet, mut seats) = Fleet::<N>::open(alloc, kit).expect(rt, "memory");
    let task = task(rt, number);
    let mut wakes = Vec::with_capacity(alloc, 64).expect(rt, "memory");
    for (first, is_picked_anew) in [(Answer::Woken, true), (Answer::Awake, false)] {
        for seat in seats.iter_mut() {
            assert!(rt; fleet.try_operate(rt, seat, Op::Post(task)).is_ok());
        }
        let seat = seats.get_mut(home).expect(rt, "seat");
        if drain(rt, &fleet, seat, &mut wakes) != is_picked_anew
            || !are_of_all(&wakes, task, first)
            || fleet.pick(rt, seat) != Answer::Picked(task)
        {
            return false;
        }
    }
    true
}

#[test]
fn a_drain_names_a_wake_of_each_of_sixty_four_seats(rt: HostRuntime) {
    let setup = setup_of_tasks(&rt, rt.alloc(), 64, &AT_FOUR_HOMES);
    for (number, home) in HOMES {
        let kit = endless_kit_of(&rt, rt.alloc(), &setup, 1);
        let holds = all_ask_twice::<Brand, _>(&rt, rt.alloc(), kit, number, home);
        assert!(rt; holds, "CPU {home}");
    }
}

/// Whether task 0, which runs, is to be preempted when task 1 wakes on its CPU.
fn preempts<N: Names, R: Wait + Abort>(rt: &R, alloc: Global, kit: Kit) -> bool
    requires { kit ≡ N.kit }
{
    let (fleet, mut seats) = Fleet::<N>::open(alloc, kit).expect(rt, "memory");
    let mut seat = seats.pop().expect(rt, "seat");
    let mut wakes = Vec::with_capacity(alloc, 1).expect(rt, "memory");
    assert!(rt; fleet.pick(rt, &mut seat) == Answer::Picked(task(rt, 0)));
    assert!(rt; !drain(rt, &fleet, &mut seat, &mut wakes) && wakes.is_empty());
    let post = Op::Post(task(rt, 1));
    assert!(rt; fleet.try_operate(rt, &mut seat, post).is_ok());
    drain(rt, &fleet, &mut seat, &mut wakes)
}

/// The woken task begins at the virtual time 0, as the running one stands. With a slice of 1 ms its deadline is earlier; with one of 3 ms
/// the deadlines are equal, and the lower number is picked.
#[test]
fn a_woken_task_of_earlier_deadline_preempts(rt: HostRuntime) {
    for (slice, is_preempted) in [(1_000_000, true), (3_000_000, false)] {
        let tasks = [(0, 3_000_000, false), (0, slice, true)];
        let setup = setup_of_tasks(&rt, rt.alloc(), 1, &tasks);
        let kit = endless_kit_of(&rt, rt.alloc(), &setup, 1);
        let preempts = preempts::<Brand, _>(&rt, rt.alloc(), kit);
        assert!(rt; preempts == is_preempted, "slice {slice}");
    }
}

/// What a post sees: `None` where the ring is full, or the setup hasn't the task.
fn is_alone<N: Names>(fleet: &Fleet<N>, seat: &mut Seat<N>, task: TaskId) -> Option<bool> {
    if fleet.has_task(task) {
        seat.post_and_look(task).ok()
    } else {
        None
    }
}

/// A seat posts a task to its home into rings with room for two requests.
fn looks_at_its_ring<N: Names, R: Wait + Abort>(
    rt: &R,
    alloc: Global,
    kit: Kit,
    sender: usize,
    number: u64,
    home: usize,
)
    requires { kit ≡ N.kit }
{
    let (fleet, mut seats) = Fleet::<N>::open(alloc, kit).expect(rt, "memory");
    let task = task(rt, number);
    for (drains, seen) in [
        (0, Some(true)),
        (0, Some(false)),
        (0, None),
        (1, Some(false)),
        (2, Some(true)),
        (1, Some(true)),
    ] {
        let drained = seats.get_mut(home).expect(rt, "home");
        for _time in 0..drains {
            let _ = fleet.drain(rt, drained);
        }
        let seat = seats.get_mut(sender).expect(rt, "sender");
        assert!(rt;
            is_alone(&fleet, seat, task) == seen,
            "CPU {sender} to CPU {home}"
        );
    }
}

#[test]
fn a_post_sees_whether_it_is_alone(rt: HostRuntime) {
    let setup = setup_of_tasks(&rt, rt.alloc(), 64, &AT_FOUR_HOMES);
    for sender in [0, 1, 8, 63] {
        for (number, home) in HOMES {
            let kit = endless_kit_of(&rt, rt.alloc(), &setup, 2);
            looks_at_its_ring::<Brand, _>(&rt, rt.alloc(), kit, sender, number, home);
        }
    }
}
