//! Queues of many tasks, whose deadlines are the later the greater their numbers: whatever order the tasks come in, each is
//! picked in its turn, by a descent of few turns.

ghost use Rattle.std.specs.Prelude.{◌<◌};

use crate::fixtures::{admit, ns, parcel, put_asleep, task};
use eevdf_queue::{Parcel, Queue, TickAnswer, WakeAnswer};
use std::alloc::Global;
use std::process::Abort;

/// So many tasks there may be.
const TASKS: u64 = 1024;

/// The order in which the tasks come.
#[derive(Clone, Copy)]
enum Arrival {
    Ascending,
    Descending,
    /// The least number, the greatest, the second least, and so on.
    Alternating,
}

impl Arrival {
    /// The number of the task that comes at a place.
    fn number_at(self, place: u64) -> u64
        requires { place < 1024 }
    {
        match self {
            Arrival::Ascending => place,
            Arrival::Descending => TASKS - 1 - place,
            Arrival::Alternating => {
                if place % 2 == 0 {
                    place / 2
                } else {
                    TASKS - 1 - place / 2
                }
            }
        }
    }
}

/// The task of this number, which starts at 0. Its weight is 1024, so its deadline is its slice.
fn numbered(rt: &impl Abort, alloc: Global, number: u64) -> Parcel {
    let slice = 100_000 + 1000 * task(rt, number).get();
    parcel(rt, alloc, number, slice, 0)
}

/// Asks that this task is picked after few turns, and takes it out.
fn takes_next(rt: &impl Abort, queue: &mut Queue, number: u64) {
    let task = queue.pick().expect(rt, "empty");
    assert_eq!(rt; task.get(), number);
    assert!(rt; queue.pick_steps() <= 21);
    let parcel = queue.detach_running(task).expect(rt, "not running");
    assert!(rt; parcel.task() == task);
    parcel.retire();
}

/// Asks that this task is picked, and once more, before which nothing changes. Gives the turns, which a second pick leaves.
fn picks_twice(rt: &impl Abort, queue: &mut Queue, number: u64) -> u32 {
    let task = Some(task(rt, number));
    assert_eq!(rt; queue.pick(), task);
    let turns = queue.pick_steps();
    assert_eq!(rt; queue.pick(), task);
    assert_eq!(rt; queue.pick_steps(), turns);
    turns
}

/// Asks that the picks of all tasks come in ascending number, when each picked task is taken out.
fn empties_in_order(rt: &impl Abort, queue: &mut Queue) {
    assert_eq!(rt; queue.len() as u64, TASKS);
    assert_eq!(rt; queue.candidate(), Some(task(rt, 1023)));
    assert!(rt; picks_twice(rt, queue, 0) >= 6);
    for number in 0..TASKS {
        takes_next(rt, queue, number);
    }
    assert_eq!(rt; queue.pick(), None);
    assert_eq!(rt; queue.pick_steps(), 0);
}

/// One task is picked in one turn.
fn picks_one(rt: &impl Abort, alloc: Global, queue: &mut Queue) {
    admit(rt, queue, numbered(rt, alloc, 7));
    assert_eq!(rt; queue.candidate(), Some(task(rt, 7)));
    assert_eq!(rt; queue.pick(), Some(task(rt, 7)));
    assert_eq!(rt; queue.pick_steps(), 1);
    assert_eq!(rt; queue.candidate(), None);
}

/// The pick of three tasks stands on the right of the root, since of the first two neither is eligible: a turn to the root, and
/// one to the right.
fn picks_to_the_right(rt: &impl Abort, alloc: Global, queue: &mut Queue) {
    admit(rt, queue, parcel(rt, alloc, 0, 100_000, 10));
    admit(rt, queue, parcel(rt, alloc, 1, 200_000, 10));
    admit(rt, queue, parcel(rt, alloc, 2, 300_000, 0));
    assert_eq!(rt; picks_twice(rt, queue, 2), 2);
}

/// Makes all tasks runnable in an empty queue, in the order in which they come, and takes them out by their deadlines.
fn fills_and_empties(rt: &impl Abort, alloc: Global, queue: &mut Queue, arrival: Arrival) {
    for place in 0..TASKS {
        admit(rt, queue, numbered(rt, alloc, arrival.number_at(place)));
    }
    empties_in_order(rt, queue)
}

/// Puts all tasks to sleep in an empty queue, wakes them, the greatest number first, and takes them out by their deadlines.
fn sleep_and_wake(rt: &impl Abort, alloc: Global, queue: &mut Queue) {
    for number in 0..TASKS {
        put_asleep(rt, queue, numbered(rt, alloc, number));
    }
    for place in 0..TASKS {
        let task = task(rt, Arrival::Descending.number_at(place));
        assert_eq!(rt; queue.lag_of(task), Some(0));
        assert_eq!(rt; queue.wake(task), WakeAnswer::Woken);
        assert!(rt; !queue.asleep(task));
        assert_eq!(rt; queue.entry(task).map(|entry| entry.v), Some(0));
        assert_eq!(rt; queue.wake(task), WakeAnswer::Awake);
    }
    empties_in_order(rt, queue)
}

/// Picks the next task, which is to be this one, and charges it.
fn charges_next(rt: &impl Abort, queue: &mut Queue, number: u64, time: u64, resched: bool) {
    let task = task(rt, number);
    assert_eq!(rt; queue.pick(), Some(task));
    assert_eq!(rt;
        queue.tick(ns(rt, time)),
        TickAnswer::Charged { task, resched }
    );
}

/// The virtual runtime and the deadline of a runnable task.
fn times(rt: &impl Abort, queue: &Queue, number: u64) -> (i64, i64) {
    let entry = queue.entry(task(rt, number)).expect(rt, "not runnable");
    (entry.v, entry.d)
}

/// A task that was charged is ahead of the mean, so the next one is picked. A tick of 1000 ns is below every slice and leaves
/// the deadline; one of a million is past every slice, and the next deadline is a slice after the new virtual runtime.
fn take_turns(rt: &impl Abort, alloc: Global, queue: &mut Queue) {
    for number in (0..64u32).rev() {
        admit(rt, queue, numbered(rt, alloc, u64::from(number)));
    }
    for number in 0..64u32 {
        takes_short_turn(rt, queue, number);
    }
    for number in 0..64u32 {
        takes_long_turn(rt, queue, number);
    }
    assert_eq!(rt; queue.candidate(), Some(task(rt, 62)));
    assert_eq!(rt; queue.pick(), Some(task(rt, 0)));
}

fn takes_short_turn(rt: &impl Abort, queue: &mut Queue, number: u32) {
    charges_next(rt, queue, u64::from(number), 1000, false);
    let turns = i64::from(number) + 1;
    assert_eq!(rt; queue.floor_time(), 1000 * turns / 64);
    let deadline = 100_000 + 1000 * i64::from(number);
    assert_eq!(rt; times(rt, queue, u64::from(number)), (1000, deadline));
}

fn takes_long_turn(rt: &impl Abort, queue: &mut Queue, number: u32) {
    charges_next(rt, queue, u64::from(number), 1_000_000, true);
    let turns = i64::from(number) + 1;
    assert_eq!(rt; queue.floor_time(), 1000 + 1_000_000 * turns / 64);
    let deadline = 1_001_000 + 100_000 + 1000 * i64::from(number);
    assert_eq!(rt; times(rt, queue, u64::from(number)), (1_001_000, deadline));
}

#[test]
fn tasks_are_picked_in_their_turns(rt: HostRuntime) {
    let (rt, alloc) = (&rt, rt.alloc());
    picks_one(rt, alloc, &mut Queue::open());
    picks_to_the_right(rt, alloc, &mut Queue::open());
    fills_and_empties(rt, alloc, &mut Queue::open(), Arrival::Ascending);
    fills_and_empties(rt, alloc, &mut Queue::open(), Arrival::Descending);
    fills_and_empties(rt, alloc, &mut Queue::open(), Arrival::Alternating);
    sleep_and_wake(rt, alloc, &mut Queue::open());
    take_turns(rt, alloc, &mut Queue::open());
}
