//! Worked values of the calls that give a task another nice level and slice, or let it begin anew, in a queue and in a parcel; and
//! of the one that takes out a runnable task. The nice level 0 weighs 1024, 3 weighs 526, 5 weighs 335, and -5 weighs 3121.

use crate::fixtures::{admit, charge_first_of_two, ns, parcel, put_asleep, task};
use eevdf_queue::{Entry, Parcel, Queue, SetAnswer, Sleeper, TickAnswer, WakeAnswer};
use eevdf_weight::{Nice, Slice};
use std::alloc::Global;
use std::process::Abort;

fn nice(rt: &impl Abort, level: i64) -> Nice {
    Nice::new(level).expect(rt, "nice")
}

fn slice(rt: &impl Abort, slice_ns: u64) -> Slice {
    Slice::new(slice_ns).expect(rt, "slice")
}

/// Asks that a task is runnable with this virtual runtime and deadline, nice level and slice.
fn is_runnable(
    rt: &impl Abort,
    queue: &Queue,
    number: u64,
    times: (i64, i64),
    level: i64,
    slice_ns: u64,
) {
    let entry = Entry {
        v: times.0,
        d: times.1,
        nice: nice(rt, level),
        slice: slice(rt, slice_ns),
    };
    assert_eq!(rt; queue.entry(task(rt, number)), Some(entry));
}

/// Asks that a task sleeps with this lag, nice level and slice.
fn is_asleep(rt: &impl Abort, queue: &Queue, number: u64, lag: i64, level: i64, slice_ns: u64) {
    let sleeper = Sleeper {
        lag,
        nice: nice(rt, level),
        slice: slice(rt, slice_ns),
    };
    assert_eq!(rt; queue.sleeper(task(rt, number)), Some(sleeper));
}

/// What a queue answers that is to give a task this nice level and slice.
fn set(rt: &impl Abort, queue: &mut Queue, number: u64, level: i64, slice_ns: u64) -> SetAnswer {
    queue.set(task(rt, number), nice(rt, level), slice(rt, slice_ns))
}

/// Puts a runnable task to sleep.
fn fall_asleep(rt: &impl Abort, queue: &mut Queue, number: u64) {
    let taken = queue
        .detach_runnable(task(rt, number))
        .expect(rt, "not runnable");
    put_asleep(rt, queue, taken);
}

/// A task that is alone has a fresh request of its old slice, of 9170149 units, and then one of the new, of 3056716.
fn sets_who_is_alone(rt: &impl Abort, alloc: Global, queue: &mut Queue) {
    admit(rt, queue, parcel(rt, alloc, 0, 3_000_000, 0));
    assert_eq!(rt; set(rt, queue, 0, 5, 1_000_000), SetAnswer::Set);
    is_runnable(rt, queue, 0, (0, 9_170_149), 5, 1_000_000);
    assert_eq!(rt; queue.pick(), Some(task(rt, 0)));
    let charged = TickAnswer::Charged {
        task: task(rt, 0),
        resched: true,
    };
    assert_eq!(rt; queue.tick(ns(rt, 3_000_000)), charged);
    is_runnable(rt, queue, 0, (9_170_149, 12_226_865), 5, 1_000_000);
}

/// The one that waits is owed 500000 units, or 1528358 at its new weight. Beside the other, which is at 1000000, it is placed
/// 2028357 before it, so that these are what it is owed but for one unit.
fn sets_who_waits(rt: &impl Abort, alloc: Global, queue: &mut Queue) {
    charge_first_of_two(rt, alloc, queue);
    assert_eq!(rt; set(rt, queue, 1, 5, 1_000_000), SetAnswer::Set);
    is_runnable(rt, queue, 1, (-1_028_357, 8_141_792), 5, 1_000_000);
    is_runnable(rt, queue, 0, (1_000_000, 3_000_000), 0, 3_000_000);
    assert_eq!(rt; queue.lag_of(task(rt, 1)), Some(1_528_357));
    assert_eq!(rt; queue.running(), Some(task(rt, 0)));
}

/// The one that runs owes 500000 units, or 1528359 at its new weight, and runs on.
fn sets_who_runs(rt: &impl Abort, alloc: Global, queue: &mut Queue) {
    charge_first_of_two(rt, alloc, queue);
    assert_eq!(rt; set(rt, queue, 0, 5, 100_000), SetAnswer::Set);
    is_runnable(rt, queue, 0, (2_028_360, 11_198_509), 5, 100_000);
    is_runnable(rt, queue, 1, (0, 3_000_000), 0, 3_000_000);
    assert_eq!(rt; queue.running(), Some(task(rt, 0)));
}

/// The lag that a sleeping task keeps is rescaled and rounded down, and with a slice of 0.1 ms it is cut to the charge of 0.2 ms.
fn sets_who_sleeps(rt: &impl Abort, alloc: Global, queue: &mut Queue) {
    charge_first_of_two(rt, alloc, queue);
    fall_asleep(rt, queue, 1);
    is_asleep(rt, queue, 1, 500_000, 0, 3_000_000);
    assert_eq!(rt; set(rt, queue, 1, -5, 1_000_000), SetAnswer::Set);
    is_asleep(rt, queue, 1, 164_049, -5, 1_000_000);
    assert_eq!(rt; set(rt, queue, 1, 5, 100_000), SetAnswer::Set);
    is_asleep(rt, queue, 1, 611_343, 5, 100_000);
}

/// The same of one that owes.
fn sets_who_sleeps_and_owes(rt: &impl Abort, alloc: Global, queue: &mut Queue) {
    charge_first_of_two(rt, alloc, queue);
    fall_asleep(rt, queue, 0);
    assert_eq!(rt; set(rt, queue, 0, 5, 3_000_000), SetAnswer::Set);
    is_asleep(rt, queue, 0, -1_528_359, 5, 3_000_000);
    assert_eq!(rt; set(rt, queue, 0, 5, 100_000), SetAnswer::Set);
    is_asleep(rt, queue, 0, -611_343, 5, 100_000);
}

/// A task whose request ends at 2^60 has no room for one of level 19, and keeps what it has; and one that isn't here gets nothing.
fn refuses_to_set(rt: &impl Abort, alloc: Global, queue: &mut Queue) {
    let last = 1 << 60;
    admit(rt, queue, parcel(rt, alloc, 0, 3_000_000, last - 3_000_000));
    assert_eq!(rt; set(rt, queue, 0, 19, 100_000), SetAnswer::Range);
    assert_eq!(rt; set(rt, queue, 1, 19, 100_000), SetAnswer::NotHere);
    is_runnable(rt, queue, 0, (last - 3_000_000, last), 0, 3_000_000);
    assert_eq!(rt; queue.len(), 1);
}

/// A sleeping task owes nothing once it has begun anew, and wakes where the other one is. One that is runnable, or isn't here, doesn't
/// begin anew.
fn begins_anew(rt: &impl Abort, alloc: Global, queue: &mut Queue) {
    charge_first_of_two(rt, alloc, queue);
    fall_asleep(rt, queue, 0);
    is_asleep(rt, queue, 0, -500_000, 0, 3_000_000);
    assert!(rt; queue.begin(task(rt, 0), nice(rt, 3), slice(rt, 1_000_000)));
    is_asleep(rt, queue, 0, 0, 3, 1_000_000);
    assert!(rt; !queue.begin(task(rt, 1), nice(rt, 3), slice(rt, 1_000_000)));
    is_runnable(rt, queue, 1, (0, 3_000_000), 0, 3_000_000);
    assert!(rt; !queue.begin(task(rt, 2), nice(rt, 3), slice(rt, 1_000_000)));
    assert!(rt; !queue.contains(task(rt, 2)));
    assert_eq!(rt; queue.wake(task(rt, 0)), WakeAnswer::Woken);
    is_runnable(rt, queue, 0, (0, 1_946_768), 3, 1_000_000);
}

/// Asks what a parcel of a task of slices of 3 ms carries.
fn carries(rt: &impl Abort, taken: &Parcel, number: u64, start: i64, lag: i64) {
    assert_eq!(rt; taken.task(), task(rt, number));
    assert_eq!(rt; taken.start(), start);
    assert_eq!(rt; taken.lag(), lag);
    assert_eq!(rt; taken.nice(), nice(rt, 0));
    assert_eq!(rt; taken.slice(), slice(rt, 3_000_000));
}

/// Asks that a task isn't taken out as one that is runnable.
fn isnt_taken(rt: &impl Abort, queue: &mut Queue, number: u64) {
    let is_taken = match queue.detach_runnable(task(rt, number)) {
        Some(parcel) => {
            parcel.retire();
            true
        }
        None => false,
    };
    assert!(rt; !is_taken);
}

/// The running task is taken out, and nobody runs; then the one that waits; and none that sleeps or isn't here.
fn takes_who_is_runnable(rt: &impl Abort, alloc: Global, queue: &mut Queue) {
    charge_first_of_two(rt, alloc, queue);
    isnt_taken(rt, queue, 2);
    let ran = queue
        .detach_runnable(task(rt, 0))
        .expect(rt, "not runnable");
    carries(rt, &ran, 0, 1_000_000, -500_000);
    assert_eq!(rt; queue.running(), None);
    put_asleep(rt, queue, ran);
    isnt_taken(rt, queue, 0);
    is_asleep(rt, queue, 0, -500_000, 0, 3_000_000);
    let waited = queue
        .detach_runnable(task(rt, 1))
        .expect(rt, "not runnable");
    carries(rt, &waited, 1, 0, 0);
    waited.retire();
    assert!(rt; queue.is_empty());
}

/// A task that waits leaves the other one running. Its parcel gets another nice level and slice as a task that sleeps does, and
/// loses its lag alone. It can come back under another number.
fn changes_a_parcel(rt: &impl Abort, alloc: Global, queue: &mut Queue) {
    charge_first_of_two(rt, alloc, queue);
    let taken = queue
        .detach_runnable(task(rt, 1))
        .expect(rt, "not runnable");
    carries(rt, &taken, 1, 0, 500_000);
    assert_eq!(rt; queue.running(), Some(task(rt, 0)));
    let taken = taken.with_attributes(nice(rt, 5), slice(rt, 3_000_000));
    assert_eq!(rt; taken.lag(), 1_528_358);
    assert_eq!(rt; taken.nice(), nice(rt, 5));
    let taken = taken.with_attributes(nice(rt, 5), slice(rt, 100_000));
    assert_eq!(rt; taken.lag(), 611_343);
    assert_eq!(rt; taken.slice(), slice(rt, 100_000));
    let taken = taken.without_lag().with_number(task(rt, 9));
    assert_eq!(rt; taken.task(), task(rt, 9));
    put_asleep(rt, queue, taken);
    is_asleep(rt, queue, 9, 0, 5, 100_000);
    assert!(rt; !queue.contains(task(rt, 1)));
}

#[test]
fn a_task_changes_as_is_worked_out(rt: HostRuntime) {
    let (rt, alloc) = (&rt, rt.alloc());
    sets_who_is_alone(rt, alloc, &mut Queue::open());
    sets_who_waits(rt, alloc, &mut Queue::open());
    sets_who_runs(rt, alloc, &mut Queue::open());
    sets_who_sleeps(rt, alloc, &mut Queue::open());
    sets_who_sleeps_and_owes(rt, alloc, &mut Queue::open());
    refuses_to_set(rt, alloc, &mut Queue::open());
    begins_anew(rt, alloc, &mut Queue::open());
    takes_who_is_runnable(rt, alloc, &mut Queue::open());
    changes_a_parcel(rt, alloc, &mut Queue::open());
}
