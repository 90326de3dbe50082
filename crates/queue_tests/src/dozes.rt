//! Worked values of a doze: what is kept of the task, where its wake puts it, and what drops its place. All weigh 1024 where nothing
//! else is said, and have slices of 3 ms.

use crate::fixtures::{admit, charge_first_of_two, ns, parcel, put_asleep, task};
use eevdf_queue::{Queue, SetAnswer, WakeAnswer};
use eevdf_weight::{Nice, Slice};
use std::alloc::Global;
use std::process::Abort;

fn nice(rt: &impl Abort, level: i64) -> Nice {
    Nice::new(level).expect(rt, "nice")
}

fn slice(rt: &impl Abort, slice_ns: u64) -> Slice {
    Slice::new(slice_ns).expect(rt, "slice")
}

/// Asks that a task sleeps with this lag and this place.
fn sleeps_at(rt: &impl Abort, queue: &Queue, number: u64, lag: i64, place: Option<i128>) {
    assert_eq!(rt;
        queue.sleeper(task(rt, number)).map(|sleeper| sleeper.lag),
        Some(lag)
    );
    assert_eq!(rt; queue.place_of(task(rt, number)), place);
}

/// Wakes a task, and asks that it is runnable with this virtual runtime and deadline, and has no place.
fn wakes_at(rt: &impl Abort, queue: &mut Queue, number: u64, v: i64, d: i64) {
    assert_eq!(rt; queue.wake(task(rt, number)), WakeAnswer::Woken);
    let entry = queue.entry(task(rt, number)).expect(rt, "not runnable");
    assert_eq!(rt; entry.v, v);
    assert_eq!(rt; entry.d, d);
    assert_eq!(rt; queue.place_of(task(rt, number)), None);
}

/// Lets the first of two tasks doze, which has run 1 ms and owes half of it. The other one is at 0.
fn doze_first_of_two(rt: &impl Abort, alloc: Global, queue: &mut Queue) {
    charge_first_of_two(rt, alloc, queue);
    assert_eq!(rt; queue.running_entry().map(|entry| entry.v), Some(1_000_000));
    assert_eq!(rt; queue.doze(task(rt, 0)), Some(-500_000));
    assert_eq!(rt; queue.running(), None);
    assert_eq!(rt; queue.running_entry(), None);
    sleeps_at(rt, queue, 0, 0, Some(1_000_000));
}

/// Its debt isn't kept, and yet it comes back where it left, and not at the other one's virtual time.
fn comes_back_where_it_left(rt: &impl Abort, alloc: Global, queue: &mut Queue) {
    doze_first_of_two(rt, alloc, queue);
    wakes_at(rt, queue, 0, 1_000_000, 4_000_000);
    assert_eq!(rt; queue.lag_of(task(rt, 0)), Some(-500_000));
    assert_eq!(rt; queue.doze(task(rt, 0)), None);
}

/// One that is owed half a millisecond keeps that. Once the other one is at 3 ms it is placed 1 ms before that, which is later
/// than its place.
fn comes_back_later(rt: &impl Abort, alloc: Global, queue: &mut Queue) {
    charge_first_of_two(rt, alloc, queue);
    assert_eq!(rt; queue.pick(), Some(task(rt, 1)));
    assert_eq!(rt; queue.doze(task(rt, 1)), Some(500_000));
    sleeps_at(rt, queue, 1, 500_000, Some(0));
    assert_eq!(rt; queue.pick(), Some(task(rt, 0)));
    let _ = queue.tick(ns(rt, 2_000_000));
    wakes_at(rt, queue, 1, 2_000_000, 5_000_000);
}

/// A rebase lowers its place with the virtual times: by 0.4 ms, and by 0.3 ms.
fn is_lowered(rt: &impl Abort, alloc: Global, queue: &mut Queue) {
    doze_first_of_two(rt, alloc, queue);
    assert_eq!(rt; queue.pick(), Some(task(rt, 1)));
    let _ = queue.tick(ns(rt, 400_000));
    assert_eq!(rt; queue.rebase(), 400_000);
    sleeps_at(rt, queue, 0, 0, Some(600_000));
    let _ = queue.tick(ns(rt, 300_000));
    assert_eq!(rt; queue.rebase(), 300_000);
    sleeps_at(rt, queue, 0, 0, Some(300_000));
    wakes_at(rt, queue, 0, 300_000, 3_300_000);
}

/// Alone it dozes at 0.3 ms, and a rebase of the queue, where nothing is runnable then, brings its place to 0.
fn dozes_again(rt: &impl Abort, alloc: Global, queue: &mut Queue) {
    is_lowered(rt, alloc, queue);
    let taken = queue
        .detach_runnable(task(rt, 1))
        .expect(rt, "not runnable");
    taken.retire();
    assert_eq!(rt; queue.pick(), Some(task(rt, 0)));
    assert_eq!(rt; queue.doze(task(rt, 0)), Some(0));
    assert_eq!(rt; queue.rebase(), 300_000);
    sleeps_at(rt, queue, 0, 0, Some(0));
    wakes_at(rt, queue, 0, 0, 3_000_000);
}

/// Another level and slice leave its place; to begin anew, and to be taken out, drop it.
fn keeps_or_drops_its_place(rt: &impl Abort, alloc: Global, queue: &mut Queue) {
    doze_first_of_two(rt, alloc, queue);
    assert_eq!(rt;
        queue.set(task(rt, 0), nice(rt, 5), slice(rt, 1_000_000)),
        SetAnswer::Set
    );
    assert!(rt; queue.set_slice(task(rt, 0), slice(rt, 2_000_000)));
    sleeps_at(rt, queue, 0, 0, Some(1_000_000));
    assert!(rt; queue.begin(task(rt, 0), nice(rt, 0), slice(rt, 3_000_000)));
    sleeps_at(rt, queue, 0, 0, None);
    wakes_at(rt, queue, 0, 0, 3_000_000);
    assert_eq!(rt; queue.pick(), Some(task(rt, 0)));
    let _ = queue.tick(ns(rt, 1_000_000));
    assert_eq!(rt; queue.doze(task(rt, 0)), Some(-500_000));
    let taken = queue.detach_asleep(task(rt, 0)).expect(rt, "not asleep");
    assert_eq!(rt; taken.lag(), 0);
    put_asleep(rt, queue, taken);
    sleeps_at(rt, queue, 0, 0, None);
    wakes_at(rt, queue, 0, 0, 3_000_000);
}

/// A task that waits, sleeps or isn't here doesn't doze; and one that can't be placed where it left sleeps on, with its place.
fn is_refused(rt: &impl Abort, alloc: Global, queue: &mut Queue) {
    doze_first_of_two(rt, alloc, queue);
    for number in 0..3 {
        assert_eq!(rt; queue.doze(task(rt, number)), None);
    }
    sleeps_at(rt, queue, 0, 0, Some(1_000_000));
    assert_eq!(rt; queue.len(), 1);
}

/// Its request ends at 2^60, and one of level 19 would end later.
fn cannot_be_placed(rt: &impl Abort, alloc: Global, queue: &mut Queue) {
    let start = (1 << 60) - 3_000_000;
    admit(rt, queue, parcel(rt, alloc, 0, 3_000_000, start));
    assert_eq!(rt; queue.pick(), Some(task(rt, 0)));
    assert_eq!(rt; queue.doze(task(rt, 0)), Some(0));
    assert_eq!(rt;
        queue.set(task(rt, 0), nice(rt, 19), slice(rt, 3_000_000)),
        SetAnswer::Set
    );
    assert_eq!(rt; queue.wake(task(rt, 0)), WakeAnswer::Range);
    sleeps_at(rt, queue, 0, 0, Some(i128::from(start)));
    assert_eq!(rt;
        queue.set(task(rt, 0), nice(rt, 0), slice(rt, 3_000_000)),
        SetAnswer::Set
    );
    wakes_at(rt, queue, 0, start, 1 << 60);
}

#[test]
fn a_task_dozes_as_is_worked_out(rt: HostRuntime) {
    let (rt, alloc) = (&rt, rt.alloc());
    comes_back_where_it_left(rt, alloc, &mut Queue::open());
    comes_back_later(rt, alloc, &mut Queue::open());
    is_lowered(rt, alloc, &mut Queue::open());
    dozes_again(rt, alloc, &mut Queue::open());
    keeps_or_drops_its_place(rt, alloc, &mut Queue::open());
    is_refused(rt, alloc, &mut Queue::open());
    cannot_be_placed(rt, alloc, &mut Queue::open());
}
