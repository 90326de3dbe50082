//! Calls after which the bound is hardly more than how late a request is.

use crate::kits::{lateness, ns, task, times};
use eevdf_fair_queue::FairQueue;
use eevdf_queue::{Parcel, Refused};
use eevdf_weight::{Nice, Slice};
use std::alloc::Global;
use std::process::Abort;

/// A task comes with a nice level and a slice, and starts at a virtual time.
fn join(
    rt: &impl Abort,
    alloc: Global,
    queue: &mut FairQueue,
    number: u64,
    (nice, slice): (i64, u64),
    start: i64,
) {
    let nice = Nice::new(nice).expect(rt, "nice");
    let slice = Slice::new(slice).expect(rt, "slice");
    let made = Parcel::make(alloc, task(rt, number), nice, slice, start);
    if let Err(Refused { parcel, reason: _ }) = queue.try_admit(made.expect(rt, "memory")) {
        parcel.retire();
    }
}

/// Looks whether a request is late by so much, times the load, and the bound is this one, and within 1.6 times of that.
fn expect_near(rt: &impl Abort, queue: &FairQueue, late: i128, bound: i64) {
    assert_eq!(rt; lateness(rt, queue), Some(late));
    assert_eq!(rt; queue.lateness_bound(), bound);
    let most = times(rt, bound, queue.queue().load());
    let five_times = most.checked_mul(5).expect(rt, "product");
    assert!(rt; five_times <= late.checked_mul(8).expect(rt, "product"));
}

/// A task of nice -20 runs on to 10002230 beside one of nice 0 that is due at 1000000, and the virtual time is 9888154.
#[test]
fn a_tick_is_late_by_nearly_the_bound(rt: HostRuntime) {
    let rt = &rt;
    let mut queue = FairQueue::open();
    join(rt, rt.alloc(), &mut queue, 0, (-20, 3_000_000), 0);
    join(rt, rt.alloc(), &mut queue, 1, (0, 1_000_000), 0);
    assert_eq!(rt; queue.pick(), Some(task(rt, 0)));
    queue.tick(ns(rt, 867_000_000));
    expect_near(rt, &queue, 798_022_937_030, 10_002_230);
}

/// A task of nice -20 starts at 10000000 beside one of nice 0 that is due at 1000000: the virtual time is 9885949.
#[test]
fn a_join_is_late_by_nearly_the_bound(rt: HostRuntime) {
    let rt = &rt;
    let mut queue = FairQueue::open();
    join(rt, rt.alloc(), &mut queue, 0, (0, 1_000_000), 0);
    queue.pick();
    join(rt, rt.alloc(), &mut queue, 1, (-20, 3_000_000), 10_000_000);
    expect_near(rt, &queue, 797_825_000_000, 9_000_000);
}

/// Task 0 falls asleep with the greatest debt, 2000000, beside one of nice -20, which ends. It wakes beside one of nice 19 alone, which
/// hasn't run and is due at 6826666: it is placed at 138533334, and the virtual time is 136533333.
#[test]
fn a_wake_is_late_by_nearly_the_bound(rt: HostRuntime) {
    let rt = &rt;
    let mut queue = FairQueue::open();
    join(rt, rt.alloc(), &mut queue, 0, (0, 1_000_000), 0);
    join(rt, rt.alloc(), &mut queue, 1, (19, 100_000), 0);
    join(rt, rt.alloc(), &mut queue, 2, (-20, 100_000_000), 0);
    assert_eq!(rt; queue.pick(), Some(task(rt, 0)));
    queue.tick(ns(rt, 10_000_000));
    assert_eq!(rt; queue.sleep(task(rt, 0)), Some(-2_000_000));
    if let Some(parcel) = queue.detach_runnable(task(rt, 2)) {
        parcel.retire();
    }
    queue.wake(task(rt, 0));
    expect_near(rt, &queue, 134_765_228_042, 131_706_668);
}

/// Task 0 has come at 20000000 beside one of nice 19 that is due at 6826666. It gets the level -10 in place of -20, with which it owes more
/// time, and is placed at 20032573.
#[test]
fn a_renice_is_late_by_nearly_the_bound(rt: HostRuntime) {
    let rt = &rt;
    let mut queue = FairQueue::open();
    join(rt, rt.alloc(), &mut queue, 1, (19, 100_000), 0);
    queue.pick();
    join(rt, rt.alloc(), &mut queue, 0, (-20, 3_000_000), 20_000_000);
    queue.renice(task(rt, 0), Nice::new(-10).expect(rt, "nice"));
    expect_near(rt, &queue, 125_987_600_046, 13_205_907);
}

/// The same by a set, which gives the task another slice besides: its request is as long as it was.
#[test]
fn a_set_is_late_by_nearly_the_bound(rt: HostRuntime) {
    let rt = &rt;
    let mut queue = FairQueue::open();
    join(rt, rt.alloc(), &mut queue, 1, (19, 100_000), 0);
    queue.pick();
    join(rt, rt.alloc(), &mut queue, 0, (-20, 3_000_000), 20_000_000);
    let nice = Nice::new(-10).expect(rt, "nice");
    queue.set(task(rt, 0), nice, Slice::new(5_000_000).expect(rt, "slice"));
    expect_near(rt, &queue, 125_987_600_046, 13_205_907);
}

/// Task 0 is taken out with the greatest debt, as it falls asleep above, and put back once the heavy task has ended.
#[test]
fn one_that_is_put_back_is_late_by_nearly_the_bound(rt: HostRuntime) {
    let rt = &rt;
    let mut queue = FairQueue::open();
    join(rt, rt.alloc(), &mut queue, 0, (0, 1_000_000), 0);
    join(rt, rt.alloc(), &mut queue, 1, (19, 100_000), 0);
    join(rt, rt.alloc(), &mut queue, 2, (-20, 100_000_000), 0);
    assert_eq!(rt; queue.pick(), Some(task(rt, 0)));
    queue.tick(ns(rt, 10_000_000));
    let away = queue.detach_runnable(task(rt, 0)).expect(rt, "task 0");
    assert_eq!(rt; away.lag(), -2_000_000);
    if let Some(parcel) = queue.detach_runnable(task(rt, 2)) {
        parcel.retire();
    }
    if let Err(Refused { parcel, reason: _ }) = queue.try_attach(away) {
        parcel.retire();
    }
    expect_near(rt, &queue, 134_765_228_042, 131_706_668);
}

/// A task of nice -20 runs on to 10002230, as above, but it wasn't picked: where it has come to is the front then, 9002230 past the deadline.
#[test]
fn a_tick_of_one_that_is_adopted_is_late_by_nearly_the_bound(rt: HostRuntime) {
    let rt = &rt;
    let mut queue = FairQueue::open();
    join(rt, rt.alloc(), &mut queue, 0, (-20, 3_000_000), 0);
    join(rt, rt.alloc(), &mut queue, 1, (0, 1_000_000), 0);
    assert_eq!(rt; queue.adopt(task(rt, 0)), true);
    queue.tick(ns(rt, 867_000_000));
    expect_near(rt, &queue, 798_022_937_030, 9_002_230);
}

/// It has run so far, dozes there, and wakes at its place: the other one is as late again.
#[test]
fn a_wake_at_a_place_is_late_by_nearly_the_bound(rt: HostRuntime) {
    let rt = &rt;
    let mut queue = FairQueue::open();
    join(rt, rt.alloc(), &mut queue, 0, (-20, 3_000_000), 0);
    join(rt, rt.alloc(), &mut queue, 1, (0, 1_000_000), 0);
    assert_eq!(rt; queue.pick(), Some(task(rt, 0)));
    queue.tick(ns(rt, 867_000_000));
    queue.doze(task(rt, 0));
    queue.wake(task(rt, 0));
    expect_near(rt, &queue, 798_022_937_030, 10_002_230);
}
