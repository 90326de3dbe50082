//! What tasks lack of their shares, reckoned by hand.

use crate::kits::{admit, ns, task};
use eevdf_fair_queue::{FairQueue, ShareMark, Shares};
use eevdf_queue::TickAnswer;
use eevdf_weight::{Nice, Slice};
use std::alloc::Global;
use std::process::Abort;

/// Makes a task of a nice level runnable.
fn join(rt: &impl Abort, alloc: Global, queue: &mut FairQueue, number: u64, nice: i64) {
    let nice = Nice::new(nice).expect(rt, "nice");
    admit(rt, alloc, queue, task(rt, number), nice, Slice::default());
}

/// A queue with a task 0 of nice 0, which runs, and a task 1 of some level, with the mark of that one.
fn with_two(rt: &impl Abort, alloc: Global, nice: i64) -> (FairQueue, ShareMark) {
    let mut queue = FairQueue::open();
    join(rt, alloc, &mut queue, 0, 0);
    join(rt, alloc, &mut queue, 1, nice);
    queue.adopt(task(rt, 0));
    let mark = queue.share_mark(task(rt, 1)).expect(rt, "mark");
    (queue, mark)
}

/// What task 1 lacks at most.
fn lack(rt: &impl Abort, queue: &FairQueue, mark: ShareMark) -> Option<u128> {
    queue.share_bound(task(rt, 1), mark)
}

/// Of 4 ms one of two equal tasks has a half. Of 3 ms more, beside a third one, it has a third. Then it runs for 2 ms, of which a third is its
/// share: it lacks 3 ms and 2/3 ms and has had 2 ms. A rebase changes none of it.
#[test]
fn a_task_that_waits_lacks_its_share(rt: HostRuntime) {
    let rt = &rt;
    let (mut queue, mark) = with_two(rt, rt.alloc(), 0);
    assert_eq!(rt; lack(rt, &queue, mark), Some(0));
    queue.tick(ns(rt, 4_000_000));
    assert_eq!(rt; lack(rt, &queue, mark), Some(2_000_000));
    join(rt, rt.alloc(), &mut queue, 2, 0);
    queue.tick(ns(rt, 3_000_000));
    assert_eq!(rt; lack(rt, &queue, mark), Some(3_000_000));
    assert_eq!(rt; queue.rebase(), 3_000_000);
    assert_eq!(rt; lack(rt, &queue, mark), Some(3_000_000));
    queue.adopt(task(rt, 1));
    queue.tick(ns(rt, 2_000_000));
    assert_eq!(rt; lack(rt, &queue, mark), Some(1_666_667));
}

/// Who has had more than its share lacks nothing, and a later mark counts from its moment on.
#[test]
fn a_task_that_runs_lacks_nothing(rt: HostRuntime) {
    let rt = &rt;
    let (mut queue, mark) = with_two(rt, rt.alloc(), 0);
    queue.adopt(task(rt, 1));
    queue.tick(ns(rt, 4_000_000));
    assert_eq!(rt; lack(rt, &queue, mark), Some(0));
    let later = queue.share_mark(task(rt, 1)).expect(rt, "mark");
    queue.adopt(task(rt, 0));
    queue.tick(ns(rt, 1_000_000));
    assert_eq!(rt; lack(rt, &queue, mark), Some(0));
    assert_eq!(rt; lack(rt, &queue, later), Some(500_000));
}

/// A task of nice 5 weighs 335, and so has 335 of 1359 parts.
#[test]
fn a_share_goes_by_the_weight(rt: HostRuntime) {
    let rt = &rt;
    let (mut queue, mark) = with_two(rt, rt.alloc(), 5);
    queue.tick(ns(rt, 1_359_000));
    assert_eq!(rt; lack(rt, &queue, mark), Some(335_000));
}

/// A tick of a nanosecond charges a task of nice -20 nothing, but the share of task 1 grows by 1024 of 89785 parts of it: of 1000 ticks by
/// 11.4 ns.
#[test]
fn short_ticks_count(rt: HostRuntime) {
    let rt = &rt;
    let mut queue = FairQueue::open();
    join(rt, rt.alloc(), &mut queue, 0, -20);
    join(rt, rt.alloc(), &mut queue, 1, 0);
    let mark = queue.share_mark(task(rt, 1)).expect(rt, "mark");
    queue.adopt(task(rt, 0));
    for _tick in 0..1000 {
        queue.tick(ns(rt, 1));
    }
    assert_eq!(rt; lack(rt, &queue, mark), Some(12));
    assert_eq!(rt; queue.queue().floor_time(), 0);
}

/// A task that sleeps, or isn't there, lacks nothing that can be told.
#[test]
fn only_runnable_tasks_are_told_of(rt: HostRuntime) {
    let rt = &rt;
    let (mut queue, mark) = with_two(rt, rt.alloc(), 0);
    queue.adopt(task(rt, 1));
    assert_eq!(rt; queue.sleep(task(rt, 1)), Some(0));
    assert_eq!(rt; lack(rt, &queue, mark), None);
    assert_eq!(rt; queue.share_mark(task(rt, 1)), None);
    assert_eq!(rt; queue.share_mark(task(rt, 2)), None);
}

/// Charges whoever runs, and tells the shares beside the queue of it.
fn tick(rt: &impl Abort, shares: &mut Shares, queue: &mut FairQueue, time: u64) {
    let time = ns(rt, time);
    if let TickAnswer::Charged { .. } = queue.tick(time) {
        shares.charge(time, queue.queue());
    }
}

/// What lies beside a queue goes by the load that each tick finds. A third task that comes and leaves between two ticks changes nothing,
/// and one that stays does: of 4 ms task 1 has a half, of 3 ms a third. A rebase that is told changes nothing either.
#[test]
fn shares_can_stand_beside_a_queue(rt: HostRuntime) {
    let rt = &rt;
    let (mut queue, _mark) = with_two(rt, rt.alloc(), 0);
    let mut shares = Shares::start();
    let one = task(rt, 1);
    let mark = shares.share_mark(queue.queue(), one).expect(rt, "mark");
    tick(rt, &mut shares, &mut queue, 1_000_000);
    join(rt, rt.alloc(), &mut queue, 2, 0);
    if let Some(parcel) = queue.detach_runnable(task(rt, 2)) {
        parcel.retire();
    }
    tick(rt, &mut shares, &mut queue, 3_000_000);
    assert_eq!(rt;
        shares.share_bound(queue.queue(), one, mark),
        Some(2_000_000)
    );
    join(rt, rt.alloc(), &mut queue, 3, 0);
    tick(rt, &mut shares, &mut queue, 3_000_000);
    assert_eq!(rt;
        shares.share_bound(queue.queue(), one, mark),
        Some(3_000_000)
    );
    let by = queue.rebase();
    assert_eq!(rt; by, 3_000_000);
    shares.lower(by);
    assert_eq!(rt;
        shares.share_bound(queue.queue(), one, mark),
        Some(3_000_000)
    );
    assert_eq!(rt; shares.share_mark(queue.queue(), task(rt, 2)), None);
    assert_eq!(rt; shares.share_bound(queue.queue(), task(rt, 2), mark), None);
}
