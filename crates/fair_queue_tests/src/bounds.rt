//! Bounds that are reckoned by hand.

use crate::kits::{admit, lateness, ns, task};
use eevdf_fair_queue::{Bounds, FairQueue};
use eevdf_queue::{Parcel, Queue, Refused};
use eevdf_weight::{Nice, Slice};
use std::alloc::Global;
use std::process::Abort;

/// Makes a task of nice 0 runnable.
fn join(rt: &impl Abort, alloc: Global, queue: &mut FairQueue, number: u64, slice: Slice) {
    admit(rt, alloc, queue, task(rt, number), Nice::default(), slice);
}

/// A queue in which task 0 has run for 1 ms of its 3 ms, as task 1 came, which is due before it.
fn with_one_before_the_pick(rt: &impl Abort, alloc: Global) -> FairQueue {
    let mut queue = FairQueue::open();
    join(rt, alloc, &mut queue, 0, Slice::default());
    queue.pick();
    queue.tick(ns(rt, 1_000_000));
    join(rt, alloc, &mut queue, 1, Slice::MIN);
    queue
}

/// Nothing is late where nothing is runnable.
#[test]
fn an_empty_queue_has_no_late_request(rt: HostRuntime) {
    let rt = &rt;
    let mut queue = FairQueue::open();
    assert_eq!(rt; queue.lateness_bound(), 0);
    assert_eq!(rt; queue.lateness_bound_of(task(rt, 0)), None);
    assert_eq!(rt; queue.pick(), None);
}

/// Two tasks with slices of 3 ms. Task 0 runs for 10 ms: the virtual time is 5000000, and task 1 is due at 3000000. It is late by 2000000,
/// and can be by 10000000, if it ran next and stopped right before its deadline, while the other's turn counts whole: for 20 ms, by the
/// load of two.
#[test]
fn a_long_turn_is_the_bound(rt: HostRuntime) {
    let rt = &rt;
    let mut queue = FairQueue::open();
    join(rt, rt.alloc(), &mut queue, 0, Slice::default());
    join(rt, rt.alloc(), &mut queue, 1, Slice::default());
    assert_eq!(rt; queue.pick(), Some(task(rt, 0)));
    queue.tick(ns(rt, 4_000_000));
    queue.tick(ns(rt, 6_000_000));
    assert_eq!(rt; lateness(rt, &queue), Some(2048 * 2_000_000));
    assert_eq!(rt; queue.lateness_bound(), 10_000_000);
    assert_eq!(rt; queue.lateness_bound_in_time(), 20_000_000);
    assert_eq!(rt;
        queue.bounds(),
        Bounds {
            front: 0,
            furthest: 10_000_000,
            longest: 10_000_000,
            turn: Some(10_000_000)
        }
    );
    assert_eq!(rt; queue.rebase(), 5_000_000);
    assert_eq!(rt;
        queue.bounds(),
        Bounds {
            front: -5_000_000,
            furthest: 5_000_000,
            longest: 10_000_000,
            turn: Some(10_000_000)
        }
    );
}

/// A task of a short slice comes while another one runs its turn. It is due before the pick, so the front comes to the furthest task, and the
/// turn isn't known until the next pick. As the other one runs on, the front goes with it.
#[test]
fn one_that_comes_before_the_pick_moves_the_front(rt: HostRuntime) {
    let rt = &rt;
    let mut queue = with_one_before_the_pick(rt, rt.alloc());
    assert_eq!(rt;
        queue.bounds(),
        Bounds {
            front: 1_000_000,
            furthest: 1_000_000,
            longest: 1_000_000,
            turn: None
        }
    );
    assert_eq!(rt; queue.lateness_bound(), 1_000_000);
    queue.tick(ns(rt, 5_000_000));
    assert_eq!(rt; queue.bounds().front, 6_000_000);
    assert_eq!(rt; queue.bounds().furthest, 6_000_000);
    assert_eq!(rt; queue.pick(), Some(task(rt, 1)));
    assert_eq!(rt; queue.bounds().turn, Some(0));
}

/// And once all deadlines are past the front, the bound is the longest turn alone.
#[test]
fn a_queue_heals(rt: HostRuntime) {
    let rt = &rt;
    let mut queue = with_one_before_the_pick(rt, rt.alloc());
    queue.tick(ns(rt, 5_000_000));
    assert_eq!(rt; queue.lateness_bound(), 4_900_000);
    for _turn in 0..10 {
        queue.pick();
        queue.tick(ns(rt, 1_000_000));
    }
    assert_eq!(rt; queue.lateness_bound(), 1_000_000);
}

/// Two tasks of slices of 10 ms and one of 0.1 ms run in turns of 1 ms. The third dozes off after each of its turns and wakes in the middle of
/// the next one, before the pick: the bound of the others stays the longest turn.
#[test]
fn a_doze_and_its_wake_leave_the_bound(rt: HostRuntime) {
    let rt = &rt;
    let long = Slice::new(10_000_000).expect(rt, "a slice");
    let mut queue = FairQueue::open();
    for number in 0..2 {
        join(rt, rt.alloc(), &mut queue, number, long);
    }
    join(rt, rt.alloc(), &mut queue, 2, Slice::MIN);
    for _turn in 0..100 {
        let picked = queue.pick();
        queue.tick(ns(rt, 500_000));
        queue.wake(task(rt, 2));
        queue.tick(ns(rt, 500_000));
        if picked == Some(task(rt, 2)) {
            queue.doze(task(rt, 2));
        }
        for number in 0..2 {
            assert_eq!(rt; queue.lateness_bound_of(task(rt, number)), Some(1_000_000));
        }
    }
}

/// A turn of 10 ms counts while the queue isn't empty, and no more where the bounds are measured: then task 0 is at 10000000 and task 1, which
/// has run for three turns of 3 ms, at 9000000 with its deadline at 12000000, so that nobody is past a deadline.
#[test]
fn a_long_turn_is_forgotten_where_bounds_are_measured(rt: HostRuntime) {
    let rt = &rt;
    let mut queue = FairQueue::open();
    join(rt, rt.alloc(), &mut queue, 0, Slice::default());
    join(rt, rt.alloc(), &mut queue, 1, Slice::default());
    assert_eq!(rt; queue.pick(), Some(task(rt, 0)));
    queue.tick(ns(rt, 10_000_000));
    for _turn in 0..3 {
        assert_eq!(rt; queue.pick(), Some(task(rt, 1)));
        queue.tick(ns(rt, 3_000_000));
    }
    assert_eq!(rt; queue.lateness_bound(), 10_000_000);
    queue.measure();
    assert_eq!(rt; queue.lateness_bound(), 0);
    assert_eq!(rt;
        queue.bounds(),
        Bounds {
            front: i64::MIN,
            furthest: 10_000_000,
            longest: 0,
            turn: Some(3_000_000)
        }
    );
}

/// Bounds of a queue that nobody kept any of: task 0 has run for 10 ms, and task 1 is due at 3000000.
#[test]
fn any_queue_can_be_measured(rt: HostRuntime) {
    let rt = &rt;
    let mut queue = Queue::open();
    for number in 0..2 {
        let parcel = Parcel::make(
            rt.alloc(),
            task(rt, number),
            Nice::default(),
            Slice::default(),
            0,
        )
        .expect(rt, "memory");
        if let Err(Refused { parcel, reason: _ }) = queue.try_admit(parcel) {
            parcel.retire();
        }
    }
    assert_eq!(rt; queue.pick(), Some(task(rt, 0)));
    queue.tick(ns(rt, 10_000_000));
    assert_eq!(rt; Bounds::of(&Queue::open()), Bounds::fresh());
    let queue = FairQueue::of(queue);
    assert_eq!(rt;
        queue.bounds(),
        Bounds {
            front: i64::MIN,
            furthest: 10_000_000,
            longest: 7_000_000,
            turn: None
        }
    );
    assert_eq!(rt; queue.lateness_bound(), 7_000_000);
}

/// Two tasks with slices of 3 ms, of which task 0 has run for 1 ms: its request is used up by 2 ms more, also where its slice is shorter
/// now, and task 1 alone is eligible. Then nobody runs. The bounds stay.
#[test]
fn who_runs_and_slices_leave_the_bounds(rt: HostRuntime) {
    let rt = &rt;
    let mut queue = FairQueue::open();
    join(rt, rt.alloc(), &mut queue, 0, Slice::default());
    join(rt, rt.alloc(), &mut queue, 1, Slice::default());
    assert_eq!(rt; queue.pick(), Some(task(rt, 0)));
    queue.tick(ns(rt, 1_000_000));
    let bounds = queue.bounds();
    assert_eq!(rt; queue.time_to_resched(), Some(ns(rt, 2_000_000)));
    assert_eq!(rt; queue.peek(), Some(task(rt, 1)));
    assert!(rt; queue.set_slice(task(rt, 0), Slice::MIN));
    assert_eq!(rt; queue.time_to_resched(), Some(ns(rt, 2_000_000)));
    assert_eq!(rt; queue.stop_running(), Some(task(rt, 0)));
    assert_eq!(rt; queue.time_to_resched(), None);
    assert_eq!(rt; queue.stop_running(), None);
    assert!(rt; !queue.set_slice(task(rt, 2), Slice::MIN));
    assert_eq!(rt; queue.bounds(), bounds);
}
