//! Worked values of the calls of one queue.

use crate::fixtures::{
    admit, attach, charge_first, charge_first_of_two, ns, parcel, put_asleep, task,
};
use eevdf_queue::{Queue, TickAnswer, WakeAnswer, YieldAnswer};
use eevdf_weight::{Nice, Slice};
use std::alloc::Global;
use std::process::Abort;

/// Where a task is to stand in a queue.
#[derive(Clone, Copy)]
struct Place {
    v: i64,
    d: i64,
    lag: i64,
}

/// Asks that a task is runnable, and stands at this place.
fn stands_at(rt: &impl Abort, queue: &Queue, number: u64, place: &Place) {
    let task = task(rt, number);
    let entry = queue.entry(task).expect(rt, "not runnable");
    assert_eq!(rt; entry.v, place.v);
    assert_eq!(rt; entry.d, place.d);
    assert_eq!(rt; queue.lag_of(task), Some(place.lag));
}

/// Puts a task to sleep in an empty queue.
fn sleeps(rt: &impl Abort, alloc: Global, queue: &mut Queue) {
    let sleeper = parcel(rt, alloc, 7, 3_000_000, 5);
    assert_eq!(rt; sleeper.start(), 5);
    assert_eq!(rt; sleeper.lag(), 0);
    assert_eq!(rt; Some(sleeper.nice()), Nice::new(0));
    assert_eq!(rt; Some(sleeper.slice()), Slice::new(3_000_000));
    put_asleep(rt, queue, sleeper);
    assert!(rt; queue.asleep(task(rt, 7)));
    assert_eq!(rt; queue.lag_of(task(rt, 7)), Some(0));
    assert_eq!(rt; queue.lag_of(task(rt, 8)), None);
    assert_eq!(rt; queue.pick(), None);
    assert_eq!(rt; queue.floor_time(), 0);
}

/// Takes the waiting one of two tasks out and puts it back, and then the running one yields.
fn leaves_and_joins(rt: &impl Abort, alloc: Global, queue: &mut Queue) {
    charge_first_of_two(rt, alloc, queue);
    let waiting = queue.candidate().expect(rt, "nobody waits");
    let pulled = queue.detach(waiting);
    assert_eq!(rt; pulled.task().get(), 1);
    assert_eq!(rt; pulled.lag(), 500_000);
    assert_eq!(rt; queue.floor_time(), 1_000_000);
    attach(rt, queue, pulled);
    let joined = Place {
        v: 0,
        d: 3_000_000,
        lag: 500_000,
    };
    stands_at(rt, queue, 1, &joined);
    assert_eq!(rt; queue.yield_now(), YieldAnswer::Yielded);
    let yielded = Place {
        v: 1_000_000,
        d: 6_000_000,
        lag: -500_000,
    };
    stands_at(rt, queue, 0, &yielded)
}

/// Puts the running one of two tasks to sleep, and wakes it.
fn sleeps_and_wakes(rt: &impl Abort, alloc: Global, queue: &mut Queue) {
    charge_first_of_two(rt, alloc, queue);
    let sleeper = queue.detach_running(task(rt, 0)).expect(rt, "not running");
    assert_eq!(rt; queue.yield_now(), YieldAnswer::Idle);
    put_asleep(rt, queue, sleeper);
    assert_eq!(rt; queue.lag_of(task(rt, 0)), Some(-500_000));
    assert_eq!(rt; queue.wake(task(rt, 0)), WakeAnswer::Woken);
    assert_eq!(rt; queue.wake(task(rt, 0)), WakeAnswer::Awake);
    let woken = Place {
        v: 1_000_000,
        d: 4_000_000,
        lag: -500_000,
    };
    stands_at(rt, queue, 0, &woken)
}

/// Of two tasks the one that waits runs where it is adopted, and the other one waits. Neither moves. A task that isn't here, or
/// sleeps here, doesn't run.
fn adopts_who_waits(rt: &impl Abort, alloc: Global, queue: &mut Queue) {
    charge_first_of_two(rt, alloc, queue);
    put_asleep(rt, queue, parcel(rt, alloc, 2, 3_000_000, 0));
    assert!(rt; queue.adopt(task(rt, 1)));
    assert_eq!(rt; queue.running(), Some(task(rt, 1)));
    assert_eq!(rt; queue.candidate(), Some(task(rt, 0)));
    let waiting = Place {
        v: 1_000_000,
        d: 3_000_000,
        lag: -500_000,
    };
    stands_at(rt, queue, 0, &waiting);
    for number in 1..4 {
        assert_eq!(rt; queue.adopt(task(rt, number)), number == 1);
        assert_eq!(rt; queue.running(), Some(task(rt, 1)));
    }
    assert_eq!(rt; queue.yield_now(), YieldAnswer::Yielded);
    let yielded = Place {
        v: 0,
        d: 6_000_000,
        lag: 500_000,
    };
    stands_at(rt, queue, 1, &yielded);
}

/// A charge tells the entry of before it, also where it uses the request up, which task 0 has at 3 ms.
fn tells_the_entry_of_before(rt: &impl Abort, alloc: Global, queue: &mut Queue) {
    let nobody = queue.tick_from(ns(rt, 1_000_000));
    assert_eq!(rt; nobody.answer, TickAnswer::Idle);
    assert_eq!(rt; nobody.before, None);
    charge_first_of_two(rt, alloc, queue);
    let charged = queue.tick_from(ns(rt, 2_000_000));
    let task = task(rt, 0);
    let resched = true;
    assert_eq!(rt; charged.answer, TickAnswer::Charged { task, resched });
    let before = charged.before.expect(rt, "nobody ran");
    assert_eq!(rt; before.v, 1_000_000);
    assert_eq!(rt; before.d, 3_000_000);
    let renewed = Place {
        v: 3_000_000,
        d: 6_000_000,
        lag: -1_500_000,
    };
    stands_at(rt, queue, 0, &renewed)
}

/// Asks that this task, which has nice level 0, is offered with this slice and lag.
fn is_offered(rt: &impl Abort, queue: &Queue, number: u64, slice_ns: u64, lag: i64) {
    let offer = queue.offer().expect(rt, "nobody waits");
    assert_eq!(rt; offer.task().get(), number);
    assert_eq!(rt; Some(offer.nice()), Nice::new(0));
    assert_eq!(rt; Some(offer.slice()), Slice::new(slice_ns));
    assert_eq!(rt; offer.lag(), lag);
}

/// Of two tasks of equal weight one has run for a million nanoseconds, so the other is owed half of them.
fn offers_who_waits(rt: &impl Abort, alloc: Global, queue: &mut Queue) {
    assert!(rt; queue.offer().is_none());
    charge_first_of_two(rt, alloc, queue);
    is_offered(rt, queue, 1, 3_000_000, 500_000);
    let offered = queue.offer().expect(rt, "nobody waits").task();
    queue.detach(offered).retire();
    assert!(rt; queue.offer().is_none());
}

/// The same with short slices. The task that ran has the latest deadline, and isn't offered. The other one keeps of what it is
/// owed two slices.
fn offers_a_lag_at_its_limit(rt: &impl Abort, alloc: Global, queue: &mut Queue) {
    admit(rt, queue, parcel(rt, alloc, 0, 100_000, 0));
    admit(rt, queue, parcel(rt, alloc, 1, 200_000, 0));
    charge_first(rt, queue, true);
    assert_eq!(rt; queue.floor_time(), 500_000);
    is_offered(rt, queue, 1, 200_000, 400_000);
}

#[test]
fn a_queue_comes_to_what_is_worked_out(rt: HostRuntime) {
    let (rt, alloc) = (&rt, rt.alloc());
    sleeps(rt, alloc, &mut Queue::open());
    leaves_and_joins(rt, alloc, &mut Queue::open());
    sleeps_and_wakes(rt, alloc, &mut Queue::open());
    adopts_who_waits(rt, alloc, &mut Queue::open());
    tells_the_entry_of_before(rt, alloc, &mut Queue::open());
    offers_who_waits(rt, alloc, &mut Queue::open());
    offers_a_lag_at_its_limit(rt, alloc, &mut Queue::open());
}
