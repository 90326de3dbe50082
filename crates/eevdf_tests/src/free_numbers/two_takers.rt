//! Two threads take numbers out of the same places at the same time: each number comes to one of them alone.

use crate::fixtures::{asleep_at_each, cpu, task};
use eevdf_free_tasks::{FreeTasks, TakenTasks};
use eevdf_ops::Setup;
use std::alloc::Global;
use std::process::Abort;
use std::sync::atomic::{AtomicUsize, Ordering};
use std::thread::{Threads, join, yield_now};

/// How many places there are.
const NUMBERS: usize = 1000;

/// How often the places are filled, and both threads go through them.
const ROUNDS: usize = 400;

/// So many times a thread looks at most whether the other one has come. Where that is late it begins alone.
const LOOKS: u64 = 100_000;

/// Places with a number in each, and how many of the two threads have come to them.
#[derive(Drop)]
struct FullPlaces {
    places: TakenTasks,
    come: AtomicUsize,
}

impl FullPlaces {
    fn new(rt: &impl Abort, alloc: Global, setup: &Setup) -> FullPlaces {
        let mut free = FreeTasks::of_home(alloc, setup, cpu(rt, 0)).expect(rt, "memory");
        let places = TakenTasks::new(alloc, setup).expect(rt, "memory");
        for _number in 0..NUMBERS {
            let taken = free.take().expect(rt, "number");
            let back = places.put(taken).err();
            assert!(rt; back.map(|taken| taken.retire()).is_none());
        }
        FullPlaces {
            places,
            come: AtomicUsize::new(0),
        }
    }

    /// Takes each number that is in its place, beside the other thread, and says how many these are.
    fn take_all(&self, rt: &impl Abort) -> usize {
        self.meet();
        let mut count = 0usize;
        for number in 0..NUMBERS {
            let taken = self.places.take(task(rt, number as u64));
            if taken.map(|taken| taken.retire()).is_some() {
                count = count.saturating_add(1);
            }
        }
        count
    }

    /// Waits until both threads have come.
    fn meet(&self) {
        self.come.fetch_add(1, Ordering::SeqCst);
        for _look in 0..LOOKS {
            if self.come.load(Ordering::SeqCst) >= 2 {
                return;
            }
            yield_now();
        }
    }
}

/// How many numbers come to two threads.
fn taken_by_two<R: Threads + Abort + Sync>(rt: &R, full: &FullPlaces) -> usize {
    let (one, other) = join(rt, || full.take_all(rt), || full.take_all(rt));
    one.saturating_add(other)
}

#[test]
fn a_number_comes_to_one_of_two_threads(rt: HostRuntime) {
    let setup = asleep_at_each(&rt, rt.alloc(), 1, NUMBERS);
    for round in 0..ROUNDS {
        let full = FullPlaces::new(&rt, rt.alloc(), &setup);
        let count = taken_by_two(&rt, &full);
        assert!(rt; count == NUMBERS, "round {round}: {count} of {NUMBERS}");
    }
}
