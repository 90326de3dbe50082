//! Two threads operate a fleet that keeps no history at the same time, each by a seat of its own.

ghost use Rattle.std.specs.Prelude.{◌≡◌};
ghost use Rattle.eevdf_fleet.specs.Fleets.{setup_of};

use super::closed;
use crate::fixtures::{give_back, ns, one_task_each, take_pair, task};
use crate::kits::endless_kit_of;
use crate::seats::CallingSeat;
use eevdf_fleet::Names;
use eevdf_fleet::endless::{Fleet, Kit, Seat};
use eevdf_ops::{Op, Outcome};
use std::alloc::Global;
use std::hint::spin_loop;
use std::marker::Brand;
use std::process::Abort;
use std::sync::Wait;
use std::sync::atomic::{AtomicBool, Ordering};
use std::thread::{Threads, join};

/// So many turns a thread waits at most for the other.
const TURNS: u64 = 100_000_000;

/// What two threads tell one another, of which one holds a lock and the other works beside it.
#[derive(Drop)]
struct Signals {
    is_looking: AtomicBool,
    is_done: AtomicBool,
    is_given_up: AtomicBool,
}

impl Signals {
    fn new() -> Signals {
        Signals {
            is_looking: AtomicBool::new(false),
            is_done: AtomicBool::new(false),
            is_given_up: AtomicBool::new(false),
        }
    }

    /// Turns until the signal is given, and notes where it isn't.
    fn await_signal(&self, signal: &AtomicBool) {
        for _turn in 0..TURNS {
            if signal.load(Ordering::SeqCst) {
                return;
            }
            spin_loop();
        }
        self.is_given_up.store(true, Ordering::SeqCst);
    }

    /// Looks at the seat's own queue, whose lock it holds until the other thread has done its calls.
    fn hold<N: Names, R: Wait>(&self, rt: &R, fleet: &Fleet<N>, mut seat: Seat<N>) -> Seat<N> {
        let cpu = seat.cpu();
        fleet.look(rt, &mut seat, cpu, |_queue| {
            self.is_looking.store(true, Ordering::SeqCst);
            self.await_signal(&self.is_done);
        });
        seat
    }

    /// Calls of the other CPU, and a post to the one whose lock is held.
    fn work<N: Names, R: Wait + Abort>(
        &self,
        rt: &R,
        fleet: &Fleet<N>,
        mut seat: Seat<N>,
    ) -> Seat<N> {
        let tick = Op::Tick(ns(rt, 1_000));
        let post = Op::Post(task(rt, 0));
        self.await_signal(&self.is_looking);
        for operation in [Op::Pick, tick, post, Op::Drain] {
            let _came = seat.call(rt, fleet, operation);
        }
        self.is_done.store(true, Ordering::SeqCst);
        seat
    }
}

/// What a fleet is closed to when one thread held the lock of CPU 0 while another did the calls of CPU 1.
fn one_holds<N: Names + Send + Sync, R: Threads + Wait + Abort + Sync>(
    rt: &R,
    alloc: Global,
    kit: Kit,
    signals: &Signals,
) -> Option<Outcome>
    requires { kit ≡ N.kit }
{
    let (fleet, mut seats) = Fleet::<N>::open(alloc, kit).expect(rt, "memory");
    let (zero, one) = take_pair(rt, &mut seats);
    let shared = &fleet;
    let (zero, one) = join(
        rt,
        move || signals.hold(rt, shared, zero),
        move || signals.work(rt, shared, one),
    );
    give_back(rt, &mut seats, (zero, one));
    closed(alloc, fleet, seats)
}

/// A thread that holds the lock of its own queue keeps no other CPU from its calls, and none from a post to its own.
#[test]
fn a_cpu_goes_on_while_another_is_locked(rt: HostRuntime) {
    let setup = one_task_each(&rt, rt.alloc(), 2);
    let kit = endless_kit_of(&rt, rt.alloc(), &setup, 1);
    let signals = Signals::new();
    let outcome = one_holds::<Brand, _>(&rt, rt.alloc(), kit, &signals).expect(&rt, "outcome");
    assert!(rt; !signals.is_given_up.load(Ordering::SeqCst));
    assert!(rt; outcome.cpus() == 2);
    assert!(rt; outcome.queue(0).running() == None);
    assert!(rt; outcome.queue(1).running().is_some());
    assert!(rt; outcome.left(1, 0).len() == 1);
}
