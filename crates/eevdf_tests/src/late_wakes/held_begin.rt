//! A begin that waits for the lock of its queue: until it is done no task has its number.

ghost use Rattle.std.specs.Prelude.{◌≡◌};

use super::{Machine, OnCpu, open};
use crate::fixtures::{cpu, on_two_cpus, task};
use crate::kits::endless_kit_of;
use eevdf_fleet::Names;
use eevdf_fleet::endless::{Fleet, Kit, Seat};
use eevdf_live_tasks::LiveTasks;
use eevdf_ops::Setup;
use eevdf_queue::TaskId;
use eevdf_weight::{Nice, Slice};
use std::alloc::Global;
use std::marker::Brand;
use std::process::Abort;
use std::sync::Wait;
use std::sync::atomic::{AtomicBool, Ordering};
use std::thread::{Threads, join, yield_now};

/// So many turns a thread waits at most for the other one.
const TURNS: u64 = 100_000;

/// So many times the one that has the lock then looks whether a task has the number. The other one comes to its begin meanwhile.
const LOOKS: u64 = 1_000;

/// What two threads tell one another, of which one holds the lock of a queue and the other begins a task there.
#[derive(Drop)]
struct HeldBegin {
    number: TaskId,
    is_locked: AtomicBool,
    is_coming: AtomicBool,
    has_number_early: AtomicBool,
}

/// Turns until the signal is given, or for the last time.
fn await_signal(signal: &AtomicBool) {
    for _turn in 0..TURNS {
        if signal.load(Ordering::SeqCst) {
            return;
        }
        yield_now();
    }
}

impl HeldBegin {
    /// Looks at the queue of the first CPU, whose lock it holds while the other thread comes to its begin, and for some time more.
    fn hold<N: Names, R: Wait + Abort>(
        &self,
        rt: &R,
        fleet: &Fleet<N>,
        live: &LiveTasks,
        mut seat: Seat<N>,
    ) {
        let first = cpu(rt, 0);
        assert!(rt; fleet.has_cpu(first));
        fleet.look(rt, &mut seat, first, |_queue| {
            // A thread that no longer waits for the lock to be taken may have begun the task before.
            let had_number = live.has(self.number);
            self.is_locked.store(true, Ordering::SeqCst);
            await_signal(&self.is_coming);
            if !had_number && self.comes_to_have_number(live) {
                self.has_number_early.store(true, Ordering::SeqCst);
            }
        });
    }

    /// Whether a task has the number at one of the looks.
    fn comes_to_have_number(&self, live: &LiveTasks) -> bool {
        for _look in 0..LOOKS {
            if live.has(self.number) {
                return true;
            }
            yield_now();
        }
        false
    }

    /// Begins a task on the first CPU, whose lock the other thread holds, and says whether it has this number.
    fn begin<N: Names, R: Wait>(
        &self,
        rt: &R,
        fleet: &Fleet<N>,
        live: &LiveTasks,
        on_cpu: OnCpu<N>,
    ) -> bool {
        let OnCpu {
            mut seat,
            mut free,
            wakes: _,
        } = on_cpu;
        await_signal(&self.is_locked);
        self.is_coming.store(true, Ordering::SeqCst);
        let (nice, slice) = (Nice::default(), Slice::default());
        live.begin(rt, fleet, &mut seat, &mut free, nice, slice) == Some(self.number)
    }
}

/// Lets one thread begin a task while another holds the lock of its queue, and says whether the task has the number in the end.
fn begin_held<N: Names + Send + Sync, R: Threads + Wait + Abort + Sync>(
    rt: &R,
    alloc: Global,
    setup: &Setup,
    kit: Kit,
    held: &HeldBegin,
) -> bool
    requires { kit ≡ N.kit }
{
    let Machine {
        fleet,
        live,
        first,
        second,
    } = open::<N>(rt, alloc, setup, kit);
    let (fleet, live) = (&fleet, &live);
    let ((), has_begun) = join(
        rt,
        move || held.hold(rt, fleet, live, second.seat),
        move || held.begin(rt, fleet, live, first),
    );
    has_begun && live.has(held.number)
}

#[test]
fn no_task_has_a_number_before_its_begin_is_done(rt: HostRuntime) {
    let setup = on_two_cpus(&rt, rt.alloc(), &[(0, true), (1, true)]);
    let kit = endless_kit_of(&rt, rt.alloc(), &setup, 4);
    let held = HeldBegin {
        number: task(&rt, 0),
        is_locked: AtomicBool::new(false),
        is_coming: AtomicBool::new(false),
        has_number_early: AtomicBool::new(false),
    };
    assert!(rt; begin_held::<Brand, _>(&rt, rt.alloc(), &setup, kit, &held));
    assert!(rt; !held.has_number_early.load(Ordering::SeqCst));
}
