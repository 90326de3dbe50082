//! Wakes that come when their task has ended, and under whose number another one may have begun: no number runs without a task.

mod each_cpu;
mod held_begin;

ghost use Rattle.std.specs.Prelude.{◌≡◌};

use crate::fixtures::{cpu, on_two_cpus, task};
use crate::kits::endless_kit_of;
use eevdf_fleet::endless::{Fleet, Kit, Seat};
use eevdf_fleet::{DrainedWake, Names};
use eevdf_free_tasks::{FreePart, free_parts};
use eevdf_live_tasks::LiveTasks;
use eevdf_ops::{Answer, Setup};
use eevdf_weight::{Nice, Slice};
use std::alloc::Global;
use std::marker::Brand;
use std::process::Abort;
use std::sync::Wait;

/// A CPU of a machine whose tasks come and go.
#[derive(Drop)]
struct OnCpu<N: Names> {
    seat: Seat<N>,
    free: FreePart,
    wakes: Vec<DrainedWake>,
}

/// How many wakes a CPU's list has room for: more than come to it in a test, and one of each CPU.
const WAKES: usize = 100;

/// Two CPUs of a machine.
#[derive(Drop)]
struct Machine<N: Names> {
    fleet: Fleet<N>,
    live: LiveTasks,
    first: OnCpu<N>,
    second: OnCpu<N>,
}

/// Opens a machine of two CPUs.
fn open<N: Names>(rt: &impl Abort, alloc: Global, setup: &Setup, kit: Kit) -> Machine<N>
    requires { kit ≡ N.kit }
{
    open_beside(rt, alloc, setup, kit, 0)
}

/// Opens a machine, and keeps of its CPUs one and the one above.
fn open_beside<N: Names>(
    rt: &impl Abort,
    alloc: Global,
    setup: &Setup,
    kit: Kit,
    cpu: usize,
) -> Machine<N>
    requires { kit ≡ N.kit }
{
    let (fleet, mut seats) = Fleet::<N>::open(alloc, kit).expect(rt, "memory");
    let mut parts = free_parts(alloc, setup).expect(rt, "memory");
    let live = LiveTasks::open(alloc, setup, &mut parts).expect(rt, "memory");
    let above = cpu.saturating_add(1);
    assert!(rt; above < seats.len() && above < parts.len());
    let second = on_cpu(rt, alloc, seats.remove(above), parts.remove(above));
    let first = on_cpu(rt, alloc, seats.remove(cpu), parts.remove(cpu));
    Machine {
        fleet,
        live,
        first,
        second,
    }
}

fn on_cpu<N: Names>(rt: &impl Abort, alloc: Global, seat: Seat<N>, free: FreePart) -> OnCpu<N> {
    OnCpu {
        seat,
        free,
        wakes: Vec::with_capacity(alloc, WAKES).expect(rt, "memory"),
    }
}

impl<N: Names> Machine<N> {
    /// Asks that a task begins on the first CPU under this number, or that none begins.
    fn begins<R: Wait + Abort>(&mut self, rt: &R, number: Option<u64>) {
        let OnCpu {
            seat,
            free,
            wakes: _,
        } = &mut self.first;
        let (nice, slice) = (Nice::default(), Slice::default());
        let begun = self.live.begin(rt, &self.fleet, seat, free, nice, slice);
        assert!(rt; begun.map(|task| task.get()) == number);
        if let Some(task) = begun {
            assert!(rt; self.live.has(task));
        }
    }

    /// A task is asked to wake on the first CPU, by the second one, and comes to this answer.
    fn wakes<R: Wait + Abort>(&mut self, rt: &R, number: u64, answer: Answer, resched: bool) {
        self.second.posts(rt, &self.fleet, number);
        self.drains(rt, number, answer, resched);
    }

    /// The first CPU drains one request, which comes to this answer. The list keeps the wakes that came before.
    fn drains<R: Wait + Abort>(&mut self, rt: &R, number: u64, answer: Answer, resched: bool) {
        let OnCpu {
            seat,
            free: _,
            wakes,
        } = &mut self.first;
        let before = wakes.len();
        assert!(rt; self.fleet.cpus() <= wakes.capacity() - before);
        let listed = self.live.drain(rt, &self.fleet, seat, wakes);
        assert!(rt; listed.resched == resched && wakes.len() == before.saturating_add(1));
        let wake = wakes.last().expect(rt, "wake");
        assert!(rt; wake.task == task(rt, number) && wake.answer == answer);
    }

    /// Asks that the first CPU picks this task, or none.
    fn picks<R: Wait + Abort>(&mut self, rt: &R, number: Option<u64>) {
        let picked = self.live.pick(rt, &self.fleet, &mut self.first.seat);
        assert!(rt; picked.map(|task| task.get()) == number);
    }

    /// Asks that a task ends on the first CPU.
    fn ends<R: Wait + Abort>(&mut self, rt: &R, number: u64) {
        let OnCpu {
            seat,
            free,
            wakes: _,
        } = &mut self.first;
        let task = task(rt, number);
        assert!(rt; self.live.end(rt, &self.fleet, seat, free, task));
        assert!(rt; !self.live.end(rt, &self.fleet, seat, free, task));
        assert!(rt; !self.live.has(task));
    }
}

impl<N: Names> OnCpu<N> {
    /// Asks for a task to wake.
    fn posts(&mut self, rt: &impl Abort, fleet: &Fleet<N>, number: u64) {
        let task = task(rt, number);
        assert!(rt; fleet.has_task(task) && self.seat.post(task).is_ok());
    }
}

/// A task begins, runs and ends, and the wake comes once more, after that: nothing runs, and the number begins again.
fn ends_before_its_wake<N: Names, R: Wait + Abort>(rt: &R, alloc: Global, setup: &Setup, kit: Kit)
    requires { kit ≡ N.kit }
{
    let mut machine = open::<N>(rt, alloc, setup, kit);
    machine.begins(rt, Some(0));
    machine.begins(rt, None);
    machine.wakes(rt, 0, Answer::Woken, true);
    machine.picks(rt, Some(0));
    machine.wakes(rt, 0, Answer::Awake, false);
    machine.ends(rt, 0);
    machine.wakes(rt, 0, Answer::Woken, true);
    machine.begins(rt, Some(0));
    machine.picks(rt, None);
    machine.wakes(rt, 0, Answer::Woken, true);
    machine.picks(rt, Some(0));
}

/// Each CPU has a number, and both sleep.
const BOTH_ASLEEP: [(u64, bool); 2] = [(0, true), (1, true)];

#[test]
fn a_late_wake_leaves_no_number_without_a_task(rt: HostRuntime) {
    let setup = on_two_cpus(&rt, rt.alloc(), &BOTH_ASLEEP);
    let kit = endless_kit_of(&rt, rt.alloc(), &setup, 4);
    ends_before_its_wake::<Brand, _>(&rt, rt.alloc(), &setup, kit);
}

/// Makes a number runnable though no task has it, as a drain does that looks at no tasks.
fn wake_a_stray<N: Names, R: Wait + Abort>(rt: &R, machine: &mut Machine<N>, number: u64) {
    machine.second.posts(rt, &machine.fleet, number);
    let drained = machine.fleet.drain(rt, &mut machine.first.seat);
    assert!(rt; drained.woken == 1);
}

/// The second CPU pulls a task from the first one.
fn pull<N: Names, R: Wait + Abort>(rt: &R, machine: &mut Machine<N>, number: u64) {
    let first = cpu(rt, 0);
    let seat = &mut machine.second.seat;
    assert!(rt; machine.fleet.has_cpu(first) && first != seat.cpu());
    let pulled = machine.fleet.pull(rt, seat, first);
    assert!(rt; pulled == Answer::Pulled(task(rt, number)));
}

/// A stray that waits beside the task that runs, and that another CPU has pulled, is ended by its pick there. Until then its number can't
/// begin, and isn't lost.
fn is_pulled_before<N: Names, R: Wait + Abort>(rt: &R, alloc: Global, setup: &Setup, kit: Kit)
    requires { kit ≡ N.kit }
{
    let mut machine = open::<N>(rt, alloc, setup, kit);
    machine.picks(rt, Some(1));
    wake_a_stray(rt, &mut machine, 0);
    pull(rt, &mut machine, 0);
    machine.begins(rt, None);
    let seat = &mut machine.second.seat;
    assert!(rt; machine.live.pick(rt, &machine.fleet, seat).is_none());
    machine.begins(rt, Some(0));
    machine.begins(rt, None);
}

#[test]
fn a_stray_that_was_pulled_ends_at_its_pick(rt: HostRuntime) {
    let setup = on_two_cpus(&rt, rt.alloc(), &[(0, true), (0, false)]);
    let kit = endless_kit_of(&rt, rt.alloc(), &setup, 4);
    is_pulled_before::<Brand, _>(&rt, rt.alloc(), &setup, kit);
}

/// A stray and a task wait. The pick ends the stray, which comes first, and gives the task.
fn comes_before_a_task<N: Names, R: Wait + Abort>(rt: &R, alloc: Global, setup: &Setup, kit: Kit)
    requires { kit ≡ N.kit }
{
    let mut machine = open::<N>(rt, alloc, setup, kit);
    wake_a_stray(rt, &mut machine, 0);
    machine.begins(rt, None);
    machine.picks(rt, Some(1));
    machine.begins(rt, Some(0));
}

#[test]
fn a_stray_before_a_task_ends_at_the_pick(rt: HostRuntime) {
    let setup = on_two_cpus(&rt, rt.alloc(), &[(0, true), (0, false)]);
    let kit = endless_kit_of(&rt, rt.alloc(), &setup, 4);
    comes_before_a_task::<Brand, _>(&rt, rt.alloc(), &setup, kit);
}

/// Numbers wake beside the task that runs. One that no task has is ended, and so a pick is asked for; one that a task has isn't.
fn wake_beside_a_task<N: Names, R: Wait + Abort>(rt: &R, alloc: Global, setup: &Setup, kit: Kit)
    requires { kit ≡ N.kit }
{
    let mut machine = open::<N>(rt, alloc, setup, kit);
    machine.picks(rt, Some(0));
    machine.wakes(rt, 1, Answer::Woken, true);
    machine.begins(rt, Some(1));
    machine.wakes(rt, 1, Answer::Woken, false);
    machine.picks(rt, Some(0));
    machine.ends(rt, 0);
    machine.picks(rt, Some(1));
    machine.ends(rt, 1);
    machine.picks(rt, None);
}

#[test]
fn only_a_stray_ends_at_its_wake_beside_a_task(rt: HostRuntime) {
    let setup = on_two_cpus(&rt, rt.alloc(), &[(0, false), (0, true)]);
    let kit = endless_kit_of(&rt, rt.alloc(), &setup, 4);
    wake_beside_a_task::<Brand, _>(&rt, rt.alloc(), &setup, kit);
}

/// Of two tasks that the setup has awake on the first CPU one runs, and the other is pulled, runs on the second CPU and ends there. Its number
/// comes home.
fn ends_elsewhere<N: Names, R: Wait + Abort>(rt: &R, alloc: Global, setup: &Setup, kit: Kit)
    requires { kit ≡ N.kit }
{
    let mut machine = open::<N>(rt, alloc, setup, kit);
    machine.picks(rt, Some(0));
    pull(rt, &mut machine, 1);
    machine.begins(rt, None);
    let Machine {
        fleet,
        live,
        first: _,
        second,
    } = &mut machine;
    let OnCpu {
        seat,
        free,
        wakes: _,
    } = second;
    let one = task(rt, 1);
    assert!(rt; live.has(one) && live.pick(rt, fleet, seat) == Some(one));
    assert!(rt; live.end(rt, fleet, seat, free, one));
    machine.begins(rt, Some(1));
}

#[test]
fn a_number_comes_home_from_where_its_task_ended(rt: HostRuntime) {
    let setup = on_two_cpus(&rt, rt.alloc(), &[(0, false), (0, false)]);
    let kit = endless_kit_of(&rt, rt.alloc(), &setup, 4);
    ends_elsewhere::<Brand, _>(&rt, rt.alloc(), &setup, kit);
}
