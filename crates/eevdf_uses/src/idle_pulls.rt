//! Threads that share a fleet which keeps no history, one for each CPU, until a clock says stop. Tasks sleep and are woken by requests of
//! other CPUs, and a CPU that has nothing to run looks for work on the others and picks next.

ghost use Rattle.std.specs.Prelude.{◌≡◌};

use crate::machines::{empty_programs, task_at};
use eevdf_fleet::endless::{Closed, Fleet, Kit, Seat, SeatTurn, run_turns};
use eevdf_fleet::{Names, RunFault};
use eevdf_ops::{Answer, CpuId, Setup, SetupFault};
use eevdf_queue::TaskId;
use eevdf_weight::Ns;
use std::alloc::Global;
use std::ops::ControlFlow;
use std::sync::Wait;
use std::sync::atomic::{AtomicU64, Ordering};
use std::thread::Threads;

/// The turns of the CPUs until a clock has come to an end. The clock is the caller's own, and the threads share it: here it goes on by
/// one with each turn.
#[derive(Drop)]
pub struct UntilEnd {
    pub clock: AtomicU64,
    pub end: u64,
}

impl SeatTurn for UntilEnd {
    fn turn<N: Names, R: Wait>(
        &self,
        rt: &R,
        fleet: &Fleet<N>,
        seat: &mut Seat<N>,
    ) -> ControlFlow<()> {
        run_next(rt, fleet, seat);
        if self.clock.fetch_add(1, Ordering::SeqCst) < self.end {
            ControlFlow::Continue(())
        } else {
            ControlFlow::Break(())
        }
    }
}

/// Wakes the tasks that others ask this CPU to wake, and runs its next task until that has used up its request, or for 2 ms, if that is
/// sooner. A CPU that has none looks for one on the others, and what it does next on its queue is the pick: so what it found runs.
fn run_next<N: Names, R: Wait>(rt: &R, fleet: &Fleet<N>, seat: &mut Seat<N>)
    ensures { seat.new.cpu ≡ seat.old.cpu }
{
    let _ = fleet.drain(rt, seat);
    if !has_next(rt, fleet, seat) {
        let _ = fleet.find_work(rt, seat);
    }
    let Answer::Picked(task) = fleet.pick(rt, seat) else {
        return;
    };
    let time = time_to_run(rt, fleet, seat);
    let charged = fleet.tick(rt, seat, time);
    if matches!(charged, Answer::Charged { resched: true, .. }) {
        sleep_and_ask(rt, fleet, seat, task);
    }
}

/// Whether a pick would find a task to run.
fn has_next<N: Names, R: Wait>(rt: &R, fleet: &Fleet<N>, seat: &mut Seat<N>) -> bool
    ensures { seat.new.cpu ≡ seat.old.cpu }
{
    let cpu = seat.cpu();
    if !fleet.has_cpu(cpu) {
        return false;
    }
    let first = fleet.look(rt, seat, cpu, |queue| queue.peek());
    first.is_some()
}

/// How long the running task runs before it is charged.
fn time_to_run<N: Names, R: Wait>(rt: &R, fleet: &Fleet<N>, seat: &mut Seat<N>) -> Ns
    ensures { seat.new.cpu ≡ seat.old.cpu }
{
    let most = Ns::new(2_000_000).unwrap();
    let cpu = seat.cpu();
    if !fleet.has_cpu(cpu) {
        return most;
    }
    let left = fleet.look(rt, seat, cpu, |queue| queue.time_to_resched());
    match left {
        Some(left) if left < most => left,
        _ => most,
    }
}

/// A task that has used up its request sleeps at its home, and the CPU on which it ran asks the home to wake it. Each task has one
/// request at most that no drain has taken, so a ring with room for all tasks is never full; in another one the task comes back in
/// `RingFull`, and the caller would have to ask again later.
fn sleep_and_ask<N: Names, R: Wait>(rt: &R, fleet: &Fleet<N>, seat: &mut Seat<N>, task: TaskId)
    ensures { seat.new.cpu ≡ seat.old.cpu }
{
    if fleet.has_task(task) {
        let _ = fleet.sleep(rt, seat, task);
        let _ = seat.post(task);
    }
}

/// Runs the CPUs of a setup, each by a thread of its own, for so many turns, all together.
pub fn until_end<R: Threads + Wait + Sync>(
    rt: &R,
    alloc: Global,
    setup: &Setup,
    end: u64,
) -> Result<Closed, RunFault> {
    let kit = Kit::make(alloc, setup, 64)?;
    let clock = AtomicU64::new(0);
    run_turns(rt, alloc, kit, &UntilEnd { clock, end })
}

/// Four CPUs, of which the first has three tasks and the others none.
pub fn three_at_one(alloc: Global) -> Result<Setup, SetupFault> {
    let programs = empty_programs(alloc, 4)?;
    let task = || task_at(CpuId::new(0).unwrap(), false);
    Setup::make(alloc, &[task(), task(), task()], &programs)
}
