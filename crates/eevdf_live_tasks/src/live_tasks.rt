ghost use Rattle.std.specs.Prelude.{◌≡◌, ◌+◌, ◌≤◌, length, vec_capacity, IfNone, IfSome, IsFalse, IsTrue, OnErr, OnOk};
ghost use Rattle.eevdf_ops.specs.Setup.{cpus_of};
ghost use Rattle.eevdf_ops.specs.declared.deeds.Answer.{Answer};
ghost use Rattle.eevdf_ops.specs.declared.deeds.Answer.TheVariants.{Begun, Idle, Picked, Woken};
ghost use Rattle.eevdf_ops.specs.declared.deeds.Deed.TheVariants as deed;
ghost use Rattle.eevdf_fleet.specs.Endless.{HasDone};
ghost use Rattle.eevdf_fleet.specs.Fleets.{setup_of};
ghost use Rattle.eevdf_live_tasks.specs.Lives.{HasBegun, HasDrainedTasks, HasEnded, HasEndedWoken};
ghost use Rattle.eevdf_live_tasks.specs.Openings.{AreKept, HasKept, kept};
ghost use Rattle.eevdf_live_tasks.specs.Lives.{HasNotBegun, HasPicked, IsBack, IsNotBegun};

use eevdf_fleet::endless::{Fleet, Seat};
use eevdf_fleet::{DrainedWake, ListedDrain, Names};
use eevdf_free_tasks::{FreePart, TakenTask, TakenTasks};
use eevdf_ops::{Answer, CpuId, Setup};
use eevdf_queue::TaskId;
use eevdf_weight::{Nice, Slice};
use std::alloc::{AllocError, Global};
use std::sync::Wait;

/// Which numbers of a machine tasks have, for all its threads. It has the value of each such number (`TakenTask`) until the task is ended.
/// Contracts don't say which numbers these are, as threads share them.
#[derive(Drop)]
pub struct LiveTasks {
    taken: TakenTasks,
    numbers: usize,
}

impl LiveTasks {
    /// The tasks that the setup has awake have their numbers, which are taken from the parts of their homes; the others are free. The parts
    /// are those of this setup's CPUs, in order. The answer is `AllocError` where memory is refused.
    pub fn open(
        alloc: Global,
        setup: &Setup,
        parts: &mut Vec<FreePart>,
    ) -> Result<LiveTasks, AllocError>
        ensures kept { OnOk result (AreKept setup.now (length setup.now.tasks) parts.old.items parts.new.items) }
        ensures unchanged { OnErr result (parts.new.items ≡ parts.old.items) }
    {
        let _few = setup.cpus();
        let live = LiveTasks {
            taken: TakenTasks::new(alloc, setup)?,
            numbers: setup.tasks(),
        };
        for number in 0..setup.tasks() {
            // No setup has more tasks than there are numbers.
            let Some(task) = TaskId::new(number as u64) else {
                unreachable!()
            };
            live.keep_at_home(parts, setup.spec(task).home, task);
        }
        Ok(live)
    }

    /// Whether a task has the number. Other threads may begin or end it at any time.
    pub fn has(&self, task: TaskId) -> bool {
        self.taken.has(task)
    }

    /// Lets a task begin at the seat's CPU, under a number of the part, which is that of this CPU; it sleeps until its first wake. `None`:
    /// no number is free, or the one that has been free longest couldn't begin, as a stray still runs or waits under it. That number is
    /// free again then, behind all others: where it is the only free one, the next call takes it again. `None` too where the part is that
    /// of another CPU, so that its numbers have other homes, or this is the `LiveTasks` of another setup or machine, whose place for the
    /// number isn't there or is full.
    pub fn begin<N: Names, R: Wait>(
        &self,
        rt: &R,
        fleet: &Fleet<N>,
        seat: &mut Seat<N>,
        free: &mut FreePart,
        nice: Nice,
        slice: Slice,
    ) -> Option<TaskId>
        ensures cpu { seat.new.cpu ≡ seat.old.cpu }
        ensures begun { IfSome result (λ task. HasBegun (setup_of N.kit) task nice slice seat.old seat.new free.old free.new) }
        ensures none { IfNone result (HasNotBegun (setup_of N.kit) nice slice seat.old seat.new free.old free.new) }
    {
        let taken = free.take()?;
        let task = taken.task();
        if !begins(rt, fleet, seat, task, nice, slice) {
            give_back(free, taken);
            return None;
        }
        if let Err(taken) = self.taken.put(taken) {
            give_back(free, taken);
            return None;
        }
        Some(task)
    }

    /// Drains as `Fleet::drain_into` does, and ends the strays: each number that woke here and that no task has. `resched` is `true` where
    /// a stray was ended too. The list has the wake of a stray as any other, with the answer `Woken`, though it was ended.
    pub fn drain<N: Names, R: Wait>(
        &self,
        rt: &R,
        fleet: &Fleet<N>,
        seat: &mut Seat<N>,
        wakes: &mut Vec<DrainedWake>,
    ) -> ListedDrain
        requires room { length wakes.old.items + cpus_of (setup_of N.kit) ≤ vec_capacity wakes.old }
        ensures cpu { seat.new.cpu ≡ seat.old.cpu }
        ensures drained { HasDrainedTasks (setup_of N.kit) result seat.old seat.new wakes.old.items wakes.new.items }
        ensures few { result.drained.taken ≤ cpus_of (setup_of N.kit) }
        ensures capacity { vec_capacity wakes.new ≡ vec_capacity wakes.old }
    {
        let first = wakes.len();
        let listed = fleet.drain_into(rt, seat, wakes);
        let ended = self.end_woken(rt, fleet, seat, wakes, first);
        ListedDrain {
            drained: listed.drained,
            resched: listed.resched || ended,
        }
    }

    /// Ends the strays among the wakes of a list from this place on. `true` where it has ended one.
    fn end_woken<N: Names, R: Wait>(
        &self,
        rt: &R,
        fleet: &Fleet<N>,
        seat: &mut Seat<N>,
        wakes: &Vec<DrainedWake>,
        first: usize,
    ) -> bool
        ensures { HasEndedWoken (setup_of N.kit) first wakes.now.items result seat.old seat.new }
    {
        let mut ended = false;
        for place in first..wakes.len() {
            let wake = wakes[place];
            if self.end_if_woken(rt, fleet, seat, wake) {
                ended = true;
            }
        }
        ended
    }

    /// Ends the number of a wake, if it woke and no task has it.
    fn end_if_woken<N: Names, R: Wait>(
        &self,
        rt: &R,
        fleet: &Fleet<N>,
        seat: &mut Seat<N>,
        wake: DrainedWake,
    ) -> bool
        ensures woken { IsTrue result → wake.answer ≡ Woken }
        ensures ended { IsTrue result
            → (answer : Answer) × HasDone (setup_of N.kit) (deed.End seat.old.cpu wake.task) answer seat.old seat.new }
        ensures unchanged { IsFalse result → seat.new ≡ seat.old }
    {
        wake.answer == Answer::Woken && self.end_stray(rt, fleet, seat, wake.task)
    }

    /// Makes the task run that `Fleet::pick` chooses, and gives its number. A stray that it chooses is ended, and the next one chosen.
    /// `None`: no task is runnable on the seat's CPU. Each round but the last ends a runnable number, so there are no more rounds than
    /// numbers.
    pub fn pick<N: Names, R: Wait>(
        &self,
        rt: &R,
        fleet: &Fleet<N>,
        seat: &mut Seat<N>,
    ) -> Option<TaskId>
        ensures cpu { seat.new.cpu ≡ seat.old.cpu }
        ensures picked { IfSome result (λ task. HasPicked (setup_of N.kit) (Picked task) seat.old seat.new) }
        ensures none { IfNone result (HasPicked (setup_of N.kit) Idle seat.old seat.new) }
    {
        for _ in rt.forever() {
            let Answer::Picked(task) = fleet.pick(rt, seat) else {
                return None;
            };
            if !self.end_stray(rt, fleet, seat, task) {
                return Some(task);
            }
        }
        unreachable!()
    }

    /// Ends the task that has a number, and gives the number back through the part. The task runs or waits on the seat's CPU, or sleeps and
    /// has its home there. Where it runs or waits on another CPU, or is woken at another home meanwhile, its number is a stray from then
    /// on: it runs there until the next pick, or waits until a pick finds it, and a pick that has just found it may give it once more.
    /// `false`, and nothing changes: no task of the fleet has the number.
    ///
    /// The number alone says which task is meant. A call for a task that has ended before ends the next one that has the number, so the
    /// caller has to know that the task lives.
    pub fn end<N: Names, R: Wait>(
        &self,
        rt: &R,
        fleet: &Fleet<N>,
        seat: &mut Seat<N>,
        free: &mut FreePart,
        task: TaskId,
    ) -> bool
        ensures cpu { seat.new.cpu ≡ seat.old.cpu }
        ensures ended { IsTrue result → HasEnded (setup_of N.kit) task seat.old seat.new }
        ensures back { IsTrue result → IsBack task free.old free.new }
        ensures unchanged { IsFalse result → (seat.new ≡ seat.old) × (free.new ≡ free.old) }
    {
        if !fleet.has_task(task) {
            return false;
        }
        // It is out of its place before it ends, so whoever wakes the number from then on sees that no task has it.
        let Some(taken) = self.taken.take(task) else {
            return false;
        };
        let _ = fleet.end(rt, seat, task);
        give_back(free, taken);
        true
    }

    /// Ends a number that is runnable on the seat's CPU, if no task has it.
    fn end_stray<N: Names, R: Wait>(
        &self,
        rt: &R,
        fleet: &Fleet<N>,
        seat: &mut Seat<N>,
        task: TaskId,
    ) -> bool
        ensures ended { IsTrue result
            → (answer : Answer) × HasDone (setup_of N.kit) (deed.End seat.old.cpu task) answer seat.old seat.new }
        ensures unchanged { IsFalse result → seat.new ≡ seat.old }
    {
        if self.taken.has(task) || !fleet.has_task(task) {
            return false;
        }
        let _ = fleet.end(rt, seat, task);
        true
    }

    /// Keeps a number that has begun at its home, where the list has the part of that.
    #[tactic(auto, using(crate::proofs::Openings::kept_nowhere, crate::proofs::Openings::kept_set))]
    fn keep_at_home(&self, parts: &mut Vec<FreePart>, home: CpuId, task: TaskId)
        ensures { HasKept home task parts.old.items parts.new.items }
    {
        if home.index() >= parts.len() {
            return;
        }
        self.keep_begun(&mut parts[home.index()], task);
    }

    /// Keeps a number of the part, if it has begun there.
    #[tactic(auto, using(crate::proofs::Openings::kept_some, crate::proofs::Openings::kept_same))]
    fn keep_begun(&self, part: &mut FreePart, task: TaskId)
        ensures { part.new ≡ record part.old { own = kept part.old.own task } }
    {
        match part.take_begun(task) {
            Some(taken) => self.keep(taken),
            None => (),
        }
    }

    /// Keeps a number that was taken.
    fn keep(&self, taken: TakenTask) {
        if let Err(taken) = self.taken.put(taken) {
            let _ = taken.retire();
        }
    }
}

/// Lets a number begin at the seat's CPU, if it has its home there, and sleeps.
fn begins<N: Names, R: Wait>(
    rt: &R,
    fleet: &Fleet<N>,
    seat: &mut Seat<N>,
    task: TaskId,
    nice: Nice,
    slice: Slice,
) -> bool
    ensures cpu { seat.new.cpu ≡ seat.old.cpu }
    ensures begun { IsTrue result →
        HasDone (setup_of N.kit) (deed.Begin seat.old.cpu task nice slice) Begun seat.old seat.new }
    ensures not { IsFalse result → IsNotBegun (setup_of N.kit) task nice slice seat.old seat.new }
{
    fleet.is_at_home(task, seat.cpu()) && fleet.begin(rt, seat, task, nice, slice) == Answer::Begun
}

/// Gives a number back. None is refused that was taken from a part of the same machine.
fn give_back(free: &mut FreePart, taken: TakenTask)
    ensures { IsBack taken free.old free.new }
{
    if let Err(foreign) = free.give_back(taken) {
        let _ = foreign.retire();
    }
}
