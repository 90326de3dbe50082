ghost use Rattle.std.specs.Prelude.{◌≡◌, ℕ, ◌+◌, ◌<◌, ◌↔◌, is_some, length, OnOk, OnErr, IfErr, IsOk, IsTrue, true};
ghost use mathlib.Core.List.{IsPrefix};
ghost use Rattle.eevdf_ops.specs.{Programs.lines_by, Programs.wakes_from};
ghost use Rattle.eevdf_ops.specs.Setup.{cpus_of, home_of, homes_of, is_task};
ghost use Rattle.eevdf_fleet.specs.Fleets.{AreKnown, HasLookedAt, HasPosted, PartsLooked, capacity_of, free_at, posted_to, quota_of, setup_of};

use crate::names::Names;
use crate::posted::Posted;
use crate::rings::{Consumers, Producers, RingFull};
use crate::seat_log::SeatLog;
use crate::seen::Seen;
use eevdf_ops::{CpuId, Homes, Line};
use eevdf_queue::TaskId;
use std::marker::{Model, PhantomData};

/// What a seat is made of: its CPU's lines and its ends of the rings. Contracts see besides how far it knows the history. The unused
/// bytes keep it off the cache lines of what stands beside it, which another thread may write to.
#[derive(Drop)]
#[repr(C)]
pub(crate) struct SeatParts<N: Names> {
    pub(crate) unused_before: [u64; 8],
    pub(crate) log: SeatLog<N>,
    pub(crate) producers: Producers<N>,
    pub(crate) consumers: Consumers<N>,
    pub(crate) homes: Vec<CpuId>,
    pub(crate) unused_after: [u64; 8],
}

impl<N: Names> Model for SeatParts<N> {
    ghost use Rattle.eevdf_fleet.specs.Fleets.{Parts, parts_of};

    ghost Value = { Parts };

    ghost view = { λ s. parts_of s.log s.producers };

    ghost use Rattle.eevdf_fleet.specs.Fleets.{ArePartsOf};

    ghost invariant = { λ s. ArePartsOf N.kit s.log s.producers s.consumers s.homes.items };
}

impl<N: Names> SeatParts<N> {
    /// The number of its CPU.
    pub(crate) fn cpu(&self) -> CpuId
        ensures cpu { result ≡ self.now.seat.cpu }
        ensures below { result < cpus_of (setup_of N.kit) }
    {
        self.log.cpu()
    }

    /// How many more lines its log may have, where a journal is kept.
    pub(crate) fn room(&self) -> usize
        ensures room { result ≡ self.now.seat.room }
        ensures quota { is_some N.kit.terms.quota ≡ true
            → length self.now.seat.log + result ≡ quota_of N.kit }
    {
        self.log.room()
    }

    /// The lines of its operations, where a journal is kept.
    pub(crate) fn lines(&self) -> &[Line]
        requires { is_some N.kit.terms.quota ≡ true }
        ensures { result.now ≡ self.now.seat.log }
    {
        self.log.lines()
    }

    /// Sends a request to wake a task to the task's home.
    pub(crate) fn post(&mut self, task: TaskId) -> Result<(), RingFull>
        requires { is_task (homes_of (setup_of N.kit)) task ≡ true }
        ensures accepted { OnOk result (HasPosted self.old self.new
            (home_of (homes_of (setup_of N.kit)) task) task) }
        ensures refused { OnErr result (self.new ≡ self.old) }
        ensures full { OnErr result (free_at self.new.free (home_of (homes_of (setup_of N.kit)) task) ≡ 0) }
        ensures given_back { IfErr result (λ full. full.task ≡ task) }
        ensures free { 0 < free_at self.old.free (home_of (homes_of (setup_of N.kit)) task) → IsOk result }
        ensures home { home_of (homes_of (setup_of N.kit)) task < cpus_of (setup_of N.kit) }
        ensures homes { length self.old.seat.posted ≡ cpus_of (setup_of N.kit) }
        ensures room { length (posted_to self.old.seat (home_of (homes_of (setup_of N.kit)) task))
            < capacity_of N.kit → IsOk result }
    {
        let home = self.home(task);
        self.producers.post(home, task)
    }

    /// Looks whether exactly one request to a task's home is in its ring.
    pub(crate) fn has_one(&mut self, task: TaskId) -> bool
        requires { is_task (homes_of (setup_of N.kit)) task ≡ true }
        ensures looked { HasLookedAt (home_of (homes_of (setup_of N.kit)) task) self.old self.new }
        ensures one { IsTrue result
            ↔ (free_at self.new.free (home_of (homes_of (setup_of N.kit)) task) + 1 ≡ capacity_of N.kit) }
    {
        let home = self.home(task);
        self.producers.has_one(home)
    }

    /// The home of a task, as the number of a ring.
    #[inline(always)]
    fn home(&self, task: TaskId) -> usize
        requires { is_task (homes_of (setup_of N.kit)) task ≡ true }
        ensures home { result ≡ home_of (homes_of (setup_of N.kit)) task }
        ensures below { result < cpus_of (setup_of N.kit) }
    {
        Homes::Alone(&self.homes).home(task).index()
    }

    /// What it has posted so far, as a value of its own.
    pub(crate) fn posted(&mut self) -> Posted<N>
        ensures seat { self.new ≡ self.old }
        ensures sender { result.sender ≡ self.old.seat.cpu }
        ensures posted { result.posted ≡ self.old.seat.posted }
    {
        let token = self.producers.sent();
        Posted {
            token,
            names: PhantomData,
        }
    }

    /// Learns that what was seen tells of no other wakes that it asked for than of those that it has posted, in their order.
    pub(crate) fn agree_on_posts(&mut self, seen: &mut Seen<N>)
        ensures seat { self.new ≡ self.old }
        ensures seen { seen.new ≡ seen.old }
        ensures agree { (home : ℕ) → IsPrefix (wakes_from self.old.seat.cpu (lines_by home seen.old))
            (posted_to self.old.seat home) }
    {
        self.producers.agree(seen);
    }

    /// What it has seen is a history, in which its CPU has its lines. It does nothing.
    pub(crate) fn know(&self)
        ensures { AreKnown N.kit.terms self.now }
    {
        self.log.know();
    }

    /// Looks how many requests for tasks of a home certainly fit now: for those of its own CPU as many as there is room for beside those
    /// that it hasn't taken yet.
    pub(crate) fn free(&mut self, home: CpuId) -> usize
        requires { home < cpus_of (setup_of N.kit) }
        ensures looked { PartsLooked self.old self.new }
        ensures free { result ≡ free_at self.new.free home }
        ensures own { 0 < capacity_of N.kit → home ≡ self.old.seat.cpu → result + length (posted_to self.old.seat home)
            ≡ capacity_of N.kit + length (wakes_from home self.old.seat.log) }
    {
        if home.get() == self.log.cpu().get() {
            self.consumers.free_own(&mut self.producers)
        } else {
            self.producers.free(home.index())
        }
    }
}
