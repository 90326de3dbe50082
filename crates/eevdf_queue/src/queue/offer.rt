//! What a queue offers to another CPU.

ghost use Rattle.std.specs.Prelude.{◌≡◌, ◌↔◌, IfSome, IsNone, Some, true, false};
ghost use Rattle.std.specs.FinMap as map;
ghost use Rattle.eevdf_queue.specs.Candidate as candidates;
ghost use Rattle.eevdf_queue.specs.{Lag.is_lag, Leaving.carried, Offers.offer};

use crate::lag::kept_lag;
use crate::queue::Queue;
use crate::task::Task;
use crate::task_id::TaskId;
use eevdf_weight::{Nice, Slice};
use std::marker::Model;

/// What a queue offers to another CPU: its waiting task of latest virtual deadline, with what it would carry if it left now.
/// Which task that is comes from this project's own profile of the scheduler ([`Queue::candidate`]). Contracts see an offer as
/// what the task's parcel would have.
///
/// The task was found once, and no call of an offer searches for it again.
#[derive(Drop)]
pub struct Offer<'a> {
    queue: &'a Queue,
    task: &'a Task,
}

impl<'a> Model for Offer<'a> {
    ghost use Rattle.std.specs.Prelude.{◌≡◌, true};
    ghost use Rattle.eevdf_weight.specs.Limits.{is_in_range};
    ghost use Rattle.eevdf_queue.specs.{Lag.kept_lag, Leaving.leaving, State.Contents};

    ghost Value = { Contents };

    ghost view = { λ o. leaving o.task.now.number
        (kept_lag o.queue.now.state o.task.now.entry) o.task.now.entry };

    ghost invariant = { λ o. is_in_range o.task.now.entry.v ≡ true };
}

impl Offer<'_> {
    /// The number of the task.
    pub fn task(&self) -> TaskId
        ensures { result ≡ self.now.task }
    {
        self.task.number
    }

    /// The nice level of the task.
    pub fn nice(&self) -> Nice
        ensures { result ≡ self.now.nice }
    {
        self.task.entry.nice
    }

    /// The slice of the task, in nanoseconds of its running.
    pub fn slice(&self) -> Slice
        ensures { result ≡ self.now.slice }
    {
        self.task.entry.slice
    }

    /// The lag that the task would keep, in virtual time, within the limit of its slice and weight. It takes a division, so it
    /// is made here and not with the offer: who finds that the task wouldn't level the loads needs none.
    pub fn lag(&self) -> i64
        ensures value { result ≡ self.now.lag }
        ensures limited { is_lag self.now.lag self.now.nice self.now.slice ≡ true }
    {
        kept_lag(self.queue.floor_time(), &self.task.entry)
    }
}

impl Queue {
    /// The task that another CPU may pull, which `candidate` names, with what it would carry. It takes the search of
    /// `candidate` and no other: a descent of the tree, and a second one where the last task runs. `None` exactly where no
    /// task waits.
    #[tactic(auto, using(crate::proofs::Offering::carried_of, crate::proofs::Offering::offer_of))]
    pub fn offer(&self) -> Option<Offer<'_>>
        ensures value { result ≡ offer self.now.state }
        ensures carried { IfSome result (λ o. carried self.now.state o.task ≡ Some o) }
        ensures last { IfSome result
            (λ o. candidates.IsCandidate self.now.state.runnable self.now.state.running o.task) }
        ensures waiting { IfSome result (λ o. (map.contains_key self.now.state.runnable o.task ≡ true)
            × (candidates.is_running self.now.state.running o.task ≡ false)) }
        ensures none { IsNone result
            ↔ candidates.NoneWaits self.now.state.runnable self.now.state.running }
    {
        self.runnable.keeps();
        match self.runnable.latest_waiting(self.running) {
            None => None,
            Some(task) => Some(Offer { queue: self, task }),
        }
    }
}
