//! How a task becomes runnable, and how it gets another level or slice.

ghost use Rattle.std.specs.Prelude.{◌≡◌, Ok, Err, MatchResult};
ghost use Rattle.std.specs.FinMap as map;
ghost use Rattle.eevdf_queue.specs.Attributes as attributes;
ghost use Rattle.eevdf_queue.specs.Moves as moves;
ghost use Rattle.eevdf_queue.specs.Renice as renices;
ghost use Rattle.eevdf_queue.specs.{Placing.put, Trying.tried};
ghost use Rattle.eevdf_queue.specs.Wake as wakes;
ghost use Rattle.eevdf_fair_queue.specs.Bounds as bounds;
ghost use Rattle.eevdf_fair_queue.specs.Fair.{mark_of};
ghost use Rattle.eevdf_fair_queue.specs.Owed.{reloaded_from};

use crate::fair_queue::FairQueue;
use eevdf_queue::{Parcel, Refused, ReniceAnswer, SetAnswer, TaskId, WakeAnswer};
use eevdf_weight::{Nice, Slice};

impl FairQueue {
    /// Makes a task runnable as [`Queue::try_admit`](eevdf_queue::Queue::try_admit) does.
    pub fn try_admit(&mut self, parcel: Parcel) -> Result<(), Refused>
        ensures cases { MatchResult result
            (λ _. tried self.old.queue.state parcel.task (moves.admit self.old.queue.state parcel)
            ≡ Ok self.new.queue.state)
            (λ refused. (tried self.old.queue.state parcel.task (moves.admit self.old.queue.state parcel)
            ≡ Err refused.reason)
            × (refused.parcel ≡ parcel) × (self.new.queue.state ≡ self.old.queue.state)) }
        ensures pick_depth { self.new.queue.pick_depth ≡ self.old.queue.pick_depth }
        ensures bounds { self.new.bounds ≡ bounds.settled self.old.bounds
            (mark_of self.old.queue.state parcel.task)
            (map.get self.new.queue.state.runnable parcel.task) }
        ensures clock { self.new.clock ≡ reloaded_from self.old self.new }
    {
        let before = self.queue.load();
        let result = self.bounds.try_admit(&mut self.queue, parcel);
        self.clock.reload(before, self.queue.load());
        result
    }

    /// Makes a task runnable with its lag as [`Queue::try_attach`](eevdf_queue::Queue::try_attach) does.
    pub fn try_attach(&mut self, parcel: Parcel) -> Result<(), Refused>
        ensures cases { MatchResult result
            (λ _. tried self.old.queue.state parcel.task
            (put self.old.queue.state parcel.task (moves.sleeper_of parcel)) ≡ Ok self.new.queue.state)
            (λ refused. (tried self.old.queue.state parcel.task
            (put self.old.queue.state parcel.task (moves.sleeper_of parcel)) ≡ Err refused.reason)
            × (refused.parcel ≡ parcel) × (self.new.queue.state ≡ self.old.queue.state)) }
        ensures pick_depth { self.new.queue.pick_depth ≡ self.old.queue.pick_depth }
        ensures bounds { self.new.bounds ≡ bounds.settled self.old.bounds
            (mark_of self.old.queue.state parcel.task)
            (map.get self.new.queue.state.runnable parcel.task) }
        ensures clock { self.new.clock ≡ reloaded_from self.old self.new }
    {
        let before = self.queue.load();
        let result = self.bounds.try_attach(&mut self.queue, parcel);
        self.clock.reload(before, self.queue.load());
        result
    }

    /// Wakes a task as [`Queue::wake`](eevdf_queue::Queue::wake) does.
    pub fn wake(&mut self, task: TaskId) -> WakeAnswer
        ensures answer { result ≡ (wakes.wake self.old.queue.state task).0 }
        ensures after { self.new.queue.state ≡ (wakes.wake self.old.queue.state task).1 }
        ensures pick_depth { self.new.queue.pick_depth ≡ self.old.queue.pick_depth }
        ensures bounds { self.new.bounds ≡ bounds.settled self.old.bounds
            (mark_of self.old.queue.state task) (map.get self.new.queue.state.runnable task) }
        ensures clock { self.new.clock ≡ reloaded_from self.old self.new }
    {
        let before = self.queue.load();
        let answer = self.bounds.wake(&mut self.queue, task);
        self.clock.reload(before, self.queue.load());
        answer
    }

    /// Gives a runnable task another nice level as [`Queue::renice`](eevdf_queue::Queue::renice) does.
    pub fn renice(&mut self, task: TaskId, nice: Nice) -> ReniceAnswer
        ensures answer { result ≡ (renices.renice self.old.queue.state task nice).0 }
        ensures after { self.new.queue.state ≡ (renices.renice self.old.queue.state task nice).1 }
        ensures pick_depth { self.new.queue.pick_depth ≡ self.old.queue.pick_depth }
        ensures bounds { self.new.bounds ≡ bounds.settled self.old.bounds
            (mark_of self.old.queue.state task) (map.get self.new.queue.state.runnable task) }
        ensures clock { self.new.clock ≡ reloaded_from self.old self.new }
    {
        let before = self.queue.load();
        let answer = self.bounds.renice(&mut self.queue, task, nice);
        self.clock.reload(before, self.queue.load());
        answer
    }

    /// Gives a task another nice level and slice as [`Queue::set`](eevdf_queue::Queue::set) does.
    pub fn set(&mut self, task: TaskId, nice: Nice, slice: Slice) -> SetAnswer
        ensures answer { result ≡ (attributes.set self.old.queue.state task nice slice).0 }
        ensures after { self.new.queue.state ≡ (attributes.set self.old.queue.state task nice slice).1 }
        ensures pick_depth { self.new.queue.pick_depth ≡ self.old.queue.pick_depth }
        ensures bounds { self.new.bounds ≡ bounds.settled self.old.bounds
            (mark_of self.old.queue.state task) (map.get self.new.queue.state.runnable task) }
        ensures clock { self.new.clock ≡ reloaded_from self.old self.new }
    {
        let before = self.queue.load();
        let answer = self.bounds.set(&mut self.queue, task, nice, slice);
        self.clock.reload(before, self.queue.load());
        answer
    }
}
