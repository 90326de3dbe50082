//! How a task becomes runnable in a queue, and how it gets another level or slice.

ghost use Rattle.std.specs.Prelude.{◌≡◌, Ok, Err, MatchResult};
ghost use Rattle.std.specs.FinMap as map;
ghost use Rattle.eevdf_queue.specs.Attributes as attributes;
ghost use Rattle.eevdf_queue.specs.Moves as moves;
ghost use Rattle.eevdf_queue.specs.Renice as renices;
ghost use Rattle.eevdf_queue.specs.{Placing.put, Trying.tried};
ghost use Rattle.eevdf_queue.specs.Wake as wakes;
ghost use Rattle.eevdf_fair_queue.specs.Bounds as bounds;
ghost use Rattle.eevdf_fair_queue.specs.Fair.{IsFair, mark_of};

use crate::bounds::{Bounds, Mark};
use eevdf_queue::laws::{every_queue, pick_is_first, pick_of_nobody};
use eevdf_queue::{Parcel, Queue, Refused, ReniceAnswer, SetAnswer, TaskId, WakeAnswer};
use eevdf_weight::{Nice, Slice};

impl Bounds {
    /// Makes a task runnable as [`Queue::try_admit`](eevdf_queue::Queue::try_admit) does.
    pub fn try_admit(&mut self, queue: &mut Queue, parcel: Parcel) -> Result<(), Refused>
        ensures cases { MatchResult result
            (λ _. tried queue.old.state parcel.task (moves.admit queue.old.state parcel)
            ≡ Ok queue.new.state)
            (λ refused. (tried queue.old.state parcel.task (moves.admit queue.old.state parcel)
            ≡ Err refused.reason)
            × (refused.parcel ≡ parcel) × (queue.new.state ≡ queue.old.state)) }
        ensures pick_depth { queue.new.pick_depth ≡ queue.old.pick_depth }
        ensures bounds { self.new ≡ bounds.settled self.old
            (mark_of queue.old.state parcel.task)
            (map.get queue.new.state.runnable parcel.task) }
        ensures fair { IsFair queue.old.state self.old → IsFair queue.new.state self.new }
    {
        pick_is_first();
        pick_of_nobody();
        every_queue(queue);
        let task = parcel.task();
        let mark = Mark::of(queue, task);
        let result = queue.try_admit(parcel);
        *self = self.settled(mark, queue.entry(task));
        result
    }

    /// Makes a task runnable with its lag as [`Queue::try_attach`](eevdf_queue::Queue::try_attach) does.
    pub fn try_attach(&mut self, queue: &mut Queue, parcel: Parcel) -> Result<(), Refused>
        ensures cases { MatchResult result
            (λ _. tried queue.old.state parcel.task
            (put queue.old.state parcel.task (moves.sleeper_of parcel)) ≡ Ok queue.new.state)
            (λ refused. (tried queue.old.state parcel.task
            (put queue.old.state parcel.task (moves.sleeper_of parcel)) ≡ Err refused.reason)
            × (refused.parcel ≡ parcel) × (queue.new.state ≡ queue.old.state)) }
        ensures pick_depth { queue.new.pick_depth ≡ queue.old.pick_depth }
        ensures bounds { self.new ≡ bounds.settled self.old
            (mark_of queue.old.state parcel.task)
            (map.get queue.new.state.runnable parcel.task) }
        ensures fair { IsFair queue.old.state self.old → IsFair queue.new.state self.new }
    {
        pick_is_first();
        pick_of_nobody();
        every_queue(queue);
        let task = parcel.task();
        let mark = Mark::of(queue, task);
        let result = queue.try_attach(parcel);
        *self = self.settled(mark, queue.entry(task));
        result
    }

    /// Wakes a task as [`Queue::wake`](eevdf_queue::Queue::wake) does.
    pub fn wake(&mut self, queue: &mut Queue, task: TaskId) -> WakeAnswer
        ensures answer { result ≡ (wakes.wake queue.old.state task).0 }
        ensures after { queue.new.state ≡ (wakes.wake queue.old.state task).1 }
        ensures pick_depth { queue.new.pick_depth ≡ queue.old.pick_depth }
        ensures bounds { self.new ≡ bounds.settled self.old
            (mark_of queue.old.state task) (map.get queue.new.state.runnable task) }
        ensures fair { IsFair queue.old.state self.old → IsFair queue.new.state self.new }
    {
        pick_is_first();
        pick_of_nobody();
        every_queue(queue);
        let mark = Mark::of(queue, task);
        let answer = queue.wake(task);
        *self = self.settled(mark, queue.entry(task));
        answer
    }

    /// Gives a runnable task another nice level as [`Queue::renice`](eevdf_queue::Queue::renice) does.
    pub fn renice(&mut self, queue: &mut Queue, task: TaskId, nice: Nice) -> ReniceAnswer
        ensures answer { result ≡ (renices.renice queue.old.state task nice).0 }
        ensures after { queue.new.state ≡ (renices.renice queue.old.state task nice).1 }
        ensures pick_depth { queue.new.pick_depth ≡ queue.old.pick_depth }
        ensures bounds { self.new ≡ bounds.settled self.old
            (mark_of queue.old.state task) (map.get queue.new.state.runnable task) }
        ensures fair { IsFair queue.old.state self.old → IsFair queue.new.state self.new }
    {
        pick_is_first();
        pick_of_nobody();
        every_queue(queue);
        let mark = Mark::of(queue, task);
        let answer = queue.renice(task, nice);
        *self = self.settled(mark, queue.entry(task));
        answer
    }

    /// Gives a task another nice level and slice as [`Queue::set`](eevdf_queue::Queue::set) does.
    pub fn set(&mut self, queue: &mut Queue, task: TaskId, nice: Nice, slice: Slice) -> SetAnswer
        ensures answer { result ≡ (attributes.set queue.old.state task nice slice).0 }
        ensures after { queue.new.state ≡ (attributes.set queue.old.state task nice slice).1 }
        ensures pick_depth { queue.new.pick_depth ≡ queue.old.pick_depth }
        ensures bounds { self.new ≡ bounds.settled self.old
            (mark_of queue.old.state task) (map.get queue.new.state.runnable task) }
        ensures fair { IsFair queue.old.state self.old → IsFair queue.new.state self.new }
    {
        pick_is_first();
        pick_of_nobody();
        every_queue(queue);
        let mark = Mark::of(queue, task);
        let answer = queue.set(task, nice, slice);
        *self = self.settled(mark, queue.entry(task));
        answer
    }
}
