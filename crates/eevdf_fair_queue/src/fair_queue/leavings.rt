//! How tasks fall asleep, begin anew, get another slice and leave: no bound grows by that.

ghost use Rattle.std.specs.Prelude.{◌≡◌, ◌↔◌, IfSome, IsNone, false};
ghost use Rattle.std.specs.Option.{option_map};
ghost use Rattle.std.specs.FinMap as map;
ghost use Rattle.eevdf_queue.specs.Attributes as attributes;
ghost use Rattle.eevdf_queue.specs.Doze as dozes;
ghost use Rattle.eevdf_queue.specs.SliceChange as changes;
ghost use Rattle.eevdf_queue.specs.Trying.{is_here};
ghost use Rattle.eevdf_queue.specs.Leaving.{IsNowhere, carried, carried_asleep, carried_running, leave, leave_asleep};
ghost use Rattle.eevdf_fair_queue.specs.Owed.{reloaded_from};
ghost use Rattle.eevdf_fair_queue.specs.Sleeping.{slept};

use crate::fair_queue::FairQueue;
use eevdf_queue::{Parcel, TaskId};
use eevdf_weight::{Nice, Slice};

impl FairQueue {
    /// The running task falls asleep here. Answers the lag that it keeps; `None` exactly where the task doesn't run here, and then nothing
    /// has changed.
    pub fn sleep(&mut self, task: TaskId) -> Option<i64>
        ensures lag { result ≡ option_map (λ p. p.lag) (carried_running self.old.queue.state task) }
        ensures after { self.new.queue.state ≡ slept self.old.queue.state task }
        ensures pick_depth { self.new.queue.pick_depth ≡ self.old.queue.pick_depth }
        ensures bounds { self.new.bounds ≡ self.old.bounds }
        ensures clock { self.new.clock ≡ reloaded_from self.old self.new }
    {
        let before = self.queue.load();
        let parcel = self.queue.detach_running(task)?;
        self.clock.reload(before, self.queue.load());
        let lag = parcel.lag();
        self.queue.put_asleep(parcel);
        Some(lag)
    }

    /// The running task dozes as by [`Queue::doze`](eevdf_queue::Queue::doze).
    pub fn doze(&mut self, task: TaskId) -> Option<i64>
        ensures lag { result ≡ dozes.dozed_lag self.old.queue.state task }
        ensures after { self.new.queue.state ≡ dozes.doze self.old.queue.state task }
        ensures pick_depth { self.new.queue.pick_depth ≡ self.old.queue.pick_depth }
        ensures bounds { self.new.bounds ≡ self.old.bounds }
        ensures clock { self.new.clock ≡ reloaded_from self.old self.new }
    {
        let before = self.queue.load();
        let lag = self.queue.doze(task);
        self.clock.reload(before, self.queue.load());
        lag
    }

    /// Takes out a runnable task as [`Queue::detach_runnable`](eevdf_queue::Queue::detach_runnable) does.
    pub fn detach_runnable(&mut self, task: TaskId) -> Option<Parcel>
        ensures parcel { result ≡ carried self.old.queue.state task }
        ensures none { IsNone result ↔ (map.contains_key self.old.queue.state.runnable task ≡ false) }
        ensures after { self.new.queue.state ≡ leave self.old.queue.state task }
        ensures nowhere { IfSome result (λ parcel. IsNowhere self.new.queue.state parcel.task) }
        ensures pick_depth { self.new.queue.pick_depth ≡ self.old.queue.pick_depth }
        ensures bounds { self.new.bounds ≡ self.old.bounds }
        ensures clock { self.new.clock ≡ reloaded_from self.old self.new }
    {
        let before = self.queue.load();
        let parcel = self.queue.detach_runnable(task);
        self.clock.reload(before, self.queue.load());
        parcel
    }

    /// Takes out a sleeping task as [`Queue::detach_asleep`](eevdf_queue::Queue::detach_asleep) does.
    pub fn detach_asleep(&mut self, task: TaskId) -> Option<Parcel>
        ensures parcel { result ≡ carried_asleep self.old.queue.state task }
        ensures none { IsNone result ↔ (map.contains_key self.old.queue.state.asleep task ≡ false) }
        ensures after { self.new.queue.state ≡ leave_asleep self.old.queue.state task }
        ensures nowhere { IfSome result (λ parcel. IsNowhere self.new.queue.state parcel.task) }
        ensures pick_depth { self.new.queue.pick_depth ≡ self.old.queue.pick_depth }
        ensures bounds { self.new.bounds ≡ self.old.bounds }
        ensures clock { self.new.clock ≡ self.old.clock }
    {
        self.queue.detach_asleep(task)
    }

    /// Lets a sleeping task begin anew as [`Queue::begin`](eevdf_queue::Queue::begin) does.
    pub fn begin(&mut self, task: TaskId, nice: Nice, slice: Slice) -> bool
        ensures begun { result ≡ map.contains_key self.old.queue.state.asleep task }
        ensures after { self.new.queue.state ≡ attributes.begin self.old.queue.state task nice slice }
        ensures pick_depth { self.new.queue.pick_depth ≡ self.old.queue.pick_depth }
        ensures bounds { self.new.bounds ≡ self.old.bounds }
        ensures clock { self.new.clock ≡ self.old.clock }
    {
        self.queue.begin(task, nice, slice)
    }

    /// Gives a task another slice as [`Queue::set_slice`](eevdf_queue::Queue::set_slice) does.
    pub fn set_slice(&mut self, task: TaskId, slice: Slice) -> bool
        ensures here { result ≡ is_here self.old.queue.state task }
        ensures after { self.new.queue.state ≡ changes.set_slice self.old.queue.state task slice }
        ensures pick_depth { self.new.queue.pick_depth ≡ self.old.queue.pick_depth }
        ensures bounds { self.new.bounds ≡ self.old.bounds }
        ensures clock { self.new.clock ≡ reloaded_from self.old self.new }
    {
        let before = self.queue.load();
        let here = self.queue.set_slice(task, slice);
        self.clock.reload(before, self.queue.load());
        here
    }
}
