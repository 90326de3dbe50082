//! How the nice level and the slice of a task change together, and how a task that sleeps begins anew.

ghost use Rattle.std.specs.Prelude.{◌≡◌, true};
ghost use Rattle.std.specs.FinMap as map;
ghost use Rattle.eevdf_queue.specs.{Lag.is_lag};
ghost use Rattle.eevdf_queue.specs.Attributes as attributes;

use crate::answers::{ReniceAnswer, SetAnswer};
use crate::queue::Queue;
use crate::sleeper::Sleeper;
use crate::task_id::TaskId;
use eevdf_weight::{Nice, Slice};

impl Queue {
    /// Gives a task another nice level and slice, runnable or asleep. A runnable one joins again as by [`Queue::renice`], and the
    /// request after the one that then stands is of the new slice. The lag that a sleeping one keeps stands for the same service
    /// under the new weight, and is cut to the limit that it then has. `NotHere` exactly where the task isn't here; `Range` exactly
    /// where a runnable one's new virtual runtime or deadline would be out of range. Nothing has changed where the answer isn't `Set`.
    pub fn set(&mut self, task: TaskId, nice: Nice, slice: Slice) -> SetAnswer
        ensures answer { result ≡ (attributes.set self.old.state task nice slice).0 }
        ensures after { self.new.state ≡ (attributes.set self.old.state task nice slice).1 }
        ensures pick_depth { self.new.pick_depth ≡ self.old.pick_depth }
    {
        match self.renice(task, nice) {
            ReniceAnswer::Reniced => {
                self.set_slice(task, slice);
                SetAnswer::Set
            }
            ReniceAnswer::NotHere => self.set_asleep(task, nice, slice),
            ReniceAnswer::Range => SetAnswer::Range,
        }
    }

    /// The same of a task that isn't runnable here.
    fn set_asleep(&mut self, task: TaskId, nice: Nice, slice: Slice) -> SetAnswer
        ensures answer { result ≡ (attributes.set_sleeper self.old.state task nice slice
            (map.get self.old.state.asleep task)).0 }
        ensures after { self.new.state ≡ (attributes.set_sleeper self.old.state task nice slice
            (map.get self.old.state.asleep task)).1 }
        ensures pick_depth { self.new.pick_depth ≡ self.old.pick_depth }
    {
        let Some(sleeper) = self.sleeper(task) else {
            return SetAnswer::NotHere;
        };
        self.keep_asleep(task, &sleeper.with(nice, slice));
        SetAnswer::Set
    }

    /// Lets a task that sleeps here begin anew: it sleeps on as one that has just been made, with this nice level and slice and the
    /// lag 0, and without a place. Answers whether it sleeps here; where it doesn't, nothing has changed.
    pub fn begin(&mut self, task: TaskId, nice: Nice, slice: Slice) -> bool
        ensures begun { result ≡ map.contains_key self.old.state.asleep task }
        ensures after { self.new.state ≡ attributes.begin self.old.state task nice slice }
        ensures pick_depth { self.new.pick_depth ≡ self.old.pick_depth }
    {
        if !self.asleep(task) {
            return false;
        }
        let fresh = Sleeper {
            lag: 0,
            nice,
            slice,
        };
        self.begin_asleep(task, &fresh);
        true
    }

    /// Keeps this of a task that sleeps here, and no place.
    fn begin_asleep(&mut self, task: TaskId, sleeper: &Sleeper)
        requires here { map.contains_key self.old.state.asleep task ≡ true }
        requires limited { is_lag sleeper.now.lag sleeper.now.nice sleeper.now.slice ≡ true }
        ensures after { self.new.state ≡ record self.old.state {
          asleep = map.insert self.old.state.asleep task sleeper.now;
          places = map.remove self.old.state.places task;
        } }
        ensures pick_depth { self.new.pick_depth ≡ self.old.pick_depth }
    {
        let parcel = self.asleep.remove(task);
        self.asleep.add(parcel.bringing(sleeper));
    }

    /// Keeps this of a task that sleeps here, and its place where it dozes.
    pub(crate) fn keep_asleep(&mut self, task: TaskId, sleeper: &Sleeper)
        requires here { map.contains_key self.old.state.asleep task ≡ true }
        requires limited { is_lag sleeper.now.lag sleeper.now.nice sleeper.now.slice ≡ true }
        ensures after { self.new.state
            ≡ record self.old.state { asleep = map.insert self.old.state.asleep task sleeper.now } }
        ensures pick_depth { self.new.pick_depth ≡ self.old.pick_depth }
    {
        self.asleep.change(task, sleeper);
    }
}
