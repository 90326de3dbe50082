//! How the slice of a task changes.

ghost use Rattle.std.specs.Prelude.{◌≡◌};
ghost use Rattle.std.specs.FinMap as map;
ghost use Rattle.eevdf_queue.specs.SliceChange as changes;
ghost use Rattle.eevdf_queue.specs.Trying.{is_here};

use crate::entry::Entry;
use crate::queue::Queue;
use crate::task_id::TaskId;
use eevdf_weight::Slice;

impl Queue {
    /// Gives a task another slice, and answers whether it is here, runnable or asleep; where it isn't, nothing has changed. The
    /// request that stands keeps its deadline, and the next one is of the new slice. The lag that a sleeping task keeps is cut
    /// to the limit that it then has; that of a runnable one is cut when it leaves. The slice of a task in a parcel is changed
    /// by [`Parcel::with_slice`](crate::Parcel::with_slice).
    pub fn set_slice(&mut self, task: TaskId, slice: Slice) -> bool
        ensures here { result ≡ is_here self.old.state task }
        ensures after { self.new.state ≡ changes.set_slice self.old.state task slice }
        ensures pick_depth { self.new.pick_depth ≡ self.old.pick_depth }
    {
        let Some(entry) = self.runnable.get(task) else {
            return self.set_slice_asleep(task, slice);
        };
        self.runnable.keeps();
        self.runnable.set(task, &entry, Entry { slice, ..entry });
        true
    }

    /// The same of a task that isn't runnable here.
    fn set_slice_asleep(&mut self, task: TaskId, slice: Slice) -> bool
        ensures here { result ≡ map.contains_key self.old.state.asleep task }
        ensures after { self.new.state
            ≡ changes.set_sleeper_slice self.old.state task slice (map.get self.old.state.asleep task) }
        ensures pick_depth { self.new.pick_depth ≡ self.old.pick_depth }
    {
        let Some(sleeper) = self.sleeper(task) else {
            return false;
        };
        self.keep_asleep(task, &sleeper.with_slice(slice));
        true
    }
}
