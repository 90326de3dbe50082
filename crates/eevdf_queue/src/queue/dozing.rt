//! How the running task falls asleep so that it gains nothing by it.

ghost use Rattle.std.specs.Prelude.{◌≡◌, None};
ghost use Rattle.std.specs.FinMap as map;
ghost use Rattle.eevdf_queue.specs.Doze as dozes;
ghost use Rattle.eevdf_queue.specs.{Moves.sleeper_of};

use crate::parcel::Parcel;
use crate::place::place_at;
use crate::queue::Queue;
use crate::task_id::TaskId;

impl Queue {
    /// Lets the running task doze: it falls asleep, and keeps of its lag what it is owed and no debt, and its place, the virtual
    /// runtime at which it leaves. [`Queue::wake`] puts it at the later of its place and the virtual runtime at which a sleeper with
    /// its lag would join, so that it never comes back before where it left, whatever becomes of the virtual time meanwhile (this
    /// project's own profile). Answers the lag with which it leaves; the kept one is this, or 0 where this is a debt. `None` exactly
    /// where the task doesn't run here, and then nothing has changed.
    ///
    /// Taking the task out of its sleep and [`Queue::begin`] drop its place; another level or slice leaves it.
    pub fn doze(&mut self, task: TaskId) -> Option<i64>
        ensures lag { result ≡ dozes.dozed_lag self.old.state task }
        ensures after { self.new.state ≡ dozes.doze self.old.state task }
        ensures pick_depth { self.new.pick_depth ≡ self.old.pick_depth }
    {
        let parcel = self.detach_running(task)?;
        let lag = parcel.lag();
        self.put_dozing(parcel);
        Some(lag)
    }

    /// Puts a task to sleep here as one that has dozed off: with what its parcel says that it is owed and no debt, and at the place where
    /// it left. That is the virtual runtime in its parcel, so the parcel has to come from this queue, and no rebase between.
    pub fn put_dozing(&mut self, parcel: Parcel)
        requires not_runnable { map.get self.old.state.runnable parcel.task ≡ None }
        requires not_asleep { map.get self.old.state.asleep parcel.task ≡ None }
        ensures after { self.new.state ≡ dozes.put_dozing self.old.state parcel }
        ensures pick_depth { self.new.pick_depth ≡ self.old.pick_depth }
    {
        self.asleep.keeps();
        let place = place_at(parcel.start(), self.shift);
        self.asleep.add_at(without_debt(parcel), place);
        self.asleep_count += 1;
    }
}

/// The same task with what it keeps while it dozes.
fn without_debt(parcel: Parcel) -> Parcel
    ensures task { result.task ≡ parcel.task }
    ensures sleeper { sleeper_of result ≡ dozes.dozing parcel }
{
    let mut sleeper = parcel.sleeper();
    sleeper.lag = sleeper.lag.max(0);
    parcel.bringing(&sleeper)
}
