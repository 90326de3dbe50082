//! How tasks come into a queue and leave it.

ghost use Rattle.std.specs.Prelude.{◌≡◌, ◌↔◌, ◌≤ℤ◌, Some, None, IfSome, IsNone, MatchResult, true, false};
ghost use Rattle.std.specs.FinMap as map;
ghost use Rattle.eevdf_queue.specs.Moves as moves;
ghost use Rattle.eevdf_queue.specs.{Candidate.is_running, Lag.is_lag};
ghost use Rattle.eevdf_queue.specs.Placing as placing;
ghost use Rattle.eevdf_queue.specs.Wake as wakes;
ghost use Rattle.eevdf_queue.specs.Leaving.{carried, leave, carried_running, leave_running, carried_asleep, leave_asleep, nobody_runs, IsNowhere};

use crate::answers::WakeAnswer;
use crate::entry::Entry;
use crate::parcel::Parcel;
use crate::queue::Queue;
use crate::queue::placing::{is_roomy, placed_entry, placed_from};
use crate::request::started;
use crate::running::{is_running, stop};
use crate::sleeper::Sleeper;
use crate::task_id::TaskId;
use eevdf_weight::{Nice, Slice};

impl Queue {
    /// Makes a task runnable at the start of its parcel, with a fresh request. Where the virtual runtime or
    /// the deadline would be out of range, the parcel comes back and nothing has changed.
    pub fn admit(&mut self, parcel: Parcel) -> Result<(), Parcel>
        requires not_runnable { map.get self.old.state.runnable parcel.task ≡ None }
        requires not_asleep { map.get self.old.state.asleep parcel.task ≡ None }
        ensures cases { MatchResult result
            (λ _. moves.admit self.old.state parcel ≡ Some self.new.state)
            (λ back. (moves.admit self.old.state parcel ≡ None) × (back ≡ parcel)
            × (self.new.state ≡ self.old.state)) }
        ensures pick_depth { self.new.pick_depth ≡ self.old.pick_depth }
    {
        match started(&parcel.entry()) {
            None => Err(parcel),
            Some(entry) => {
                self.runnable.add(parcel, entry);
                Ok(())
            }
        }
    }

    /// Puts a task to sleep here, with the lag of its parcel.
    pub fn put_asleep(&mut self, parcel: Parcel)
        requires not_runnable { map.get self.old.state.runnable parcel.task ≡ None }
        requires not_asleep { map.get self.old.state.asleep parcel.task ≡ None }
        ensures after { self.new.state ≡ moves.put_asleep self.old.state parcel }
        ensures pick_depth { self.new.pick_depth ≡ self.old.pick_depth }
    {
        self.asleep.keeps();
        self.asleep.add(parcel);
        self.asleep_count += 1;
    }

    /// Takes out the running task, with the lag that it keeps, and nobody runs. Its virtual runtime is the time
    /// that stands. `None` exactly where the task doesn't run here, and then nothing has changed.
    pub fn detach_running(&mut self, task: TaskId) -> Option<Parcel>
        ensures parcel { result ≡ carried_running self.old.state task }
        ensures task { IfSome result (λ parcel. parcel.task ≡ task) }
        ensures none { IsNone result ↔ (is_running self.old.state.running task ≡ false) }
        ensures after { self.new.state ≡ leave_running self.old.state task }
        ensures nowhere { IfSome result (λ parcel. IsNowhere self.new.state parcel.task) }
        ensures pick_depth { self.new.pick_depth ≡ self.old.pick_depth }
    {
        if is_running(&self.running, task) {
            Some(self.take(task))
        } else {
            None
        }
    }

    /// Takes out a runnable task that doesn't run, with the lag that it keeps. Its virtual runtime is the time
    /// that stands.
    pub fn detach(&mut self, task: TaskId) -> Parcel
        requires here { map.contains_key self.old.state.runnable task ≡ true }
        requires waiting { is_running self.old.state.running task ≡ false }
        ensures parcel { carried self.old.state task ≡ Some result }
        ensures task { result.task ≡ task }
        ensures after { self.new.state ≡ leave self.old.state task }
        ensures nowhere { IsNowhere self.new.state result.task }
        ensures pick_depth { self.new.pick_depth ≡ self.old.pick_depth }
    {
        self.take(task)
    }

    /// Takes out a runnable task, whether it runs or waits, with the lag that it keeps. Its virtual runtime is the time that stands.
    /// `None` exactly where the task isn't runnable here, and then nothing has changed.
    pub fn detach_runnable(&mut self, task: TaskId) -> Option<Parcel>
        ensures parcel { result ≡ carried self.old.state task }
        ensures task { IfSome result (λ parcel. parcel.task ≡ task) }
        ensures none { IsNone result ↔ (map.contains_key self.old.state.runnable task ≡ false) }
        ensures after { self.new.state ≡ leave self.old.state task }
        ensures nowhere { IfSome result (λ parcel. IsNowhere self.new.state parcel.task) }
        ensures pick_depth { self.new.pick_depth ≡ self.old.pick_depth }
    {
        if self.entry(task).is_some() {
            Some(self.take(task))
        } else {
            None
        }
    }

    /// Takes out a sleeping task, with the lag that it kept and without its place, to start at the queue's virtual time. `None`
    /// exactly where the task doesn't sleep here, and then nothing has changed.
    pub fn detach_asleep(&mut self, task: TaskId) -> Option<Parcel>
        ensures parcel { result ≡ carried_asleep self.old.state task }
        ensures task { IfSome result (λ parcel. parcel.task ≡ task) }
        ensures none { IsNone result ↔ (map.contains_key self.old.state.asleep task ≡ false) }
        ensures after { self.new.state ≡ leave_asleep self.old.state task }
        ensures nowhere { IfSome result (λ parcel. IsNowhere self.new.state parcel.task) }
        ensures pick_depth { self.new.pick_depth ≡ self.old.pick_depth }
    {
        if !self.asleep.contains(task) {
            return None;
        }
        let start = self.floor_time();
        self.asleep_count -= 1;
        Some(self.asleep.remove(task).starting_at(start))
    }

    /// Lets nobody run: the task that runs waits from now on, and is answered. `None` exactly where nobody runs.
    pub fn stop_running(&mut self) -> Option<TaskId>
        ensures stopped { result ≡ self.old.state.running }
        ensures after { self.new.state ≡ nobody_runs self.old.state }
        ensures pick_depth { self.new.pick_depth ≡ self.old.pick_depth }
    {
        self.running.take()
    }

    /// Takes out a runnable task, with the lag that it keeps. Its virtual runtime is the time that stands.
    #[inline(always)]
    pub(crate) fn take(&mut self, task: TaskId) -> Parcel
        requires { map.contains_key self.old.state.runnable task ≡ true }
        ensures parcel { carried self.old.state task ≡ Some result }
        ensures task { result.task ≡ task }
        ensures after { self.new.state ≡ leave self.old.state task }
        ensures nowhere { IsNowhere self.new.state result.task }
        ensures pick_depth { self.new.pick_depth ≡ self.old.pick_depth }
    {
        self.runnable.keeps();
        let time = self.floor_time();
        let parcel = self.runnable.remove(task, time);
        stop(&mut self.running, task);
        self.base = parcel.start();
        parcel
    }

    /// Whether a task of this nice level, slice and lag, which is within its limit, can join: whether its
    /// virtual runtime and deadline would be in range.
    pub fn can_place(&self, nice: Nice, slice: Slice, lag: i64) -> bool
        requires { is_lag lag nice slice ≡ true }
        ensures { result
            ≡ placing.can_place self.now.state (record { lag = lag; nice = nice; slice = slice }) }
    {
        prove!(slice.get() <= Slice::MAX.get());
        if is_roomy(&self.runnable.totals()) {
            return true;
        }
        self.placed(&Sleeper { lag, nice, slice }).is_some()
    }

    /// Makes the task of a parcel, which isn't here and can join, runnable with the lag of the parcel: beside others
    /// so far from the virtual time that, but for rounding, this is its lag afterwards, alone at the time that
    /// stands.
    pub fn attach(&mut self, parcel: Parcel)
        requires not_runnable { map.get self.old.state.runnable parcel.task ≡ None }
        requires not_asleep { map.get self.old.state.asleep parcel.task ≡ None }
        requires room { placing.can_place self.old.state (moves.sleeper_of parcel) ≡ true }
        ensures after { placing.put self.old.state parcel.task (moves.sleeper_of parcel)
            ≡ Some self.new.state }
        ensures pick_depth { self.new.pick_depth ≡ self.old.pick_depth }
    {
        let entry = self.placed(&parcel.sleeper()).unwrap();
        self.runnable.add(parcel, entry);
    }

    /// Makes a task that sleeps here runnable with the lag that it kept, placed as by `attach`, and one that dozes no earlier than
    /// at its place. `Awake` where it doesn't sleep here; `Range` where its virtual runtime or deadline would be out of range, and
    /// then it sleeps on.
    pub fn wake(&mut self, task: TaskId) -> WakeAnswer
        ensures answer { result ≡ (wakes.wake self.old.state task).0 }
        ensures after { self.new.state ≡ (wakes.wake self.old.state task).1 }
        ensures pick_depth { self.new.pick_depth ≡ self.old.pick_depth }
    {
        if self.asleep.dozes(task) {
            return self.wake_at_place(task);
        }
        let Some(sleeper) = self.asleep.get(task) else {
            return WakeAnswer::Awake;
        };
        self.asleep.keeps();
        let Some(entry) = self.placed(&sleeper) else {
            return WakeAnswer::Range;
        };
        self.rise(task, entry);
        WakeAnswer::Woken
    }

    /// The same, whether it has a place or not: apart from `wake`, so that one without a place is spared what a place takes.
    #[inline(never)]
    fn wake_at_place(&mut self, task: TaskId) -> WakeAnswer
        ensures answer { result ≡ (wakes.wake self.old.state task).0 }
        ensures after { self.new.state ≡ (wakes.wake self.old.state task).1 }
        ensures pick_depth { self.new.pick_depth ≡ self.old.pick_depth }
    {
        let Some(sleeper) = self.asleep.get(task) else {
            return WakeAnswer::Awake;
        };
        self.asleep.keeps();
        let Some(entry) = self.waking(task, &sleeper) else {
            return WakeAnswer::Range;
        };
        self.rise(task, entry);
        WakeAnswer::Woken
    }

    /// Makes a task that sleeps here runnable with this entry.
    #[inline(always)]
    fn rise(&mut self, task: TaskId, entry: Entry)
        requires here { map.contains_key self.old.state.asleep task ≡ true }
        requires in_range { moves.is_entry_in_range entry ≡ true }
        requires due { entry.v ≤ℤ entry.d }
        ensures after { self.new.state ≡ record self.old.state {
          runnable = map.insert self.old.state.runnable task entry;
          asleep = map.remove self.old.state.asleep task;
          places = map.remove self.old.state.places task;
        } }
        ensures pick_depth { self.new.pick_depth ≡ self.old.pick_depth }
    {
        let parcel = self.asleep.remove(task);
        self.asleep_count -= 1;
        self.runnable.add(parcel, entry);
    }

    /// The entry of a task that wakes. `None` exactly where it would be out of range.
    fn waking(&self, task: TaskId, sleeper: &Sleeper) -> Option<Entry>
        requires { is_lag sleeper.now.lag sleeper.now.nice sleeper.now.slice ≡ true }
        ensures { result ≡ wakes.waking_entry self.now.state sleeper.now (map.get self.now.state.places task) }
    {
        match self.place_of(task) {
            None => self.placed(sleeper),
            Some(place) => placed_from(
                place,
                self.floor_time(),
                self.runnable.totals().weight,
                sleeper,
            ),
        }
    }

    /// The entry of a task that joins. `None` exactly where it would be out of range.
    #[inline(always)]
    fn placed(&self, sleeper: &Sleeper) -> Option<Entry>
        requires { is_lag sleeper.now.lag sleeper.now.nice sleeper.now.slice ≡ true }
        ensures { result ≡ placing.placed_entry self.now.state (sleeper.now) }
    {
        placed_entry(self.floor_time(), self.runnable.totals().weight, sleeper)
    }
}
