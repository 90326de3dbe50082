//! How tasks are put to sleep, how a queue is emptied, and how one goes on without its bounds: no bound grows by that.

ghost use Rattle.std.specs.Prelude.{◌≡◌, ◌↔◌, suc, IfSome, IsNone, None};
ghost use Rattle.std.specs.FinMap as map;
ghost use Rattle.eevdf_queue.specs.Closing as closing;
ghost use Rattle.eevdf_queue.specs.Doze as dozes;
ghost use Rattle.eevdf_queue.specs.Leaving.{IsNowhere};
ghost use Rattle.eevdf_queue.specs.Moves as moves;
ghost use Rattle.eevdf_fair_queue.specs.Owed.{reloaded_from};

use crate::fair_queue::FairQueue;
use eevdf_queue::{Parcel, Queue};

impl FairQueue {
    /// Puts a task to sleep here as [`Queue::put_asleep`](eevdf_queue::Queue::put_asleep) does.
    pub fn put_asleep(&mut self, parcel: Parcel)
        requires not_runnable { map.get self.old.queue.state.runnable parcel.task ≡ None }
        requires not_asleep { map.get self.old.queue.state.asleep parcel.task ≡ None }
        ensures after { self.new.queue.state ≡ moves.put_asleep self.old.queue.state parcel }
        ensures pick_depth { self.new.queue.pick_depth ≡ self.old.queue.pick_depth }
        ensures bounds { self.new.bounds ≡ self.old.bounds }
        ensures clock { self.new.clock ≡ self.old.clock }
    {
        self.queue.put_asleep(parcel);
    }

    /// Puts a task to sleep here as one that has dozed off, as [`Queue::put_dozing`](eevdf_queue::Queue::put_dozing) does.
    pub fn put_dozing(&mut self, parcel: Parcel)
        requires not_runnable { map.get self.old.queue.state.runnable parcel.task ≡ None }
        requires not_asleep { map.get self.old.queue.state.asleep parcel.task ≡ None }
        ensures after { self.new.queue.state ≡ dozes.put_dozing self.old.queue.state parcel }
        ensures pick_depth { self.new.queue.pick_depth ≡ self.old.queue.pick_depth }
        ensures bounds { self.new.bounds ≡ self.old.bounds }
        ensures clock { self.new.clock ≡ self.old.clock }
    {
        self.queue.put_dozing(parcel);
    }

    /// Takes out a task, whichever is here, as [`Queue::take_any`](eevdf_queue::Queue::take_any) does.
    pub fn take_any(&mut self) -> Option<Parcel>
        ensures parcel { result ≡ (closing.take_any self.old.queue.state).0 }
        ensures after { self.new.queue.state ≡ (closing.take_any self.old.queue.state).1 }
        ensures none { IsNone result ↔ closing.IsWithoutTasks self.old.queue.state }
        ensures nowhere { IfSome result (λ parcel. IsNowhere self.new.queue.state parcel.task) }
        ensures fewer { IfSome result (λ _. closing.task_count self.old.queue.state
            ≡ suc (closing.task_count self.new.queue.state)) }
        ensures pick_depth { self.new.queue.pick_depth ≡ self.old.queue.pick_depth }
        ensures bounds { self.new.bounds ≡ self.old.bounds }
        ensures clock { self.new.clock ≡ reloaded_from self.old self.new }
    {
        let before = self.queue.load();
        let parcel = self.queue.take_any();
        self.clock.reload(before, self.queue.load());
        parcel
    }

    /// The queue alone, with all its tasks: nothing is kept beside it any more.
    pub fn into_queue(self) -> Queue
        ensures { result ≡ self.queue }
    {
        let FairQueue {
            queue,
            bounds: _,
            clock: _,
        } = self;
        queue
    }
}
