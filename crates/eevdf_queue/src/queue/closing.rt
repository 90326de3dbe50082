//! How a queue is ended, whatever tasks it has.

ghost use Rattle.std.specs.Prelude.{◌≡◌, suc, ◌↔◌, None, IfSome, IsNone};
ghost use Rattle.std.specs.FinMap as map;
ghost use Rattle.eevdf_queue.specs.{Ascending.sleeping_tasks, Leaving.IsNowhere};
ghost use Rattle.eevdf_queue.specs.Closing as closing;

use crate::parcel::Parcel;
use crate::queue::Queue;

impl Queue {
    /// Takes out a task: the one that would be picked, or, where none is runnable, the sleeping one of lowest number, each as
    /// `detach_running`, `detach` and `detach_asleep` take it. `None` exactly where no task is here, and then nothing has changed.
    /// Called until it answers `None`, it empties a queue whose tasks needn't be known. The sleeping task is looked for from
    /// number 0 on each time, so to empty a queue of sleeping tasks takes a number of steps that grows with the square of
    /// their numbers; who knows them detaches each with `detach_asleep`.
    pub fn take_any(&mut self) -> Option<Parcel>
        ensures parcel { result ≡ (closing.take_any self.old.state).0 }
        ensures after { self.new.state ≡ (closing.take_any self.old.state).1 }
        ensures none { IsNone result ↔ closing.IsWithoutTasks self.old.state }
        ensures nowhere { IfSome result (λ parcel. IsNowhere self.new.state parcel.task) }
        ensures fewer { IfSome result
            (λ _. closing.task_count self.old.state ≡ suc (closing.task_count self.new.state)) }
        ensures pick_depth { self.new.pick_depth ≡ self.old.pick_depth }
    {
        match self.peek() {
            Some(task) => Some(self.take(task)),
            None => self.take_sleeper(),
        }
    }

    /// Takes out the sleeping task of lowest number.
    #[tactic(auto, using(crate::proofs::Closing::fewer_asleep, crate::proofs::Closing::first_there, crate::proofs::Closing::none_asleep, crate::proofs::Closing::none_where))]
    fn take_sleeper(&mut self) -> Option<Parcel>
        ensures parcel { result
            ≡ (closing.take_sleeper self.old.state (closing.first_number (sleeping_tasks self.old.state))).0 }
        ensures after { self.new.state
            ≡ (closing.take_sleeper self.old.state (closing.first_number (sleeping_tasks self.old.state))).1 }
        ensures none { IsNone result ↔ (self.old.state.asleep ≡ map.empty) }
        ensures nowhere { IfSome result (λ parcel. IsNowhere self.new.state parcel.task) }
        ensures fewer { IfSome result
            (λ _. closing.task_count self.old.state ≡ suc (closing.task_count self.new.state)) }
        ensures pick_depth { self.new.pick_depth ≡ self.old.pick_depth }
    {
        let Some(first) = self.sleeping_tasks().next() else {
            return None;
        };
        self.detach_asleep(first.0)
    }
}
