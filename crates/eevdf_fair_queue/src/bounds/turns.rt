//! Who runs in a queue, and what it is charged.

ghost use Rattle.std.specs.Prelude.{◌≡◌, ◌↔◌, IfSome, IsNone, pos, true};
ghost use Rattle.std.specs.FinMap as map;
ghost use Rattle.eevdf_weight.specs.Limits.{is_in_range};
ghost use Rattle.eevdf_queue.specs.Pick.{IsPick, adopted, after_pick, pick_of, view_after_pick};
ghost use Rattle.eevdf_queue.specs.Rebase as rebases;
ghost use Rattle.eevdf_queue.specs.Sums.{virtual_time};
ghost use Rattle.eevdf_queue.specs.Tick as ticks;
ghost use Rattle.eevdf_fair_queue.specs.Bounds as bounds;
ghost use Rattle.eevdf_fair_queue.specs.Fair.{IsFair, charged_by};

use crate::bounds::Bounds;
use eevdf_queue::laws::{every_queue, pick_is_first, pick_of_nobody};
use eevdf_queue::{Entry, Queue, TaskId, TickAnswer, TickFrom};
use eevdf_weight::{Ns, level_charge};

impl Bounds {
    /// Lets the task run that [`Queue::pick`](eevdf_queue::Queue::pick) does. A turn begins: nobody's deadline is before the virtual
    /// runtime of the task that is picked.
    pub fn pick(&mut self, queue: &mut Queue) -> Option<TaskId>
        ensures number { result ≡ pick_of queue.old.state.runnable }
        ensures picked { IfSome result (IsPick queue.old.state.runnable) }
        ensures none { IsNone result ↔ (queue.old.state.runnable ≡ map.empty) }
        ensures after { queue.new.state ≡ after_pick queue.old.state }
        ensures seen { queue.new ≡ view_after_pick queue.old }
        ensures bounds { self.new ≡ bounds.picked self.old }
        ensures fair { IsFair queue.old.state self.old → IsFair queue.new.state self.new }
    {
        pick_is_first();
        pick_of_nobody();
        let picked = queue.pick();
        *self = self.picked();
        picked
    }

    /// Charges the running task as [`Queue::tick`](eevdf_queue::Queue::tick) does. The turn is longer by the charge, and with it, where it
    /// is longer than all before it, the longest one.
    #[inline(always)]
    pub fn tick(&mut self, queue: &mut Queue, ns: Ns) -> TickAnswer
        ensures answer { result ≡ (ticks.tick queue.old.state ns).0 }
        ensures after { queue.new.state ≡ (ticks.tick queue.old.state ns).1 }
        ensures pick_depth { queue.new.pick_depth ≡ queue.old.pick_depth }
        ensures bounds { self.new ≡ charged_by self.old ns result queue.new.state }
        ensures fair { IsFair queue.old.state self.old → IsFair queue.new.state self.new }
    {
        every_queue(queue);
        let TickFrom { answer, before } = queue.tick_from(ns);
        every_queue(queue);
        if let TickAnswer::Charged { .. } = answer {
            self.charge_from(ns, before);
        }
        answer
    }

    /// Lets a task run as [`Queue::adopt`](eevdf_queue::Queue::adopt) does. What it is charged is no turn then, and counts by where
    /// that leads.
    pub fn adopt(&mut self, queue: &mut Queue, task: TaskId) -> bool
        ensures here { result ≡ map.contains_key queue.old.state.runnable task }
        ensures after { queue.new.state ≡ adopted queue.old.state task }
        ensures pick_depth { queue.new.pick_depth ≡ queue.old.pick_depth }
        ensures bounds { self.new ≡ bounds.adopted self.old result }
        ensures fair { IsFair queue.old.state self.old → IsFair queue.new.state self.new }
    {
        let here = queue.adopt(task);
        *self = self.adopted(here);
        here
    }

    /// Lowers all virtual times as [`Queue::rebase`](eevdf_queue::Queue::rebase) does, and the front and the furthest with them.
    pub fn rebase(&mut self, queue: &mut Queue) -> i64
        ensures by { result ≡ (rebases.rebase queue.old.state).0 }
        ensures after { queue.new.state ≡ (rebases.rebase queue.old.state).1 }
        ensures time { rebases.can_rebase queue.old.state ≡ true → virtual_time queue.new.state ≡ pos 0 }
        ensures pick_depth { queue.new.pick_depth ≡ queue.old.pick_depth }
        ensures depths { queue.new.depths ≡ queue.old.depths }
        ensures bounds { self.new ≡ bounds.lowered self.old result }
        ensures fair { IsFair queue.old.state self.old → IsFair queue.new.state self.new }
    {
        every_queue(queue);
        let by = queue.rebase();
        every_queue(queue);
        *self = self.lowered(by);
        by
    }

    /// Makes them those after the charge, with the entry that whoever runs had before it.
    #[tactic(auto, using(eevdf_queue::proofs::Bounds::charge_of_small))]
    pub fn charge_from(&mut self, ns: Ns, runner: Option<Entry>)
        requires { IfSome runner (λ e. is_in_range e.v ≡ true) }
        ensures { self.new ≡ bounds.charged_from self.old ns runner }
    {
        if let Some(entry) = runner {
            let charge = level_charge(ns.get(), entry.nice);
            self.charge(charge, entry.v + charge);
        }
    }
}
