//! Who runs, and what it is charged.

ghost use Rattle.std.specs.Prelude.{◌≡◌, ◌↔◌, IfSome, IsNone, pos, true};
ghost use Rattle.std.specs.FinMap as map;
ghost use Rattle.eevdf_queue.specs.Leaving.{nobody_runs};
ghost use Rattle.eevdf_queue.specs.Pick.{IsPick, adopted, after_pick, pick_of, view_after_pick};
ghost use Rattle.eevdf_queue.specs.Rebase as rebases;
ghost use Rattle.eevdf_queue.specs.Sums.{virtual_time};
ghost use Rattle.eevdf_queue.specs.Tick as ticks;
ghost use Rattle.eevdf_queue.specs.TimeToResched.{IsShortest, ends_request};
ghost use Rattle.eevdf_queue.specs.Yield as yields;
ghost use Rattle.eevdf_fair_queue.specs.Bounds as bounds;
ghost use Rattle.eevdf_fair_queue.specs.Fair.{charged_by};
ghost use Rattle.eevdf_fair_queue.specs.Owed.{charged_from};
ghost use Rattle.eevdf_fair_queue.specs.ShareClock as clock;

use crate::fair_queue::FairQueue;
use eevdf_queue::{TaskId, TickAnswer, YieldAnswer};
use eevdf_weight::Ns;

impl FairQueue {
    /// Lets the task run that [`Queue::pick`](eevdf_queue::Queue::pick) does. A turn begins: nobody's deadline is before the virtual
    /// runtime of the task that is picked.
    pub fn pick(&mut self) -> Option<TaskId>
        ensures number { result ≡ pick_of self.old.queue.state.runnable }
        ensures picked { IfSome result (IsPick self.old.queue.state.runnable) }
        ensures none { IsNone result ↔ (self.old.queue.state.runnable ≡ map.empty) }
        ensures after { self.new.queue.state ≡ after_pick self.old.queue.state }
        ensures seen { self.new.queue ≡ view_after_pick self.old.queue }
        ensures bounds { self.new.bounds ≡ bounds.picked self.old.bounds }
        ensures clock { self.new.clock ≡ self.old.clock }
    {
        self.bounds.pick(&mut self.queue)
    }

    /// The task that a pick would let run now, as [`Queue::peek`](eevdf_queue::Queue::peek) answers it.
    pub fn peek(&self) -> Option<TaskId>
        ensures number { result ≡ pick_of self.now.queue.state.runnable }
        ensures picked { IfSome result (IsPick self.now.queue.state.runnable) }
        ensures none { IsNone result ↔ (self.now.queue.state.runnable ≡ map.empty) }
    {
        self.queue.peek()
    }

    /// The shortest tick that uses up the running task's request, as [`Queue::time_to_resched`](eevdf_queue::Queue::time_to_resched)
    /// answers it.
    pub fn time_to_resched(&self) -> Option<Ns>
        ensures { IsShortest (λ ns. ends_request (ticks.tick self.now.queue.state ns).0) result }
    {
        self.queue.time_to_resched()
    }

    /// Charges the running task as [`Queue::tick`](eevdf_queue::Queue::tick) does. The turn is longer by the charge, and with it, where it
    /// is longer than all before it, the longest one.
    #[inline(always)]
    pub fn tick(&mut self, ns: Ns) -> TickAnswer
        ensures answer { result ≡ (ticks.tick self.old.queue.state ns).0 }
        ensures after { self.new.queue.state ≡ (ticks.tick self.old.queue.state ns).1 }
        ensures pick_depth { self.new.queue.pick_depth ≡ self.old.queue.pick_depth }
        ensures bounds { self.new.bounds ≡ charged_by self.old.bounds ns result self.new.queue.state }
        ensures clock { self.new.clock ≡ charged_from self.old ns result }
    {
        let answer = self.bounds.tick(&mut self.queue, ns);
        if let TickAnswer::Charged { .. } = answer {
            self.clock.charge(ns, &self.queue);
        }
        answer
    }

    /// Lets a task run as [`Queue::adopt`](eevdf_queue::Queue::adopt) does. What it is charged is no turn then, and counts by where
    /// that leads.
    pub fn adopt(&mut self, task: TaskId) -> bool
        ensures here { result ≡ map.contains_key self.old.queue.state.runnable task }
        ensures after { self.new.queue.state ≡ adopted self.old.queue.state task }
        ensures pick_depth { self.new.queue.pick_depth ≡ self.old.queue.pick_depth }
        ensures bounds { self.new.bounds ≡ bounds.adopted self.old.bounds result }
        ensures clock { self.new.clock ≡ self.old.clock }
    {
        self.bounds.adopt(&mut self.queue, task)
    }

    /// Lets nobody run as [`Queue::stop_running`](eevdf_queue::Queue::stop_running) does.
    pub fn stop_running(&mut self) -> Option<TaskId>
        ensures stopped { result ≡ self.old.queue.state.running }
        ensures after { self.new.queue.state ≡ nobody_runs self.old.queue.state }
        ensures pick_depth { self.new.queue.pick_depth ≡ self.old.queue.pick_depth }
        ensures bounds { self.new.bounds ≡ self.old.bounds }
        ensures clock { self.new.clock ≡ self.old.clock }
    {
        self.queue.stop_running()
    }

    /// Makes the running task's deadline later as [`Queue::yield_now`](eevdf_queue::Queue::yield_now) does.
    pub fn yield_now(&mut self) -> YieldAnswer
        ensures answer { result ≡ (yields.yield_now self.old.queue.state).0 }
        ensures after { self.new.queue.state ≡ (yields.yield_now self.old.queue.state).1 }
        ensures pick_depth { self.new.queue.pick_depth ≡ self.old.queue.pick_depth }
        ensures bounds { self.new.bounds ≡ self.old.bounds }
        ensures clock { self.new.clock ≡ self.old.clock }
    {
        self.queue.yield_now()
    }

    /// Lowers all virtual times as [`Queue::rebase`](eevdf_queue::Queue::rebase) does, and the front and the furthest with them.
    pub fn rebase(&mut self) -> i64
        ensures by { result ≡ (rebases.rebase self.old.queue.state).0 }
        ensures after { self.new.queue.state ≡ (rebases.rebase self.old.queue.state).1 }
        ensures time { rebases.can_rebase self.old.queue.state ≡ true → virtual_time self.new.queue.state ≡ pos 0 }
        ensures pick_depth { self.new.queue.pick_depth ≡ self.old.queue.pick_depth }
        ensures depths { self.new.queue.depths ≡ self.old.queue.depths }
        ensures bounds { self.new.bounds ≡ bounds.lowered self.old.bounds result }
        ensures clock { self.new.clock ≡ clock.lowered self.old.clock result }
    {
        let by = self.bounds.rebase(&mut self.queue);
        self.clock.lower(by);
        by
    }
}
