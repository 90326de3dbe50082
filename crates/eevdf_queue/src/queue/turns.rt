//! Which task of a queue runs, and what it is charged.

ghost use Rattle.std.specs.Prelude.{◌≡◌, ◌<◌, ◌≤◌, ◌↔◌, ◌+◌, ◌/◌, ◌^◌, true, Some, IfSome, IsNone};
ghost use Rattle.std.specs.Option.{option_map};
ghost use Rattle.std.specs.FinMap as map;
ghost use Rattle.eevdf_queue.specs.Moves as moves;
ghost use Rattle.eevdf_queue.specs.Pick.{IsPick, pick_of, after_pick, adopted, view_after_pick};
ghost use Rattle.eevdf_queue.specs.Tick as ticks;
ghost use Rattle.eevdf_queue.specs.TimeToResched.{IsShortest, ends_request};
ghost use Rattle.eevdf_queue.specs.Yield as yields;

use crate::answers::{TickAnswer, TickFrom, YieldAnswer};
use crate::entry::Entry;
use crate::queue::Queue;
use crate::queue::time_to_use_up::time_to_use_up;
use crate::request::{charged, is_deadline_in_range, yielded};
use crate::task_id::TaskId;
use crate::tree::picked_task::Pick;
use eevdf_weight::Ns;

/// The task that runs, with its entry.
#[derive(Clone, Copy)]
struct Runner {
    task: TaskId,
    entry: Entry,
}

impl Queue {
    /// Lets the eligible task of earliest virtual deadline run, the lower number where deadlines are equal.
    /// `None` exactly when nothing is runnable. With `n` runnable tasks, its node in the tree has a depth
    /// `k` such that `2 ^ (k / 2) <= n + 1`, where the root's depth is 1, and the descent to it goes over so many nodes. Where
    /// no task was put in, taken out, charged or given another entry since the last pick, its answer still holds, with its
    /// depth, and no descent is made.
    #[tactic(auto, using(crate::proofs::TreeHeights::low))]
    pub fn pick(&mut self) -> Option<TaskId>
        ensures number { result ≡ pick_of self.old.state.runnable }
        ensures picked { IfSome result (IsPick self.old.state.runnable) }
        ensures none { IsNone result ↔ (self.old.state.runnable ≡ map.empty) }
        ensures after { self.new.state ≡ after_pick self.old.state }
        ensures no_pick_depth { IsNone result → self.new.pick_depth ≡ 0 }
        ensures pick_depth { IfSome result (λ _. 1 ≤ self.new.pick_depth) }
        ensures few_levels { IfSome result
            (λ _. 2 ^ (self.new.pick_depth / 2) ≤ map.len self.old.state.runnable + 1) }
        ensures depth { IfSome result (λ t. map.get self.old.depths t ≡ Some self.new.pick_depth) }
        ensures seen { self.new ≡ view_after_pick self.old }
    {
        self.runnable.keeps();
        if let Some(known) = self.runnable.known_pick() {
            return Some(self.run(known));
        }
        let Some(first) = self.runnable.pick() else {
            self.pick_depth = 0;
            return None;
        };
        Some(self.run(first))
    }

    /// The task that a pick would let run now; nothing changes. Where it isn't the running one, as it may be after a wake, that
    /// one is to be preempted. `None` exactly when nothing is runnable. It takes no more than a pick, and no descent where a
    /// pick would make none.
    pub fn peek(&self) -> Option<TaskId>
        ensures number { result ≡ pick_of self.now.state.runnable }
        ensures picked { IfSome result (IsPick self.now.state.runnable) }
        ensures none { IsNone result ↔ (self.now.state.runnable ≡ map.empty) }
    {
        self.runnable.peek()
    }

    /// Lets this task run as if it had been picked, whichever a pick would choose: who ran before waits, and no task's place
    /// changes. Nothing changes where it runs already. `false` exactly where it isn't runnable here, and then nothing has changed.
    pub fn adopt(&mut self, task: TaskId) -> bool
        ensures here { result ≡ map.contains_key self.old.state.runnable task }
        ensures after { self.new.state ≡ adopted self.old.state task }
        ensures pick_depth { self.new.pick_depth ≡ self.old.pick_depth }
    {
        if self.entry(task).is_none() {
            return false;
        }
        self.running = Some(task);
        true
    }

    /// Lets the task of a pick run.
    #[inline(always)]
    fn run(&mut self, pick: Pick) -> TaskId
        requires here { map.contains_key self.old.state.runnable pick.task ≡ true }
        requires few { pick.depth < 2 ^ 16 }
        ensures task { result ≡ pick.task }
        ensures after { self.new.state ≡ record self.old.state { running = Some pick.task } }
        ensures pick_depth { self.new.pick_depth ≡ pick.depth }
        ensures depths { self.new.depths ≡ self.old.depths }
    {
        self.running = Some(pick.task);
        self.pick_depth = pick.depth as u16;
        pick.task
    }

    /// Charges the running task for `ns`, and gives it a fresh request where it has used up its own. Nobody
    /// else is picked.
    pub fn tick(&mut self, ns: Ns) -> TickAnswer
        ensures answer { result ≡ (ticks.tick self.old.state ns).0 }
        ensures after { self.new.state ≡ (ticks.tick self.old.state ns).1 }
        ensures pick_depth { self.new.pick_depth ≡ self.old.pick_depth }
    {
        let Some(runner) = self.runner() else {
            return TickAnswer::Idle;
        };
        self.charge(runner, ns)
    }

    /// Charges the running task as [`tick`](Queue::tick) does, and tells besides the entry that it had before. Both take one search.
    #[inline(always)]
    pub fn tick_from(&mut self, ns: Ns) -> TickFrom
        ensures answer { result.answer ≡ (ticks.tick self.old.state ns).0 }
        ensures before { result.before ≡ ticks.running_entry self.old.state }
        ensures after { self.new.state ≡ (ticks.tick self.old.state ns).1 }
        ensures pick_depth { self.new.pick_depth ≡ self.old.pick_depth }
    {
        let Some(runner) = self.runner() else {
            return TickFrom {
                answer: TickAnswer::Idle,
                before: None,
            };
        };
        let before = Some(runner.entry);
        let answer = self.charge(runner, ns);
        TickFrom { answer, before }
    }

    /// Charges the task that runs, which has this entry.
    #[inline(always)]
    fn charge(&mut self, runner: Runner, ns: Ns) -> TickAnswer
        requires runs { Some runner.task ≡ self.old.state.running }
        requires here { map.get self.old.state.runnable runner.task ≡ Some runner.entry }
        requires in_range { moves.is_entry_in_range runner.entry ≡ true }
        ensures answer { result ≡ (ticks.tick self.old.state ns).0 }
        ensures after { self.new.state ≡ (ticks.tick self.old.state ns).1 }
        ensures pick_depth { self.new.pick_depth ≡ self.old.pick_depth }
    {
        let charged = charged(&runner.entry, ns);
        if !charged.resched {
            self.runnable
                .age(runner.task, &runner.entry, &charged.entry);
            return TickAnswer::Charged {
                task: runner.task,
                resched: false,
            };
        }
        if !is_deadline_in_range(&charged.entry) {
            return TickAnswer::Range;
        }
        self.runnable
            .renew(runner.task, &runner.entry, charged.entry);
        TickAnswer::Charged {
            task: runner.task,
            resched: true,
        }
    }

    /// The shortest tick that uses up the running task's request: one of that length answers that it is time to pick, and no
    /// shorter one does. A timer that is set to it makes periodic ticks needless. `None` exactly where nobody runs, or where the
    /// longest tick, of a second, leaves some of the request. Where the fresh request would be out of range, a tick of that
    /// length answers `Range`.
    #[tactic(auto, using(crate::proofs::ShortestTicks::running_shortest, crate::proofs::ShortestTicks::nobody_ends))]
    pub fn time_to_resched(&self) -> Option<Ns>
        ensures { IsShortest (λ ns. ends_request (ticks.tick self.now.state ns).0) result }
    {
        let Some(runner) = self.runner() else {
            return None;
        };
        time_to_use_up(&runner.entry)
    }

    /// Makes the running task's deadline one request later: by its slice, charged to its weight. The task runs
    /// on until the next pick. Nothing has changed where the answer isn't `Yielded`.
    pub fn yield_now(&mut self) -> YieldAnswer
        ensures answer { result ≡ (yields.yield_now self.old.state).0 }
        ensures after { self.new.state ≡ (yields.yield_now self.old.state).1 }
        ensures pick_depth { self.new.pick_depth ≡ self.old.pick_depth }
    {
        let Some(runner) = self.runner() else {
            return YieldAnswer::Idle;
        };
        let yielded = yielded(&runner.entry);
        if !is_deadline_in_range(&yielded) {
            return YieldAnswer::Range;
        }
        self.runnable.renew(runner.task, &runner.entry, yielded);
        YieldAnswer::Yielded
    }

    /// The task that runs, with its entry.
    fn runner(&self) -> Option<Runner>
        ensures task { option_map (λ r. r.task) result ≡ self.now.state.running }
        ensures entry { IfSome result (λ r. map.get self.now.state.runnable r.task ≡ Some r.entry) }
        ensures in_range { IfSome result (λ r. moves.is_entry_in_range r.entry ≡ true) }
    {
        let Some(task) = self.running else {
            return None;
        };
        self.runnable.keeps();
        let Some(entry) = self.runnable.get(task) else {
            return None;
        };
        Some(Runner { task, entry })
    }
}
