ghost use Rattle.std.specs.Prelude.{◌≡◌, ◌≢◌, ◌<◌, ◌≤◌, ◌^◌, ◌-ℤ◌, ◌⊎◌, unsigned_abs, true, false, IfSome, IsNone};
ghost use Rattle.eevdf_queue.specs.Numbers.{number_limit};

use crate::entry::Entry;
use crate::task::Task;
use crate::task_id::TaskId;
use crate::tree::key::TreeKey;
use crate::tree::lowering::earlier;
use eevdf_weight::{Nice, Slice};

/// The number of the task that is picked, and the depth of its node.
#[derive(Clone, Copy)]
pub struct Pick {
    pub task: TaskId,
    pub depth: u32,
}

/// What is kept of the task that was picked last, so that no descent to it is needed: its entry but for the deadline, which
/// the table of deadlines has, until any task gets another entry or leaves; and that it is the pick, until then or until a
/// task joins.
#[derive(Clone, Copy)]
pub struct PickedTask {
    pub runtime: i64,
    // the nice level and the slice stand as in an entry, so that both are copied in one go
    pub nice: Nice,
    pub slice: Slice,
    /// The task's number, and `NO_TASK` where nothing is known.
    pub number: u32,
    /// The depth of its node where it is known to be the pick, else 0.
    pub depth: u32,
}

impl PickedTask {
    /// A number that no task has.
    pub const NO_TASK: u32 = TaskId::COUNT as u32;

    /// Nothing is known.
    pub fn none() -> PickedTask
        ensures { result.number ≡ number_limit }
    {
        PickedTask {
            runtime: 0,
            nice: Nice::MIN,
            slice: Slice::MIN,
            number: PickedTask::NO_TASK,
            depth: 0,
        }
    }

    /// What is known of a task that a descent has found, whose node is so deep.
    pub fn of(task: &Task, depth: u32) -> PickedTask
        ensures number { result.number ≡ task.now.number }
        ensures runtime { result.runtime ≡ task.now.entry.v }
        ensures nice { result.nice ≡ task.now.entry.nice }
        ensures slice { result.slice ≡ task.now.entry.slice }
        ensures depth { result.depth ≡ depth }
    {
        PickedTask {
            runtime: task.entry.v,
            nice: task.entry.nice,
            slice: task.entry.slice,
            number: task.number.get() as u32,
            depth,
        }
    }

    /// Whether the entry of this task is known.
    pub fn is(&self, task: TaskId) -> bool
        ensures known { result ≡ true → self.now.number < number_limit }
        ensures number { result ≡ true → self.now.number ≡ task }
        ensures other { result ≡ false → self.now.number ≢ task }
    {
        u64::from(self.number) == task.get()
    }

    /// Forgets the task.
    #[inline(always)]
    pub fn forget(&mut self)
        ensures number { self.new.number ≡ number_limit }
        ensures depth { self.new.depth ≡ 0 }
    {
        self.number = PickedTask::NO_TASK;
        self.depth = 0;
    }

    /// Lowers the virtual runtime by a number, where the task is known.
    pub fn lower(&mut self, by: i64)
        requires near { self.old.number < number_limit → unsigned_abs self.old.runtime ≤ 2 ^ 60 }
        requires small { unsigned_abs by ≤ 2 ^ 60 }
        ensures runtime { self.old.number < number_limit
            → self.new.runtime ≡ self.old.runtime -ℤ by }
        ensures number { self.new.number ≡ self.old.number }
        ensures nice { self.new.nice ≡ self.old.nice }
        ensures slice { self.new.slice ≡ self.old.slice }
        ensures depth { self.new.depth ≡ self.old.depth }
    {
        if self.number < PickedTask::NO_TASK {
            self.runtime = earlier(self.runtime, by);
        }
    }

    /// The pick, where it is known.
    #[inline(always)]
    pub fn known_pick(&self) -> Option<Pick>
        ensures known { IfSome result (λ p. (self.now.number < number_limit) × (1 ≤ self.now.depth)
            × (p.task ≡ self.now.number) × (p.depth ≡ self.now.depth)) }
        ensures unknown { IsNone result
            → (self.now.depth ≡ 0) ⊎ (number_limit ≤ self.now.number) }
    {
        if self.depth == 0 {
            return None;
        }
        let task = TaskId::new(u64::from(self.number))?;
        Some(Pick {
            task,
            depth: self.depth,
        })
    }

    /// The entry with the deadline of a key.
    pub fn entry(&self, key: &TreeKey) -> Entry
        ensures { result ≡ record {
          v = self.now.runtime;
          d = key.now.deadline;
          nice = self.now.nice;
          slice = self.now.slice;
        } }
    {
        Entry {
            v: self.runtime,
            d: key.deadline,
            nice: self.nice,
            slice: self.slice,
        }
    }
}
