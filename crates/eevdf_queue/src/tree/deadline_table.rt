ghost use Rattle.std.specs.Prelude.{◌≡◌, ◌↔◌, ℕ, ◌==◌, ◌<◌, ◌^◌, if◌then◌else◌, pos, true, unsigned_abs};
ghost use Rattle.eevdf_queue.specs.TreeStores.{kept_at, noted, IsKeyIn};

use crate::entry::Entry;
use crate::task_id::TaskId;
use crate::tree::key::TreeKey;
use std::marker::Model;

/// The deadlines of runnable tasks by number, so that a task that is named by its number alone is found by a
/// descent and not by a walk over the tree, and is known not to be here by a look. The table stands in the queue itself and takes
/// no memory.
///
/// A deadline is kept as twice itself and one more, and 0 is kept of a number without a runnable task. So a new table is all zeros,
/// which are filled in where it stands. One of -2^63 was seen to fill an array on the stack first.
#[derive(Drop)]
pub struct DeadlineTable {
    by_number: [i64; TaskId::COUNT],
}

impl Model for DeadlineTable {
    ghost use Rattle.std.specs.Prelude.{List, ℤ};

    ghost Value = { List ℤ };

    ghost view = { λ a. a.by_number };
}

impl DeadlineTable {
    /// The table of no task.
    pub fn new() -> DeadlineTable
        ensures { (q : ℕ) → kept_at result q ≡ pos 0 }
    {
        let by_number = [0; TaskId::COUNT];
        DeadlineTable { by_number }
    }

    /// The key of a number. Its deadline is any where none is kept.
    pub fn key(&self, number: TaskId) -> TreeKey
        ensures number { result.number ≡ number }
        ensures deadline { IsKeyIn self.now result }
    {
        TreeKey {
            deadline: self.by_number[number.index()] >> 1,
            number,
        }
    }

    /// Whether no deadline is kept of a number: then it has no runnable task.
    pub fn is_absent(&self, number: TaskId) -> bool
        ensures { (result ≡ true) ↔ (kept_at self.now number ≡ pos 0) }
    {
        self.by_number[number.index()] == 0
    }

    /// Notes the deadline of a task's entry.
    pub fn note(&mut self, number: TaskId, entry: &Entry)
        requires { unsigned_abs entry.now.d < 2 ^ 62 }
        ensures { (q : ℕ)
            → kept_at self.new q
            ≡ (if q == number then noted entry.now.d else kept_at self.old q) }
    {
        self.by_number[number.index()] = entry.d * 2 + 1;
    }

    /// Forgets the deadline of a number.
    pub fn forget(&mut self, number: TaskId)
        ensures { (q : ℕ)
            → kept_at self.new q ≡ (if q == number then pos 0 else kept_at self.old q) }
    {
        self.by_number[number.index()] = 0;
    }
}
