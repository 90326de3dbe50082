ghost use Rattle.std.specs.Prelude.{◌≡◌, if◌then◌else◌};
ghost use Rattle.eevdf_queue.specs.declared.tree.sides.Side.TheVariants.{Left, Right};
ghost use Rattle.eevdf_queue.specs.TreeKeys as keys;
ghost use Rattle.eevdf_queue.specs.TreeTasks as ordering;

use crate::entry::Entry;
use crate::task::Task;
use crate::task_id::TaskId;
use crate::tree::sides::Side;

/// What places a task in a tree: the deadline, then the number.
#[derive(Clone, Copy)]
pub struct TreeKey {
    pub deadline: i64,
    pub number: TaskId,
}

impl TreeKey {
    /// The key of a task with this number and entry.
    pub fn of(number: TaskId, entry: &Entry) -> TreeKey
        ensures { result ≡ record { deadline = entry.now.d; number = number } }
    {
        TreeKey {
            deadline: entry.d,
            number,
        }
    }

    /// Whether the key is a task's own.
    pub fn is_of(&self, task: &Task) -> bool
        ensures { result ≡ keys.is_of self.now task.now }
    {
        self.deadline == task.entry.d && self.number.get() == task.number.get()
    }

    /// Whether the key comes before a task's.
    pub fn is_under(&self, task: &Task) -> bool
        ensures { result ≡ keys.is_under self.now task.now }
    {
        if self.deadline == task.entry.d {
            self.number.get() < task.number.get()
        } else {
            self.deadline < task.entry.d
        }
    }

    /// The side of a task on which the key stands, where it isn't the task's own.
    #[inline(always)]
    pub fn side_of(&self, task: &Task) -> Side
        ensures { result ≡ (if keys.is_under self.now task.now then Left else Right) }
    {
        if self.is_under(task) {
            Side::Left
        } else {
            Side::Right
        }
    }
}

/// Whether a task has the earlier deadline, or the same and the lower number.
pub fn precedes(task: &Task, other: &Task) -> bool
    ensures { result ≡ ordering.precedes task.now other.now }
{
    task.entry.d < other.entry.d
        || task.entry.d == other.entry.d && task.number.get() < other.number.get()
}
