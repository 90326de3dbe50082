//! All tasks of a tree lowered by one number in virtual time. Each keeps its place.

ghost use Rattle.std.specs.Prelude.{◌≡◌, ℕ, ◌≤◌, ◌^◌, unsigned_abs, ◌&&◌};
ghost use Rattle.std.specs.List.{AllByRecursion};
ghost use Rattle.eevdf_queue.specs.{Moves.is_entry_in_range, TaskLists.find_task, TreeStores.kept_at};
ghost use Rattle.eevdf_queue.specs.{TreeShape.tasks_in, TreeShape.height_in, TreeShape.depths_in};
ghost use Rattle.eevdf_queue.specs.TreeLowering.{IsNear, lowered_task, lowered_list, are_tasks_in_range, noted_or};

use super::TreeNode;
use super::mending::look_around;
use crate::request::{is_deadline_in_range, is_runtime_in_range};
use crate::task::Task;
use crate::tree::deadline_table::DeadlineTable;
use crate::tree::lowering::lowered;

/// Lowers the virtual runtimes and the deadlines of the tasks below a link, notes these in the table, and answers whether all
/// are in range afterwards.
#[cycle(lower)]
#[inline(always)]
pub fn lower(link: &mut Option<Box<TreeNode>>, deadlines: &mut DeadlineTable, by: i64) -> bool
    requires near { AllByRecursion IsNear (tasks_in link.old) }
    requires small { unsigned_abs by ≤ 2 ^ 60 }
    ensures tasks { tasks_in link.new ≡ lowered_list by (tasks_in link.old) }
    ensures height { height_in link.new ≡ height_in link.old }
    ensures depths { depths_in link.new ≡ depths_in link.old }
    ensures noted { (q : ℕ) → kept_at deadlines.new q
        ≡ noted_or (kept_at deadlines.old q) (find_task q (tasks_in link.new)) }
    ensures in_range { result ≡ are_tasks_in_range (tasks_in link.new) }
{
    match link {
        None => true,
        Some(node) => lower_node(node, deadlines, by),
    }
}

/// The same of a node. It stands apart so that nothing is called where no node is below a link, as below most.
#[cycle(lower)]
#[tactic(auto, using(crate::proofs::LoweredLists::depths_lowered, crate::proofs::LoweredLists::noted_around))]
fn lower_node(node: &mut TreeNode, deadlines: &mut DeadlineTable, by: i64) -> bool
    requires near { AllByRecursion IsNear node.old.tasks }
    requires small { unsigned_abs by ≤ 2 ^ 60 }
    ensures tasks { node.new.tasks ≡ lowered_list by node.old.tasks }
    ensures height { node.new.height ≡ node.old.height }
    ensures depths { node.new.depths ≡ node.old.depths }
    ensures noted { (q : ℕ) → kept_at deadlines.new q
        ≡ noted_or (kept_at deadlines.old q) (find_task q node.new.tasks) }
    ensures in_range { result ≡ are_tasks_in_range node.new.tasks }
{
    let right = lower(&mut node.parts.sides.right, deadlines, by);
    let own = lower_task(&mut node.parts.task, by);
    deadlines.note(node.parts.task.number, &node.parts.task.entry);
    let left = lower(&mut node.parts.sides.left, deadlines, by);
    node.kept.least = look_around(&node.parts).least;
    all(left, own, right)
}

/// Lowers a task, and answers whether it is in range afterwards.
fn lower_task(task: &mut Task, by: i64) -> bool
    requires near { IsNear task.old }
    requires small { unsigned_abs by ≤ 2 ^ 60 }
    ensures task { task.new ≡ lowered_task by task.old }
    ensures in_range { result ≡ is_entry_in_range task.new.entry }
{
    task.entry = lowered(&task.entry, by);
    is_runtime_in_range(&task.entry) && is_deadline_in_range(&task.entry)
}

fn all(left: bool, own: bool, right: bool) -> bool
    ensures { result ≡ (left && (own && right)) }
{
    left && own && right
}
