//! The boxed node of a balanced tree of tasks. It carries one task, alone in a parcel or between the two sides
//! of a subtree, and keeps the height and the least virtual runtime of that subtree.

ghost use Rattle.std.specs.Prelude.{◌≡◌, ◌≤◌, ◌^◌, [], ◌∷◌, ◌++◌, length, is_some, true, None, Some, IfSome};
ghost use Rattle.std.specs.Option.{option_map, unwrap_or};
ghost use Rattle.eevdf_queue.specs.{TaskLists.first_task, TaskLists.find_task, TaskLists.DifferInNumber, Pick.is_eligible_at};
ghost use Rattle.eevdf_queue.specs.{TreeLeast.least_of, TreeLeast.AreLow, NodeDepths.depth_at};
ghost use Rattle.eevdf_queue.specs.TreeTasks.{AreOrdered, IsAtDeadline, first_that, last_waiting};
ghost use Rattle.eevdf_queue.specs.TreeShape.{tasks_in, height_in, depths_in, IsFull, IsAlone};

mod ageing;
mod edit;
mod lowering;
mod mending;
mod rotation;

use crate::entry::Entry;
use crate::task::Task;
use crate::task_id::TaskId;
use crate::tree::eligible::{Threshold, is_least_eligible, is_task_eligible};
use crate::tree::key::TreeKey;
use crate::tree::least::Least;
use crate::tree::parts::{Kept, Parts};
use crate::tree::sides::Sides;
pub use ageing::{Runtimes, age};
pub use edit::{insert, remove};
pub use lowering::lower;
use std::marker::Model;

/// A task, and the nodes on either side of it.
#[derive(Drop)]
#[repr(C)]
pub struct TreeNode {
    parts: Parts<Option<Box<TreeNode>>>,
    kept: Kept,
    /// Keeps two nodes from sharing a line of 64 bytes, at any address. Nodes of tasks on different CPUs can lie side by side,
    /// and each thread that writes to its own would else take the line from the other.
    unused: [u64; 8],
}

impl Model for TreeNode {
    ghost use Rattle.std.specs.Prelude.{length};
    ghost use Rattle.eevdf_queue.specs.TreeShape.{Tree};

    ghost Value = { Tree };

    ghost use Rattle.eevdf_queue.specs.TreeNodes.{tree_of, IsNode};

    ghost view = { tree_of };

    ghost invariant = { λ a. IsNode a.kept a.parts };

    ghost size = { λ a. length a.tasks };

    ghost use Rattle.eevdf_queue.specs.TreeDepth.{depth-le-length};

    ghost size_decreases = { λ a h. depth-le-length a };
}

/// A task that a descent has found, and the depth of its node, where the root's is 1.
#[derive(Clone, Copy)]
pub struct Found<'a> {
    pub task: &'a Task,
    pub depth: u32,
}

/// The height below a link.
pub fn height(link: &Option<Box<TreeNode>>) -> u32
    ensures value { result ≡ height_in link.now }
    ensures low { result ≤ length (tasks_in link.now) }
    ensures full { IsFull result (length (tasks_in link.now)) }
{
    match link {
        None => 0,
        Some(node) => node.height(),
    }
}

/// The least virtual runtime of the tasks below a link.
pub fn least(link: &Option<Box<TreeNode>>) -> Least
    ensures value { result ≡ least_of (tasks_in link.now) }
    ensures bounded { AreLow (tasks_in link.now) }
{
    match link {
        None => Least::none(),
        Some(node) => node.least(),
    }
}

impl TreeNode {
    /// A task alone.
    pub fn new(task: Task) -> TreeNode
        ensures tasks { result.tasks ≡ task ∷ [] }
    {
        TreeNode {
            parts: Parts {
                task,
                sides: Sides {
                    left: None,
                    right: None,
                },
            },
            kept: Kept {
                height: 1,
                least: Least::of(&task),
            },
            unused: [0; 8],
        }
    }

    /// The height.
    pub fn height(&self) -> u32
        ensures value { result ≡ self.now.height }
        ensures full { IsFull self.now.height (length self.now.tasks) }
        ensures low { self.now.height ≤ length self.now.tasks }
    {
        self.kept.height
    }

    /// The least virtual runtime of the tasks.
    pub fn least(&self) -> Least
        ensures value { result ≡ least_of self.now.tasks }
        ensures bounded { AreLow self.now.tasks }
    {
        self.kept.least
    }

    /// The task of a node that is alone.
    pub fn task(&self) -> Task
        requires { IsAlone self.now }
        ensures { result ≡ first_task self.now.tasks }
    {
        self.parts.task
    }

    /// Gives another task to a node that is alone.
    #[inline(always)]
    pub fn replace(&mut self, task: Task)
        requires { IsAlone self.old }
        ensures { self.new.tasks ≡ task ∷ [] }
    {
        self.parts.task = task;
        self.kept.least = Least::of(&self.parts.task);
    }

    /// Gives another entry to the task of a node that is alone.
    pub fn replace_entry(&mut self, entry: &Entry)
        requires { IsAlone self.old }
        ensures { self.new.tasks ≡ record (first_task self.old.tasks) { entry = entry.now } ∷ [] }
    {
        self.parts.task.entry = *entry;
        self.kept.least = Least::of(&self.parts.task);
    }

    /// Gives another deadline to the task of a node that is alone.
    #[inline(always)]
    pub fn replace_deadline(&mut self, deadline: i64)
        requires { IsAlone self.old }
        ensures { self.new.tasks
            ≡ record (first_task self.old.tasks) {
              entry = record (first_task self.old.tasks).entry { d = deadline };
            } ∷ [] }
    {
        self.parts.task.entry.d = deadline;
    }

    /// Gives another lag to the task of a node that is alone.
    pub fn replace_lag(&mut self, lag: i64)
        requires { IsAlone self.old }
        ensures { self.new.tasks ≡ record (first_task self.old.tasks) { lag = lag } ∷ [] }
    {
        self.parts.task.lag = lag;
    }

    /// Exchanges the task of a node that is alone for another.
    #[inline(always)]
    pub fn exchange(&mut self, task: &mut Task)
        requires { IsAlone self.old }
        ensures other { self.new.tasks ≡ task.old ∷ [] }
        ensures own { task.new ≡ first_task self.old.tasks }
    {
        let own = self.task();
        self.replace(*task);
        *task = own;
    }
}

/// The task of a key's number, which stands at the key where it is here.
pub fn find(link: &Option<Box<TreeNode>>, key: &TreeKey) -> Option<Task>
    requires ordered { AreOrdered (tasks_in link.now) }
    requires placed { IsAtDeadline key.now.deadline (find_task key.now.number (tasks_in link.now)) }
    ensures { result ≡ find_task key.now.number (tasks_in link.now) }
{
    let mut at = link;
    'down: while let Some(node) = at {
        let node: &TreeNode = node;
        if key.is_of(&node.parts.task) {
            return Some(node.parts.task);
        }
        at = if key.is_under(&node.parts.task) {
            &node.parts.sides.left
        } else {
            &node.parts.sides.right
        };
    }
    None
}

// Why one descent finds the pick. The tasks stand in the order of their deadlines, equal ones by number, so the pick is
// the first eligible one from the left. A task is eligible where `v * W <= S`, and `W` and `S` are the same for all tasks:
// so some task of a subtree is eligible exactly where the one of least `v` is, which each node keeps for its subtree. At a
// node there are three cases:
// - Some task on its left is eligible: then the first one is there, and all that is not on the left is later.
// - None is, but the node's own task is: then that is the first one.
// - Neither: then it is on the right, since the descent is only ever at a node whose subtree has an eligible task.
// So where no task on the left is eligible and none stands on the right, the own task is the first one, and isn't asked.
// Each step goes one level down, and nothing is looked at twice.

/// The first eligible task below a link, left before right, and the depth of its node. Where there is a task, some task is
/// eligible.
#[tactic(auto, using(crate::proofs::SomeEligible::someone_there))]
pub fn first_eligible<'a>(link: &'a Option<Box<TreeNode>>, totals: &Threshold) -> Option<Found<'a>>
    requires few { totals.now.weight ≤ 2 ^ 40 }
    requires small { length (tasks_in link.now) ≤ 2 ^ 20 }
    requires differ { DifferInNumber (tasks_in link.now) }
    requires some { first_that (is_eligible_at totals.now.weight totals.now.moment)
        (tasks_in link.now) ≡ None → tasks_in link.now ≡ [] }
    ensures task { option_map (λ f. f.task.now) result
        ≡ first_that (is_eligible_at totals.now.weight totals.now.moment) (tasks_in link.now) }
    ensures positive { IfSome result (λ f. 1 ≤ f.depth) }
    ensures low { IfSome result (λ f. IsFull f.depth (length (tasks_in link.now))) }
    ensures depth { IfSome result
        (λ f. f.depth ≡ depth_at f.task.now.number (depths_in link.now)) }
{
    let Some(root) = link else { return None };
    let root: &TreeNode = root;
    // for the proof alone: a node has a task
    let _task = &root.parts.task;
    Some(first_under(root, totals))
}

/// The first eligible task of a node that has one, left before right, and the depth of its node.
fn first_under<'a>(root: &'a TreeNode, totals: &Threshold) -> Found<'a>
    requires few { totals.now.weight ≤ 2 ^ 40 }
    requires small { length root.now.tasks ≤ 2 ^ 20 }
    requires differ { DifferInNumber root.now.tasks }
    requires some { is_some
        (first_that (is_eligible_at totals.now.weight totals.now.moment) root.now.tasks) ≡ true }
    ensures task { first_that (is_eligible_at totals.now.weight totals.now.moment) root.now.tasks
        ≡ Some result.task.now }
    ensures positive { 1 ≤ result.depth }
    ensures low { IsFull result.depth (length root.now.tasks) }
    ensures depth { result.depth ≡ depth_at result.task.now.number root.now.depths }
{
    let _height = root.height();
    let mut at = root;
    let mut depth: u32 = 0;
    'down: loop {
        depth += 1;
        if let Some(left) = &at.parts.sides.left {
            let left: &TreeNode = left;
            if is_least_eligible(totals, &left.kept.least) {
                at = left;
                continue;
            }
        }
        let Some(right) = &at.parts.sides.right else {
            return Found {
                task: &at.parts.task,
                depth,
            };
        };
        if is_task_eligible(totals, &at.parts.task) {
            return Found {
                task: &at.parts.task,
                depth,
            };
        }
        at = right;
    }
}

/// The last task below a link.
#[tactic(auto, using(crate::proofs::TreeLast::past_waiting, crate::proofs::TreeLast::seen_from_none))]
pub fn last_task<'a>(link: &'a Option<Box<TreeNode>>) -> Option<&'a Task>
    ensures { option_map (λ t. t.now) result ≡ last_waiting None (tasks_in link.now) }
{
    let mut at = link;
    let mut last = None;
    'down: while let Some(node) = at {
        let node: &TreeNode = node;
        last = Some(&node.parts.task);
        at = &node.parts.sides.right;
    }
    last
}

/// The last task below a link that isn't the running one, or else the task that was seen before.
#[tactic(auto, using(crate::proofs::TreeLast::last_seen, crate::proofs::TreeLast::past_running, crate::proofs::TreeLast::past_waiting, crate::proofs::TreeLast::seen_after))]
pub fn last_waiting<'a>(
    link: &'a Option<Box<TreeNode>>,
    running: TaskId,
    before: &'a Task,
) -> &'a Task
    ensures { result.now ≡ unwrap_or (last_waiting (Some running) (tasks_in link.now)) before.now }
{
    let mut at = link;
    let mut last = before;
    'down: while let Some(node) = at {
        let node: &TreeNode = node;
        if node.parts.task.number == running {
            last = last_waiting(&node.parts.sides.left, running, last);
        } else {
            last = &node.parts.task;
        }
        at = &node.parts.sides.right;
    }
    last
}
