//! Tasks put in and taken out: one path of the tree is walked down, and its heights and least virtual runtimes are
//! corrected on the way down or back, as long as they change.

ghost use Rattle.std.specs.Prelude.{◌≡◌, suc, ◌+◌, ◌<◌, ◌≤◌, ◌^◌, [], ◌∷◌, ◌++◌, length, is_some, true, false, Some};
ghost use Rattle.eevdf_queue.specs.TaskLists.{first_task, find_task};
ghost use Rattle.eevdf_queue.specs.TreeTasks.{AreOrdered, insert_task, without};
ghost use Rattle.eevdf_queue.specs.{TreeChanges.keeps_least, TreeChanges.IsChangedAs};
ghost use Rattle.eevdf_queue.specs.{TreeKeys.Holds, TreeShape.tasks_in, TreeShape.height_in, TreeShape.IsAlone};

use super::TreeNode;
use super::mending::{correct, part_from, raise};
use crate::task::Task;
use crate::tree::change::TreeChange;
use crate::tree::key::{TreeKey, precedes};
use std::mem;

/// Puts a node that is alone below a link, where keys rise. The least virtual runtimes are made right on the way down.
/// Answers whether the height may have changed: where it hasn't, nothing above is to be corrected.
pub fn insert(link: &mut Option<Box<TreeNode>>, node: Box<TreeNode>) -> bool
    requires alone { IsAlone node.value }
    requires ordered { AreOrdered (tasks_in link.old) }
    requires few { length (tasks_in link.old) < 2 ^ 20 }
    ensures tasks { tasks_in link.new
        ≡ insert_task (first_task node.value.tasks) (tasks_in link.old) }
    ensures length { length (tasks_in link.new) ≡ suc (length (tasks_in link.old)) }
    ensures not_lower { height_in link.old ≤ height_in link.new }
    ensures at_most_one_higher { height_in link.new ≤ suc (height_in link.old) }
    ensures same_height { result ≡ false → height_in link.new ≡ height_in link.old }
{
    let Some(root) = link else {
        let _height = node.height();
        *link = Some(node);
        return true;
    };
    let root: &mut TreeNode = root;
    root.kept.least = root.kept.least.or(&node.least());
    let grown = if precedes(&node.task(), &root.parts.task) {
        insert(&mut root.parts.sides.left, node)
    } else {
        insert(&mut root.parts.sides.right, node)
    };
    raise(grown, &mut root.kept, &mut root.parts)
}

/// A node taken out of a tree, and what may have changed of the tree.
#[derive(Drop)]
pub struct Taken {
    pub node: Box<TreeNode>,
    pub change: TreeChange,
}

/// Takes the task of a key, which stands below a link, out, in its node. Where neither the height nor the least
/// virtual runtime has changed, nothing above is to be corrected.
pub fn remove(link: &mut Option<Box<TreeNode>>, key: TreeKey) -> Taken
    requires { Holds key (tasks_in link.old) }
    ensures alone { IsAlone result.node.value }
    ensures task { find_task key.number (tasks_in link.old)
        ≡ Some (first_task result.node.value.tasks) }
    ensures rest { tasks_in link.new ≡ without key.number (tasks_in link.old) }
    ensures length { length (tasks_in link.old) ≡ suc (length (tasks_in link.new)) }
    ensures changed { IsChangedAs result.change link.old link.new }
{
    let Some(root) = link else { unreachable!() };
    let root: &mut TreeNode = root;
    let taken = if key.is_of(&root.parts.task) {
        if root.parts.sides.left.is_none() {
            let sides = part_from(&mut root.kept, &mut root.parts);
            return Taken {
                node: replaced(link, sides.right),
                change: TreeChange::Height,
            };
        }
        exchanged(&mut root.parts.task, &mut root.parts.sides.left)
    } else {
        remove(
            root.parts.sides.side_mut(key.side_of(&root.parts.task)),
            key,
        )
    };
    let change = correct(taken.change, &mut root.kept, &mut root.parts);
    Taken {
        node: taken.node,
        change,
    }
}

/// Takes the last task below a link out, in its node.
#[tactic(auto, using(crate::proofs::TreeLengths::right_shorter, crate::proofs::TreeLengths::few_right, crate::proofs::TreeLengths::last_taken, crate::proofs::TreeLengths::one_fewer))]
fn remove_last(link: &mut Option<Box<TreeNode>>) -> Taken
    requires some { is_some link.old ≡ true }
    requires few { length (tasks_in link.old) ≤ 2 ^ 20 }
    ensures alone { IsAlone result.node.value }
    ensures tasks { tasks_in link.old
        ≡ tasks_in link.new ++ first_task result.node.value.tasks ∷ [] }
    ensures length { length (tasks_in link.old) ≡ suc (length (tasks_in link.new)) }
    ensures changed { IsChangedAs result.change link.old link.new }
{
    let Some(root) = link else { unreachable!() };
    let root: &mut TreeNode = root;
    if root.parts.sides.right.is_none() {
        let sides = part_from(&mut root.kept, &mut root.parts);
        return Taken {
            node: replaced(link, sides.left),
            change: TreeChange::Height,
        };
    }
    let taken = remove_last(&mut root.parts.sides.right);
    let change = correct(taken.change, &mut root.kept, &mut root.parts);
    Taken {
        node: taken.node,
        change,
    }
}

/// Exchanges a task for the last on its left, whose node leaves with the task. A function of its own, so that the way down to
/// the task keeps no room for it.
#[inline(never)]
fn exchanged(task: &mut Task, left: &mut Option<Box<TreeNode>>) -> Taken
    requires some { is_some left.old ≡ true }
    requires few { length (tasks_in left.old) ≤ 2 ^ 20 }
    ensures alone { IsAlone result.node.value }
    ensures own { first_task result.node.value.tasks ≡ task.old }
    ensures tasks { tasks_in left.old ≡ tasks_in left.new ++ task.new ∷ [] }
    ensures length { length (tasks_in left.old) ≡ suc (length (tasks_in left.new)) }
    ensures changed { IsChangedAs result.change left.old left.new }
    ensures other_least { keeps_least result.change ≡ false }
{
    let Taken { mut node, change } = remove_last(left);
    node.exchange(task);
    Taken {
        node,
        change: change.with_least(),
    }
}

/// Takes the lone node below a link out, and puts a side that it had in its place.
fn replaced(link: &mut Option<Box<TreeNode>>, side: Option<Box<TreeNode>>) -> Box<TreeNode>
    requires alone { tasks_in link.old ≡ first_task (tasks_in link.old) ∷ [] }
    ensures alone { IsAlone result.value }
    ensures task { first_task result.value.tasks ≡ first_task (tasks_in link.old) }
    ensures tasks { tasks_in link.new ≡ tasks_in side }
    ensures height { height_in link.new ≡ height_in side }
{
    let Some(node) = mem::replace(link, side) else {
        unreachable!()
    };
    node
}
