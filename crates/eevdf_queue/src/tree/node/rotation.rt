//! Rotations of a balanced tree: where one side of a task is too high, a task of it takes the task's place.

ghost use Rattle.std.specs.Prelude.{◌≡◌, suc, ◌+◌, ◌≤◌, ◌^◌, max, ◌∷◌, ◌++◌, length};
ghost use Rattle.eevdf_queue.specs.TreeNodes.{tasks_of, AreWithin, AreFew, IsNode, IsEvened};
ghost use Rattle.eevdf_queue.specs.TreeShape.{tasks_in, height_in, DifferByAtMost};

use super::mending::renew;
use super::{TreeNode, height};
use crate::task::Task;
use crate::tree::parts::{Kept, Parts};
use std::mem;

// What a rotation keeps. A side that is two levels higher than the other would make descents longer than the number of tasks
// asks for, so the task at the root of the higher side comes to the top. The node at the top stays, and the two exchange
// their tasks: the node that leaves the higher side goes to the other, with the task that was at the top.
//
//            task                  top
//           /    \                /   \
//         top    right   to   outer   task
//        /   \                        /  \
//    outer   inner                inner  right
//
// From left to right the tasks are `outer`, `top`, `inner`, `task`, `right` before and after it, so every search still
// finds what it found. `outer`, `inner` and `right` are moved whole, and what their nodes keep stays right. Afterwards
// `outer` is one level higher up and `right` one lower down, which evens the two. `inner` stays at its level: where it is
// the higher part, this wouldn't help, and its own root comes to the top instead.
//
//            task                    middle
//           /    \                 /        \
//         top    right   to      top        task
//        /   \                  /   \      /    \
//    outer   middle         outer before after  right
//            /    \
//        before  after

/// Evens the two sides of a task, whose heights differ by at most two.
pub fn even_out(parts: &mut Parts<Option<Box<TreeNode>>>)
    requires near { AreWithin 2 parts.old }
    requires few { AreFew parts.old }
    ensures { IsEvened parts.old parts.new }
{
    let left_height = height(&parts.sides.left);
    let right_height = height(&parts.sides.right);
    if left_height > right_height + 1 {
        rotate_right(parts);
        return;
    }
    if right_height > left_height + 1 {
        rotate_left(parts);
    }
}

/// Evens two sides of which the left is two higher: the task of its root, or of the root of its right side, comes between the
/// two.
#[inline(never)]
fn rotate_right(parts: &mut Parts<Option<Box<TreeNode>>>)
    requires higher { height_in parts.old.sides.left ≡ height_in parts.old.sides.right + 2 }
    requires few { AreFew parts.old }
    ensures { IsEvened parts.old parts.new }
{
    let Some(node) = &mut parts.sides.left else {
        unreachable!()
    };
    let node: &mut TreeNode = node;
    if height(&node.parts.sides.left) >= height(&node.parts.sides.right) {
        cross_right(
            &mut node.kept,
            &mut node.parts,
            &mut parts.task,
            &mut parts.sides.right,
        );
        mem::swap(&mut parts.sides.left, &mut parts.sides.right);
        return;
    }
    lean_right(
        &mut node.parts.sides.right,
        &mut parts.task,
        &mut parts.sides.right,
    );
    renew(&mut node.kept, &node.parts);
}

/// Evens two sides of which the right is two higher: the task of its root, or of the root of its left side, comes between the
/// two.
#[inline(never)]
fn rotate_left(parts: &mut Parts<Option<Box<TreeNode>>>)
    requires higher { height_in parts.old.sides.right ≡ height_in parts.old.sides.left + 2 }
    requires few { AreFew parts.old }
    ensures { IsEvened parts.old parts.new }
{
    let Some(node) = &mut parts.sides.right else {
        unreachable!()
    };
    let node: &mut TreeNode = node;
    if height(&node.parts.sides.right) >= height(&node.parts.sides.left) {
        cross_left(
            &mut node.kept,
            &mut node.parts,
            &mut parts.task,
            &mut parts.sides.left,
        );
        mem::swap(&mut parts.sides.left, &mut parts.sides.right);
        return;
    }
    lean_left(
        &mut node.parts.sides.left,
        &mut parts.task,
        &mut parts.sides.left,
    );
    renew(&mut node.kept, &node.parts);
}

/// Lets the task of the root of a left side, which is one higher, come between the two sides.
#[inline(always)]
fn lean_right(left: &mut Option<Box<TreeNode>>, task: &mut Task, right: &mut Option<Box<TreeNode>>)
    requires higher { height_in left.old ≡ suc (height_in right.old) }
    requires low { height_in left.old ≤ 2 ^ 20 }
    ensures tasks { tasks_in left.new ++ task.new ∷ tasks_in right.new
        ≡ tasks_in left.old ++ task.old ∷ tasks_in right.old }
    ensures low { height_in left.new ≤ height_in right.old }
    ensures not_lower { height_in right.old ≤ suc (height_in left.new) }
    ensures higher { height_in right.new ≡ suc (height_in right.old) }
{
    let Some(node) = left else { unreachable!() };
    let node: &mut TreeNode = node;
    cross_right(&mut node.kept, &mut node.parts, task, right);
    mem::swap(left, right);
}

/// Lets the task of the root of a right side, which is one higher, come between the two sides.
#[inline(always)]
fn lean_left(right: &mut Option<Box<TreeNode>>, task: &mut Task, left: &mut Option<Box<TreeNode>>)
    requires higher { height_in right.old ≡ suc (height_in left.old) }
    requires low { height_in right.old ≤ 2 ^ 20 }
    ensures tasks { tasks_in left.new ++ task.new ∷ tasks_in right.new
        ≡ tasks_in left.old ++ task.old ∷ tasks_in right.old }
    ensures low { height_in right.new ≤ height_in left.old }
    ensures not_lower { height_in left.old ≤ suc (height_in right.new) }
    ensures higher { height_in left.new ≡ suc (height_in left.old) }
{
    let Some(node) = right else { unreachable!() };
    let node: &mut TreeNode = node;
    cross_left(&mut node.kept, &mut node.parts, task, left);
    mem::swap(left, right);
}

/// Makes a node on the left of a task ready to stand on its right: it takes over the task and what stands there, and gives its
/// own task and its left side for them.
#[inline(always)]
fn cross_right(
    kept: &mut Kept,
    node: &mut Parts<Option<Box<TreeNode>>>,
    task: &mut Task,
    right: &mut Option<Box<TreeNode>>,
)
    requires balanced { DifferByAtMost 1 (height_in node.old.sides.right) (height_in right.old) }
    requires low { max (height_in node.old.sides.right) (height_in right.old) ≤ 2 ^ 20 }
    ensures node { IsNode kept.new node.new }
    ensures tasks { tasks_of node.new
        ≡ tasks_in node.old.sides.right ++ task.old ∷ tasks_in right.old }
    ensures height { kept.new.height ≡ suc (max (height_in node.old.sides.right) (height_in right.old)) }
    ensures own { task.new ≡ node.old.task }
    ensures own_side { right.new ≡ node.old.sides.left }
{
    mem::swap(&mut node.sides.left, &mut node.sides.right);
    mem::swap(&mut node.sides.right, right);
    mem::swap(&mut node.task, task);
    renew(kept, node);
}

/// Makes a node on the right of a task ready to stand on its left: it takes over the task and what stands there, and gives its
/// own task and its right side for them.
#[inline(always)]
fn cross_left(
    kept: &mut Kept,
    node: &mut Parts<Option<Box<TreeNode>>>,
    task: &mut Task,
    left: &mut Option<Box<TreeNode>>,
)
    requires balanced { DifferByAtMost 1 (height_in node.old.sides.left) (height_in left.old) }
    requires low { max (height_in node.old.sides.left) (height_in left.old) ≤ 2 ^ 20 }
    ensures node { IsNode kept.new node.new }
    ensures tasks { tasks_of node.new
        ≡ tasks_in left.old ++ task.old ∷ tasks_in node.old.sides.left }
    ensures height { kept.new.height ≡ suc (max (height_in node.old.sides.left) (height_in left.old)) }
    ensures own { task.new ≡ node.old.task }
    ensures own_side { left.new ≡ node.old.sides.right }
{
    mem::swap(&mut node.sides.left, &mut node.sides.right);
    mem::swap(&mut node.sides.left, left);
    mem::swap(&mut node.task, task);
    renew(kept, node);
}
