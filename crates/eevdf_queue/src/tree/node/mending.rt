//! What is done to a node between the parts of it: these see the parts and what is kept of them apart, while what is kept
//! isn't right yet.

ghost use Rattle.std.specs.Prelude.{◌≡◌, suc, ◌+◌, ◌≤◌, ◌^◌, max, length, true, false, None};
ghost use Rattle.eevdf_queue.specs.{TreeChanges.keeps_height, TreeChanges.keeps_least, TreeLeast.least_of, TreeLeast.AreLow};
ghost use Rattle.eevdf_queue.specs.TreeNodes.{tasks_of, height_of, AreWithin, IsNode, AreFew, IsMended};
ghost use Rattle.eevdf_queue.specs.TreeShape.{height_in, DifferByAtMost, IsFull};

use super::rotation::even_out;
use super::{TreeNode, height, least};
use crate::tree::change::TreeChange;
use crate::tree::least::Least;
use crate::tree::parts::{Kept, Parts};
use crate::tree::sides::Sides;
use std::mem;

/// Takes the two sides from a node, and leaves it alone.
#[inline(always)]
pub fn part_from(
    kept: &mut Kept,
    parts: &mut Parts<Option<Box<TreeNode>>>,
) -> Sides<Option<Box<TreeNode>>>
    ensures sides { result ≡ parts.old.sides }
    ensures alone { parts.new ≡ record parts.old { sides = record { left = None; right = None } } }
    ensures node { IsNode kept.new parts.new }
{
    *kept = Kept {
        height: 1,
        least: Least::of(&parts.task),
    };
    mem::replace(
        &mut parts.sides,
        Sides {
            left: None,
            right: None,
        },
    )
}

/// Makes what is kept of a node right again, by what may have changed below it, and tells what may have changed of the node
/// itself. Where it is the least virtual runtime alone, no height is looked at.
#[inline(always)]
pub fn correct(
    below: TreeChange,
    kept: &mut Kept,
    parts: &mut Parts<Option<Box<TreeNode>>>,
) -> TreeChange
    requires near { AreWithin 2 parts.old }
    requires few { AreFew parts.old }
    requires kept_height { keeps_height below ≡ true → kept.old.height ≡ height_of parts.old }
    requires kept_balanced { keeps_height below ≡ true → AreWithin 1 parts.old }
    requires kept_least { keeps_least below ≡ true → kept.old.least ≡ least_of (tasks_of parts.old) }
    ensures mended { IsMended parts.old kept.new parts.new }
    ensures same_height { keeps_height result ≡ true → kept.new.height ≡ kept.old.height }
    ensures same_least { keeps_least result ≡ true → kept.new.least ≡ kept.old.least }
{
    match below {
        TreeChange::Nothing => {
            // for the proof alone: what is kept is right of the tasks as they are now
            look_around(parts);
            TreeChange::Nothing
        }
        TreeChange::LeastAlone => {
            TreeChange::of_least(look_around(parts).renew_least(&mut kept.least))
        }
        TreeChange::Height => correct_both(kept, parts),
    }
}

/// Makes the height of a node and its least virtual runtime right again, where both may be others. It isn't inlined, so that
/// `correct`, which is, saves no registers for it.
#[inline(never)]
fn correct_both(kept: &mut Kept, parts: &mut Parts<Option<Box<TreeNode>>>) -> TreeChange
    requires near { AreWithin 2 parts.old }
    requires few { AreFew parts.old }
    ensures mended { IsMended parts.old kept.new parts.new }
    ensures same_height { keeps_height result ≡ true → kept.new.height ≡ kept.old.height }
    ensures same_least { keeps_least result ≡ true → kept.new.least ≡ kept.old.least }
{
    let around = look_around(parts);
    let other_least = around.renew_least(&mut kept.least);
    if around.is_uneven() {
        return TreeChange::of_both(raise_uneven(kept, parts), other_least);
    }
    TreeChange::of_both(around.renew_height(&mut kept.height), other_least)
}

/// Makes the height of a node right again where it may be another, and evens its sides where one is two higher. Answers whether
/// the height is another than before.
#[inline(always)]
pub fn raise(may_differ: bool, kept: &mut Kept, parts: &mut Parts<Option<Box<TreeNode>>>) -> bool
    requires near { AreWithin 2 parts.old }
    requires few { AreFew parts.old }
    requires least { kept.old.least ≡ least_of (tasks_of parts.old) }
    requires kept_height { may_differ ≡ false → kept.old.height ≡ height_of parts.old }
    requires kept_balanced { may_differ ≡ false → AreWithin 1 parts.old }
    ensures mended { IsMended parts.old kept.new parts.new }
    ensures same_height { result ≡ false → kept.new.height ≡ kept.old.height }
    ensures same_least { kept.new.least ≡ kept.old.least }
{
    if !may_differ {
        // for the proof alone, as above
        look_around(parts);
        return false;
    }
    let around = look_around(parts);
    if around.is_uneven() {
        return raise_uneven(kept, parts);
    }
    around.renew_height(&mut kept.height)
}

/// Makes the height of a node right again where one side may be two higher. It is seldom called, and isn't inlined for the same
/// reason.
#[inline(never)]
fn raise_uneven(kept: &mut Kept, parts: &mut Parts<Option<Box<TreeNode>>>) -> bool
    requires near { AreWithin 2 parts.old }
    requires few { AreFew parts.old }
    requires least { kept.old.least ≡ least_of (tasks_of parts.old) }
    ensures mended { IsMended parts.old kept.new parts.new }
    ensures same_height { result ≡ false → kept.new.height ≡ kept.old.height }
    ensures same_least { kept.new.least ≡ kept.old.least }
{
    even_out(parts);
    look_around(parts).renew_height(&mut kept.height)
}

/// Makes what is kept of a node right, whose sides are of nearly one height.
#[inline(always)]
pub fn renew(kept: &mut Kept, parts: &Parts<Option<Box<TreeNode>>>)
    requires balanced { AreWithin 1 parts.now }
    requires low { height_of parts.now ≤ 2 ^ 20 + 1 }
    ensures { IsNode kept.new parts.now }
{
    let around = look_around(parts);
    around.renew_height(&mut kept.height);
    around.renew_least(&mut kept.least);
}

/// What stands on the two sides of a task: their heights, and the least virtual runtime with the task's own.
#[derive(Clone, Copy)]
pub struct Around {
    pub left: u32,
    pub right: u32,
    pub least: Least,
}

/// Looks at a task and what is below the links on either side of it.
pub fn look_around(parts: &Parts<Option<Box<TreeNode>>>) -> Around
    ensures left { result.left ≡ height_in parts.now.sides.left }
    ensures right { result.right ≡ height_in parts.now.sides.right }
    ensures least { result.least ≡ least_of (tasks_of parts.now) }
    ensures low { height_of parts.now ≤ length (tasks_of parts.now) }
    ensures full { AreWithin 1 parts.now → IsFull (height_of parts.now) (length (tasks_of parts.now)) }
    ensures bounded { AreLow (tasks_of parts.now) }
{
    let left = &parts.sides.left;
    let right = &parts.sides.right;
    Around {
        left: height(left),
        right: height(right),
        least: least(left).or(&Least::of(&parts.task).or(&least(right))),
    }
}

impl Around {
    /// Whether one side is more than one level higher than the other.
    pub fn is_uneven(&self) -> bool
        requires { max self.now.left self.now.right ≤ 2 ^ 20 }
        ensures { result ≡ false → DifferByAtMost 1 self.now.left self.now.right }
    {
        let left_higher_by = self.left as i32 - self.right as i32;
        left_higher_by < -1 || left_higher_by > 1
    }

    /// Makes the height of a node right again. Answers whether it has changed.
    pub fn renew_height(&self, kept_height: &mut u32) -> bool
        requires { max self.now.left self.now.right ≤ 2 ^ 20 }
        ensures height { kept_height.new ≡ suc (max self.now.left self.now.right) }
        ensures same_height { result ≡ false → kept_height.new ≡ kept_height.old }
    {
        let older = *kept_height;
        *kept_height = self.left.max(self.right) + 1;
        *kept_height != older
    }

    /// Makes the least virtual runtime of a node right again. Answers whether it has changed.
    pub fn renew_least(&self, kept_least: &mut Least) -> bool
        ensures least { kept_least.new ≡ self.now.least }
        ensures same_least { result ≡ false → kept_least.new ≡ kept_least.old }
    {
        let older = *kept_least;
        *kept_least = self.least;
        is_another(&older, kept_least)
    }
}

/// Whether a least virtual runtime is another than before.
fn is_another(older: &Least, least: &Least) -> bool
    ensures { result ≡ false → least.now ≡ older.now }
{
    least.runtime != older.runtime
}
