//! Tasks that age where they stand: the virtual runtime of one grows, and nothing else of it changes.

ghost use Rattle.std.specs.Prelude.{◌≡◌, ◌≤ℤ◌, length, IfSome};
ghost use Rattle.eevdf_queue.specs.{TaskLists.find_task, TreeKeys.Holds, TreeKeys.IsAged, TreeLeast.least_of, TreeLeast.lesser, TreeShape.tasks_in, TreeShape.height_in};

use super::TreeNode;
use super::mending::look_around;
use crate::entry::Entry;
use crate::task::Task;
use crate::tree::key::TreeKey;
use crate::tree::least::{Least, is_in_64_bits};

/// The virtual runtime that a task had, and the one that it gets.
#[derive(Clone, Copy)]
pub struct Runtimes {
    pub older: i64,
    pub newer: i64,
}

impl Runtimes {
    /// Those of two entries.
    pub fn of(older: &Entry, newer: &Entry) -> Runtimes
        ensures older { result.older ≡ older.now.v }
        ensures newer { result.newer ≡ newer.now.v }
    {
        Runtimes {
            older: older.v,
            newer: newer.v,
        }
    }

    /// The older one, which isn't the greater.
    fn floor(&self) -> Least
        ensures { result.runtime ≡ self.now.older }
    {
        Least {
            runtime: self.older,
        }
    }
}

/// Gives a key's task, which stands below a link, a virtual runtime that isn't less than before. A least virtual runtime
/// below the older one is another task's and stays, so on the way down over such nodes nothing is left to be
/// corrected.
pub fn age(link: &mut Option<Box<TreeNode>>, key: TreeKey, runtimes: Runtimes)
    requires holds { Holds key (tasks_in link.old) }
    requires above { IfSome (find_task key.number (tasks_in link.old))
        (λ t. runtimes.older ≤ℤ t.entry.v) }
    requires later { runtimes.older ≤ℤ runtimes.newer }
    ensures tasks { IsAged key runtimes.newer (tasks_in link.old) (tasks_in link.new) }
    ensures height { height_in link.new ≡ height_in link.old }
    ensures length { length (tasks_in link.new) ≡ length (tasks_in link.old) }
{
    let Some(node) = link else { unreachable!() };
    let node: &mut TreeNode = node;
    if !node.kept.least.is_below(&runtimes.floor()) {
        let _least = age_least(link, key, runtimes);
        return;
    }
    if key.is_of(&node.parts.task) {
        set_runtime(&mut node.parts.task, &runtimes);
    } else if key.is_under(&node.parts.task) {
        age(&mut node.parts.sides.left, key, runtimes);
    } else {
        age(&mut node.parts.sides.right, key, runtimes);
    }
    // for the proof alone, as at an insertion
    look_around(&node.parts);
}

/// The same where the least virtual runtimes may become others, which are made right on the way back. Answers the one below
/// the link.
fn age_least(link: &mut Option<Box<TreeNode>>, key: TreeKey, runtimes: Runtimes) -> Least
    requires { Holds key (tasks_in link.old) }
    ensures tasks { IsAged key runtimes.newer (tasks_in link.old) (tasks_in link.new) }
    ensures height { height_in link.new ≡ height_in link.old }
    ensures length { length (tasks_in link.new) ≡ length (tasks_in link.old) }
    ensures least { result ≡ least_of (tasks_in link.new) }
{
    let Some(node) = link else { unreachable!() };
    let node: &mut TreeNode = node;
    let renewed = if key.is_of(&node.parts.task) {
        set_runtime(&mut node.parts.task, &runtimes);
        with_below(
            &with_below(&Least::of(&node.parts.task), &node.parts.sides.right),
            &node.parts.sides.left,
        )
    } else if key.is_under(&node.parts.task) {
        let left = age_least(&mut node.parts.sides.left, key, runtimes);
        left.or(&with_below(&Least::of(&node.parts.task), &node.parts.sides.right))
    } else {
        let right = age_least(&mut node.parts.sides.right, key, runtimes);
        with_below(
            &Least::of(&node.parts.task).or(&right),
            &node.parts.sides.left,
        )
    };
    node.kept.least = renewed;
    // for the proof alone, as at an insertion
    look_around(&node.parts);
    renewed
}

/// The lesser of a least virtual runtime and the one below a link.
#[tactic(auto, using(crate::proofs::TreeAge::lesser_none, crate::proofs::TreeAge::lesser_swapped))]
fn with_below(least: &Least, link: &Option<Box<TreeNode>>) -> Least
    ensures behind { result ≡ lesser least.now (least_of (tasks_in link.now)) }
    ensures before { result ≡ lesser (least_of (tasks_in link.now)) least.now }
{
    is_in_64_bits(least.runtime);
    match link {
        None => *least,
        Some(node) => least.or(&node.least()),
    }
}

/// Gives a task its newer virtual runtime.
fn set_runtime(task: &mut Task, runtimes: &Runtimes)
    ensures { task.new
        ≡ record task.old { entry = record task.old.entry { v = runtimes.now.newer } } }
{
    task.entry.v = runtimes.newer;
}
