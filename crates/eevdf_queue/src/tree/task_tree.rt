ghost use Rattle.std.specs.Prelude.{◌≡◌, ℕ, unsigned_abs, suc, ◌<◌, ◌≤◌, ◌/◌, ◌^◌, ◌≤ℤ◌, [], length, is_some, true, None, Some, IfSome};
ghost use Rattle.std.specs.{Option.option_map, List.AllByRecursion};
ghost use Rattle.eevdf_queue.specs.TaskLists.{first_task, find_task, set_entry, entries_of, DifferInNumber};
ghost use Rattle.eevdf_queue.specs.{Order.earliest, Pick.is_eligible_at, Candidate.latest_waiting, TreeShape.IsAlone};
ghost use Rattle.eevdf_queue.specs.{TreeShape.IsFull, TreeShape.empty_tree, Numbers.number_limit, NodeDepths.depth_at};
ghost use Rattle.eevdf_queue.specs.TreeTasks.{IsAtDeadline, insert_task, without, first_that, numbered_entry};
ghost use Rattle.eevdf_queue.specs.{TreeStores.kept_at, TreeLowering.IsNear, TreeLowering.lowered_list, TreeLowering.are_tasks_in_range, TreeLowering.noted_or};

use crate::entry::Entry;
use crate::running::is_running;
use crate::task::Task;
use crate::task_id::TaskId;
use crate::tree::deadline_table::DeadlineTable;
use crate::tree::eligible::Threshold;
use crate::tree::key::TreeKey;
use crate::tree::node::{
    Found, Runtimes, TreeNode, age, find, first_eligible, insert, last_task, last_waiting, lower,
    remove,
};
use std::marker::Model;

/// Tasks in a balanced tree by deadline and number, seen as the list of them in that order, its height and the depths of
/// its nodes.
#[derive(Drop)]
pub struct TaskTree {
    root: Option<Box<TreeNode>>,
    count: usize,
}

impl Model for TaskTree {
    ghost use Rattle.eevdf_queue.specs.TreeShape.{Tree};

    ghost Value = { Tree };

    ghost use Rattle.eevdf_queue.specs.{TreeShape.tasks_in, TreeShape.tree_in, TreeTasks.IsCounted};

    ghost view = { λ a. tree_in a.root };

    ghost invariant = { λ a. IsCounted a.count (tasks_in a.root) };
}

impl TaskTree {
    pub fn new() -> TaskTree
        ensures { result ≡ empty_tree }
    {
        TaskTree {
            root: None,
            count: 0,
        }
    }

    pub fn len(&self) -> usize
        ensures value { result ≡ length self.now.tasks }
        ensures few { result ≤ number_limit }
    {
        self.count
    }

    /// The task of a key's number, which stands at the key where it is here.
    pub fn find(&self, key: &TreeKey) -> Option<Task>
        requires { IsAtDeadline key.now.deadline (find_task key.now.number self.now.tasks) }
        ensures { result ≡ find_task key.now.number self.now.tasks }
    {
        find(&self.root, key)
    }

    /// Puts in the task of a lone node, whose number isn't here.
    pub fn insert(&mut self, node: Box<TreeNode>)
        requires alone { IsAlone node.value }
        requires absent { find_task (first_task node.value.tasks).number self.old.tasks ≡ None }
        requires few { length self.old.tasks < number_limit }
        ensures { self.new.tasks ≡ insert_task (first_task node.value.tasks) self.old.tasks }
    {
        insert(&mut self.root, node);
        self.count += 1;
    }

    /// Gives the task of a key, which is here with an older entry, one of another virtual runtime, which isn't less than
    /// before.
    #[inline(always)]
    pub fn age(&mut self, key: &TreeKey, older: &Entry, newer: &Entry)
        requires here { option_map (λ t. t.entry) (find_task key.now.number self.old.tasks)
            ≡ Some older.now }
        requires placed { IsAtDeadline key.now.deadline (find_task key.now.number self.old.tasks) }
        requires same { record older.now { v = newer.now.v } ≡ newer.now }
        requires later { older.now.v ≤ℤ newer.now.v }
        ensures { self.new.tasks ≡ set_entry key.now.number newer.now self.old.tasks }
    {
        let runtimes = Runtimes::of(older, newer);
        age(&mut self.root, *key, runtimes);
    }

    /// Lowers the virtual runtimes and the deadlines of all tasks, notes these in the table, and answers whether all are in
    /// range afterwards.
    pub fn lower(&mut self, deadlines: &mut DeadlineTable, by: i64) -> bool
        requires near { AllByRecursion IsNear self.old.tasks }
        requires small { unsigned_abs by ≤ 2 ^ 60 }
        ensures tasks { self.new.tasks ≡ lowered_list by self.old.tasks }
        ensures depths { self.new.depths ≡ self.old.depths }
        ensures noted { (q : ℕ) → kept_at deadlines.new q
            ≡ noted_or (kept_at deadlines.old q) (find_task q self.new.tasks) }
        ensures in_range { result ≡ are_tasks_in_range self.new.tasks }
    {
        lower(&mut self.root, deadlines, by)
    }

    /// Takes out the task of a key, which is here, in its node.
    pub fn remove(&mut self, key: &TreeKey) -> Box<TreeNode>
        requires here { is_some (find_task key.now.number self.old.tasks) ≡ true }
        requires placed { IsAtDeadline key.now.deadline (find_task key.now.number self.old.tasks) }
        ensures alone { IsAlone result.value }
        ensures task { find_task key.now.number self.old.tasks ≡ Some (first_task result.value.tasks) }
        ensures rest { self.new.tasks ≡ without key.now.number self.old.tasks }
    {
        let taken = remove(&mut self.root, *key);
        self.count -= 1;
        taken.node
    }

    /// The first by deadline and number of the tasks that are eligible at these sums, and the depth of its
    /// node. Where there is a task, some task is eligible.
    pub fn earliest(&self, totals: &Threshold) -> Option<Found<'_>>
        requires few { totals.now.weight ≤ 2 ^ 40 }
        requires differ { DifferInNumber self.now.tasks }
        requires some { first_that (is_eligible_at totals.now.weight totals.now.moment) self.now.tasks
            ≡ None → self.now.tasks ≡ [] }
        ensures task { option_map (λ f. f.task.now) result
            ≡ first_that (is_eligible_at totals.now.weight totals.now.moment) self.now.tasks }
        ensures number { option_map (λ f. f.task.now.number) result
            ≡ option_map (λ a. a.0)
            (earliest (is_eligible_at totals.now.weight totals.now.moment) (entries_of self.now.tasks)) }
        ensures positive { IfSome result (λ f. 1 ≤ f.depth) }
        ensures low { IfSome result (λ f. IsFull f.depth (length self.now.tasks)) }
        ensures depth { IfSome result (λ f. f.depth ≡ depth_at f.task.now.number self.now.depths) }
    {
        first_eligible(&self.root, totals)
    }

    /// The last by deadline and number of the tasks that don't run.
    pub fn latest_waiting(&self, running: Option<TaskId>) -> Option<&Task>
        ensures { option_map (λ t. numbered_entry t.now) result
            ≡ latest_waiting running (entries_of self.now.tasks) }
    {
        let Some(last) = last_task(&self.root) else {
            return None;
        };
        if is_running(&running, last.number) {
            // the running task itself where no other is here
            let found = last_waiting(&self.root, last.number, last);
            if found.number == last.number {
                None
            } else {
                Some(found)
            }
        } else {
            Some(last)
        }
    }
}
