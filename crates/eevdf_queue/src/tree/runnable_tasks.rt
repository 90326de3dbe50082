ghost use Rattle.std.specs.Prelude.{◌≡◌, ℕ, ◌==◌, ◌<◌, if◌then◌else◌, ◌*◌, ◌≤◌, ◌^◌, ◌-ℤ◌, ◌≤ℤ◌, None, Some, true, false, unsigned_abs, pos, length, is_some, IfSome, IsNone, ◌↔◌};
ghost use Rattle.std.specs.{Option.option_map, List.AllByRecursion};
ghost use Rattle.std.specs.FinMap as map;
ghost use Rattle.eevdf_weight.specs.Limits as limits;
ghost use Rattle.eevdf_queue.specs.{Sums.total_weight, Sums.total_moment, Order.earliest, Candidate.candidate_of, Candidate.latest_waiting};
ghost use Rattle.eevdf_queue.specs.{Numbers.number_limit, Moves.is_entry_in_range, Kept.AreInRange, Laws.AreSumsSmall, TreeShape.IsAlone};
ghost use Rattle.eevdf_queue.specs.{TreeShape.IsFull, Lag.is_lag, TreeTasks.insert_task, TreeTasks.without, TreeTasks.numbered_entry};
ghost use Rattle.eevdf_queue.specs.TaskLists.{runnable_in};
ghost use Rattle.eevdf_queue.specs.TreeStores.{kept_at, noted, IsNoted, IsRunnableStore};
ghost use Rattle.eevdf_queue.specs.Leaving.{leaving_at};
ghost use Rattle.eevdf_queue.specs.Pick.{IsPick, is_eligible_at, pick_of};
ghost use Rattle.eevdf_queue.specs.TaskLists.{first_task, find_task, contents_of};

mod lowering;

use crate::entry::Entry;
use crate::lag::kept_lag;
use crate::parcel::Parcel;
use crate::task::Task;
use crate::task_id::TaskId;
use crate::tree::deadline_table::DeadlineTable;
use crate::tree::eligible::Threshold;
use crate::tree::key::TreeKey;
use crate::tree::node::{Found, TreeNode};
use crate::tree::picked_task::{Pick, PickedTask};
use crate::tree::task_tree::TaskTree;
use crate::tree::totals::Totals;
use crate::tree::totals_edit::{correct_moment, exchanged, share, with_share, without_share};
use std::marker::Model;

/// The runnable tasks of a queue, seen as the map from their numbers to their entries, and the one to the depths of their nodes.
#[derive(Drop)]
pub struct RunnableTasks {
    totals: Totals,
    tree: TaskTree,
    deadlines: DeadlineTable,
    picked: PickedTask,
}

impl Model for RunnableTasks {
    ghost use Rattle.eevdf_queue.specs.{State.TasksInTree, Codes.tasks_in_tree_code};

    ghost Value = { TasksInTree };

    ghost coded = { tasks_in_tree_code };

    ghost use Rattle.eevdf_queue.specs.{NodeDepths.depths_by_number, TaskLists.runnable_in, TreeStores.IsRunnableTasks};

    ghost view = { λ a. record { tasks = runnable_in a.tree.tasks; depths = depths_by_number a.tree.depths } };

    ghost invariant = { λ a. IsRunnableTasks a.deadlines a.totals a.picked a.tree };
}

impl RunnableTasks {
    #[tactic(auto, using(crate::proofs::RunnableMaps::basics))]
    pub fn new() -> RunnableTasks
        ensures { result ≡ record { tasks = map.empty; depths = map.empty } }
    {
        RunnableTasks {
            totals: Totals {
                weight: 0,
                moment: 0,
            },
            tree: TaskTree::new(),
            deadlines: DeadlineTable::new(),
            picked: PickedTask::none(),
        }
    }

    #[tactic(auto, using(crate::proofs::RunnableMaps::lengths))]
    pub fn len(&self) -> usize
        ensures { result ≡ map.len self.now.tasks }
    {
        self.tree.len()
    }

    /// The sums over the tasks.
    #[tactic(auto, using(crate::proofs::RunnableMaps::sums))]
    pub fn totals(&self) -> Totals
        ensures weight { result.weight ≡ total_weight self.now.tasks }
        ensures moment { result.moment ≡ total_moment self.now.tasks }
        ensures few { result.weight ≤ 88761 * number_limit }
        ensures small { unsigned_abs result.moment ≤ 2 ^ 60 * result.weight }
    {
        self.totals
    }

    /// The sums over the tasks but one that is here.
    pub fn totals_without(&self, task: TaskId, entry: &Entry) -> Totals
        requires { map.get self.now.tasks task ≡ Some entry.now }
        ensures weight { result.weight ≡ total_weight (map.remove self.now.tasks task) }
        ensures moment { result.moment ≡ total_moment (map.remove self.now.tasks task) }
        ensures few { result.weight ≤ 88761 * number_limit }
        ensures small { unsigned_abs result.moment ≤ 2 ^ 60 * result.weight }
    {
        without_share(&self.totals, &share(entry))
    }

    #[tactic(auto, using(crate::proofs::RunnableMaps::basics))]
    pub fn get(&self, task: TaskId) -> Option<Entry>
        ensures { result ≡ map.get self.now.tasks task }
    {
        let key = self.deadlines.key(task);
        if self.picked.is(task) {
            return Some(self.picked.entry(&key));
        }
        match self.tree.find(&key) {
            None => None,
            Some(found) => Some(found.entry),
        }
    }

    /// Answers as `get` does. Of a task that isn't here this takes a look at the table and no search. `get` doesn't look, since it
    /// is mostly asked for the task that runs.
    #[tactic(auto, using(crate::proofs::TreeMaps::unkept))]
    #[inline(always)]
    pub fn look_up(&self, task: TaskId) -> Option<Entry>
        ensures { result ≡ map.get self.now.tasks task }
    {
        if self.deadlines.is_absent(task) {
            return None;
        }
        self.get(task)
    }

    /// Gives a task that is here with an older entry another one.
    #[tactic(auto, using(crate::proofs::PickedTasks::sums_kept, crate::proofs::TreeMaps::entry_here, crate::proofs::TreeTotals::totals_small))]
    #[inline(always)]
    pub fn set(&mut self, task: TaskId, older: &Entry, entry: Entry)
        requires here { map.get self.old.tasks task ≡ Some older.now }
        requires in_range { is_entry_in_range entry ≡ true }
        ensures { self.new.tasks ≡ map.insert self.old.tasks task entry }
    {
        self.picked.forget();
        self.totals = exchanged(&self.totals, older, &entry);
        replace(&mut self.tree, &mut self.deadlines, task, older, entry);
    }

    /// Gives a task that is here with an older entry one of another request, whose virtual runtime is near the older one.
    #[tactic(auto, using(crate::proofs::PickedTasks::sums_kept, crate::proofs::TreeMaps::entry_here, crate::proofs::TreeTotals::totals_near))]
    #[inline(always)]
    pub fn renew(&mut self, task: TaskId, older: &Entry, newer: Entry)
        requires here { map.get self.old.tasks task ≡ Some older.now }
        requires in_range { is_entry_in_range newer ≡ true }
        requires same { record older.now { v = newer.v; d = newer.d } ≡ newer }
        requires near { unsigned_abs (newer.v -ℤ older.now.v) ≤ 2 ^ 40 }
        ensures { self.new.tasks ≡ map.insert self.old.tasks task newer }
    {
        self.picked.forget();
        correct_moment(&mut self.totals, older, &newer);
        replace(&mut self.tree, &mut self.deadlines, task, older, newer);
    }

    /// Gives a task that is here with an older entry one of a later virtual runtime. The task keeps its place.
    #[tactic(auto, using(crate::proofs::TreeTotals::totals_near, crate::proofs::TreeMaps::entry_here, crate::proofs::TreeChange::set_seen, crate::proofs::PickedTasks::sums_kept))]
    #[inline(always)]
    pub fn age(&mut self, task: TaskId, older: &Entry, newer: &Entry)
        requires here { map.get self.old.tasks task ≡ Some older.now }
        requires in_range { is_entry_in_range newer.now ≡ true }
        requires same { record older.now { v = newer.now.v } ≡ newer.now }
        requires later { older.now.v ≤ℤ newer.now.v }
        requires near { unsigned_abs (newer.now.v -ℤ older.now.v) ≤ 2 ^ 40 }
        ensures { self.new.tasks ≡ map.insert self.old.tasks task newer.now }
    {
        self.picked.forget();
        correct_moment(&mut self.totals, older, newer);
        let key = TreeKey::of(task, older);
        self.tree.age(&key, older, newer);
    }

    /// Adds a task that isn't here, in the node of its parcel.
    #[tactic(auto, using(crate::proofs::TreeMaps::find_absent, crate::proofs::TreeMaps::added_room, crate::proofs::PickedTasks::sums_kept, crate::proofs::TreeTotals::totals_near))]
    pub fn add(&mut self, parcel: Parcel, entry: Entry)
        requires absent { map.get self.old.tasks parcel.task ≡ None }
        requires in_range { is_entry_in_range entry ≡ true }
        ensures { self.new.tasks ≡ map.insert self.old.tasks parcel.task entry }
    {
        // the picked task keeps its entry, but another one may be picked next
        self.picked.depth = 0;
        self.totals = with_share(&self.totals, &share(&entry));
        put(
            &mut self.tree,
            &mut self.deadlines,
            parcel.into_node(),
            entry,
        );
    }

    /// Takes out a task that is here, in a parcel with the lag that it keeps at this virtual time.
    #[tactic(auto, using(crate::proofs::TreeMaps::find_present, crate::proofs::TreeTotals::totals_near, crate::proofs::PickedTasks::sums_kept))]
    pub fn remove(&mut self, task: TaskId, time: i64) -> Parcel
        requires here { map.contains_key self.old.tasks task ≡ true }
        requires time { limits.is_in_range time ≡ true }
        ensures rest { self.new.tasks ≡ map.remove self.old.tasks task }
        ensures parcel { option_map (leaving_at time task) (map.get self.old.tasks task) ≡ Some result }
    {
        self.keeps();
        self.picked.forget();
        let node = take(&mut self.tree, &mut self.deadlines, task);
        let entry = node.task().entry;
        self.totals = without_share(&self.totals, &share(&entry));
        leave(node, kept_lag(time, &entry))
    }

    /// The first task, by deadline and number, of those that are eligible at the sums over the tasks, and the depth of
    /// its node.
    #[tactic(auto, using(crate::proofs::RunnableMaps::firsts))]
    fn first(&self, totals: &Threshold) -> Option<Found<'_>>
        requires few { totals.now.weight ≤ 2 ^ 40 }
        requires weight { totals.now.weight ≡ total_weight self.now.tasks }
        requires moment { totals.now.moment ≡ total_moment self.now.tasks }
        ensures here { IfSome result
            (λ f. map.get self.now.tasks f.task.now.number ≡ Some f.task.now.entry) }
        ensures number { option_map (λ f. f.task.now.number) result
            ≡ option_map (λ a. a.0)
            (earliest (is_eligible_at totals.now.weight totals.now.moment) (map.entries self.now.tasks)) }
        ensures positive { IfSome result (λ f. 1 ≤ f.depth) }
        ensures low { IfSome result (λ f. IsFull f.depth (map.len self.now.tasks)) }
        ensures depth { IfSome result
            (λ f. map.get self.now.depths f.task.now.number ≡ Some f.depth) }
    {
        self.tree.earliest(totals)
    }

    /// The eligible task of earliest virtual deadline, and the depth of its node, where both are known from the last
    /// descent. `None` says nothing.
    #[inline(always)]
    pub fn known_pick(&self) -> Option<Pick>
        ensures number { IfSome result (λ f. Some f.task ≡ pick_of self.now.tasks) }
        ensures picked { IfSome result (λ f. IsPick self.now.tasks f.task) }
        ensures here { IfSome result (λ f. map.contains_key self.now.tasks f.task ≡ true) }
        ensures positive { IfSome result (λ f. 1 ≤ f.depth) }
        ensures low { IfSome result (λ f. IsFull f.depth (map.len self.now.tasks)) }
        ensures depth { IfSome result (λ f. map.get self.now.depths f.task ≡ Some f.depth) }
    {
        self.picked.known_pick()
    }

    /// The eligible task of earliest virtual deadline, and the depth of its node. `None` exactly where there is no
    /// task.
    pub fn pick(&mut self) -> Option<Pick>
        ensures number { option_map (λ f. f.task) result ≡ pick_of self.old.tasks }
        ensures picked { IfSome result (λ f. IsPick self.old.tasks f.task) }
        ensures none { IsNone result ↔ (self.old.tasks ≡ map.empty) }
        ensures here { IfSome result (λ f. map.contains_key self.old.tasks f.task ≡ true) }
        ensures positive { IfSome result (λ f. 1 ≤ f.depth) }
        ensures low { IfSome result (λ f. IsFull f.depth (map.len self.old.tasks)) }
        ensures depth { IfSome result (λ f. map.get self.old.depths f.task ≡ Some f.depth) }
        ensures same { self.new ≡ self.old }
    {
        let totals = self.totals();
        let threshold = Threshold::of(&totals);
        let Some(first) = self.first(&threshold) else {
            return None;
        };
        let pick = Pick {
            task: first.task.number,
            depth: first.depth,
        };
        let picked = PickedTask::of(first.task, first.depth);
        // field by field, so that no padding is written
        self.picked.runtime = picked.runtime;
        self.picked.nice = picked.nice;
        self.picked.slice = picked.slice;
        self.picked.number = picked.number;
        self.picked.depth = picked.depth;
        Some(pick)
    }

    /// The eligible task of earliest virtual deadline, as `pick` answers it. Nothing is kept of it.
    #[tactic(auto, using(crate::proofs::Picked::picked, crate::proofs::Picked::none_picked))]
    pub fn peek(&self) -> Option<TaskId>
        ensures number { result ≡ pick_of self.now.tasks }
        ensures picked { IfSome result (IsPick self.now.tasks) }
        ensures none { IsNone result ↔ (self.now.tasks ≡ map.empty) }
    {
        if let Some(known) = self.known_pick() {
            return Some(known.task);
        }
        let Some(first) = self.first(&Threshold::of(&self.totals())) else {
            return None;
        };
        Some(first.task.number)
    }

    /// The last task by deadline and number of those that don't run.
    #[tactic(auto, using(crate::proofs::TreeCandidates::latest_is))]
    pub fn latest_waiting(&self, running: Option<TaskId>) -> Option<&Task>
        ensures { option_map (λ t. numbered_entry t.now) result
            ≡ latest_waiting running (map.entries self.now.tasks) }
    {
        self.tree.latest_waiting(running)
    }

    /// Its number.
    pub fn candidate(&self, running: Option<TaskId>) -> Option<TaskId>
        ensures { result ≡ candidate_of self.now.tasks running }
    {
        match self.latest_waiting(running) {
            None => None,
            Some(task) => Some(task.number),
        }
    }

    /// Learns what every task here keeps.
    pub fn keeps(&self)
        ensures { AreInRange self.now.tasks }
    {
        let _tree = &self.tree;
    }

    /// Learns how large the sums over the tasks can be.
    #[tactic(auto, using(crate::proofs::SmallSums::sums_small))]
    pub fn sums_are_small(&self)
        ensures { AreSumsSmall self.now.tasks }
    {
        self.keeps();
        let _totals = self.totals();
    }
}

/// Gives the task of a number, which is here with an older entry, another one, with which it takes its place anew.
#[tactic(auto, using(crate::proofs::TreeAge::at_deadline, crate::proofs::TreeTotals::entry_found, crate::proofs::TreeMaps::taken_absent, crate::proofs::TreeMaps::taken_room))]
#[inline(always)]
fn replace(
    tree: &mut TaskTree,
    deadlines: &mut DeadlineTable,
    task: TaskId,
    older: &Entry,
    entry: Entry,
)
    requires here { option_map (λ t. t.entry) (find_task task tree.old.tasks) ≡ Some older.now }
    requires stored { IsRunnableStore deadlines.old tree.old.tasks }
    requires in_range { is_entry_in_range entry ≡ true }
    ensures stored { IsRunnableStore deadlines.new tree.new.tasks }
    ensures seen { runnable_in tree.new.tasks ≡ map.insert (runnable_in tree.old.tasks) task entry }
    ensures tree { (t : Task) → find_task task tree.old.tasks ≡ Some t
        → tree.new.tasks ≡ insert_task (record t { entry = entry }) (without task tree.old.tasks) }
{
    let key = TreeKey::of(task, older);
    let node = tree.remove(&key);
    put(tree, deadlines, node, entry);
}

/// Takes the task of a number, which is here, out of the tree, in its node, and has its deadline forgotten.
#[tactic(auto, using(crate::proofs::TreeMaps::placed))]
#[inline(always)]
fn take(tree: &mut TaskTree, deadlines: &mut DeadlineTable, task: TaskId) -> Box<TreeNode>
    requires here { is_some (find_task task tree.old.tasks) ≡ true }
    requires noted { AllByRecursion (IsNoted deadlines.old) tree.old.tasks }
    ensures alone { IsAlone result.value }
    ensures task { find_task task tree.old.tasks ≡ Some (first_task result.value.tasks) }
    ensures rest { tree.new.tasks ≡ without task tree.old.tasks }
    ensures table { (q : ℕ)
        → kept_at deadlines.new q ≡ (if q == task then pos 0 else kept_at deadlines.old q) }
{
    let key = deadlines.key(task);
    deadlines.forget(task);
    tree.remove(&key)
}

/// Puts the task of a lone node into the tree with another entry, and notes its deadline.
fn put(tree: &mut TaskTree, deadlines: &mut DeadlineTable, mut node: Box<TreeNode>, entry: Entry)
    requires alone { IsAlone node.value }
    requires absent { find_task (first_task node.value.tasks).number tree.old.tasks ≡ None }
    requires few { length tree.old.tasks < number_limit }
    requires in_range { is_entry_in_range entry ≡ true }
    ensures tree { tree.new.tasks
        ≡ insert_task (record (first_task node.value.tasks) { entry = entry }) tree.old.tasks }
    ensures table { (q : ℕ)
        → kept_at deadlines.new q
        ≡ (if q ==
        (first_task node.value.tasks).number then noted entry.d else kept_at deadlines.old q) }
{
    node.replace_entry(&entry);
    deadlines.note(node.task().number, &entry);
    tree.insert(node);
}

/// The parcel of a lone node's task, with another lag.
fn leave(mut node: Box<TreeNode>, lag: i64) -> Parcel
    requires alone { IsAlone node.value }
    requires limited { is_lag lag (first_task node.value.tasks).entry.nice
        (first_task node.value.tasks).entry.slice ≡ true }
    ensures { result ≡ record (contents_of (first_task node.value.tasks)) { lag = lag } }
{
    node.replace_lag(lag);
    Parcel::of(node)
}
