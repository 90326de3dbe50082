ghost use Rattle.std.specs.Prelude.{◌≡◌, ℕ, ◌≤◌, ◌^◌, Some, None, IfSome, is_some, unsigned_abs, true};
ghost use Rattle.std.specs.FinMap as map;
ghost use Rattle.eevdf_queue.specs.{Lag.is_lag, Lag.sleeping_lag, Moves.sleeper_of};
ghost use Rattle.eevdf_queue.specs.{Kept.AreLimited, Kept.AreOfSleepers, Slots.slot_at};
ghost use Rattle.eevdf_queue.specs.Slots.{IsLoneOf, IsWith, sleeper_of_node, place_of_node};
ghost use Rattle.eevdf_queue.specs.TaskLists.{first_task, IsLone};

use crate::parcel::Parcel;
use crate::place::{NO_PLACE, place_of, with_place};
use crate::sleeper::Sleeper;
use crate::task::{keeping, sleeper_of};
use crate::task_id::TaskId;
use crate::tree::node::TreeNode;
use std::array;
use std::marker::Model;

/// The sleeping tasks of a queue, seen as the map from their numbers to what is kept of them and the map of the places of those
/// that doze. Each stands in the slot of its number, in the node that carries it. The slots are in the queue itself and take no
/// memory.
#[derive(Drop)]
pub struct Sleepers {
    slots: [Option<Box<TreeNode>>; TaskId::COUNT],
}

impl Model for Sleepers {
    ghost use Rattle.eevdf_queue.specs.{State.TasksAsleep, Codes.tasks_asleep_code};

    ghost Value = { TasksAsleep };

    ghost coded = { tasks_asleep_code };

    ghost use Rattle.eevdf_queue.specs.Slots.{tasks_asleep_in, AreSlots};

    ghost view = { λ a. tasks_asleep_in a.slots };

    ghost invariant = { λ a. AreSlots a.slots };
}

impl Sleepers {
    pub fn new() -> Sleepers
        ensures tasks { result.tasks ≡ map.empty }
        ensures places { result.places ≡ map.empty }
    {
        Sleepers { slots: empty() }
    }

    pub fn contains(&self, task: TaskId) -> bool
        ensures { result ≡ map.contains_key self.now.tasks task }
    {
        slot(&self.slots, task).is_some()
    }

    /// The kept lag of a task that sleeps here.
    pub fn lag(&self, task: TaskId) -> Option<i64>
        ensures { result ≡ sleeping_lag (map.get self.now.tasks task) }
    {
        match self.get(task) {
            None => None,
            Some(sleeper) => Some(sleeper.lag),
        }
    }

    /// What is kept of a task that sleeps here.
    pub fn get(&self, task: TaskId) -> Option<Sleeper>
        ensures { result ≡ map.get self.now.tasks task }
    {
        match slot(&self.slots, task) {
            None => None,
            Some(node) => Some(sleeper_of(&node.task())),
        }
    }

    /// The place of a task that dozes here.
    pub fn place(&self, task: TaskId) -> Option<i128>
        ensures value { result ≡ map.get self.now.places task }
        ensures small { IfSome result (λ place. unsigned_abs place ≤ 2 ^ 126) }
    {
        match slot(&self.slots, task) {
            None => None,
            Some(node) => place_of(&node.task()),
        }
    }

    /// Whether a task dozes here.
    #[inline(always)]
    pub fn dozes(&self, task: TaskId) -> bool
        ensures { result ≡ map.contains_key self.now.places task }
    {
        self.place(task).is_some()
    }

    /// Adds a task that isn't here, with the lag of its parcel.
    pub fn add(&mut self, parcel: Parcel)
        requires { map.get self.old.tasks parcel.task ≡ None }
        ensures { self.new ≡ record self.old { tasks = map.insert self.old.tasks parcel.task (sleeper_of parcel) } }
    {
        let task = parcel.task();
        fill(&mut self.slots, task, sleeping_node(parcel));
    }

    /// Adds a task that isn't here, with the lag of its parcel and with a place.
    pub fn add_at(&mut self, parcel: Parcel, place: i128)
        requires absent { map.get self.old.tasks parcel.task ≡ None }
        requires small { unsigned_abs place ≤ 2 ^ 121 }
        ensures tasks { self.new.tasks ≡ map.insert self.old.tasks parcel.task (sleeper_of parcel) }
        ensures places { self.new.places ≡ map.insert self.old.places parcel.task place }
    {
        let task = parcel.task();
        fill(&mut self.slots, task, dozing_node(parcel, place));
    }

    /// Takes out a task that sleeps here, in a parcel with its kept lag. Its place, if it has one, is gone.
    pub fn remove(&mut self, task: TaskId) -> Parcel
        requires { map.contains_key self.old.tasks task ≡ true }
        ensures rest { self.new.tasks ≡ map.remove self.old.tasks task }
        ensures places { self.new.places ≡ map.remove self.old.places task }
        ensures task { result.task ≡ task }
        ensures parcel { map.get self.old.tasks task ≡ Some (sleeper_of result) }
    {
        Parcel::of(take(&mut self.slots, task))
    }

    /// Keeps this of a task that sleeps here. Its place, if it has one, stays.
    pub fn change(&mut self, task: TaskId, sleeper: &Sleeper)
        requires here { map.contains_key self.old.tasks task ≡ true }
        requires limited { is_lag sleeper.now.lag sleeper.now.nice sleeper.now.slice ≡ true }
        ensures tasks { self.new.tasks ≡ map.insert self.old.tasks task sleeper.now }
        ensures places { self.new.places ≡ self.old.places }
    {
        let node = changed_node(take(&mut self.slots, task), sleeper);
        fill(&mut self.slots, task, node);
    }

    /// Learns what every task here keeps.
    #[tactic(auto, using(crate::proofs::AsleepMaps::asleep_maps))]
    pub fn keeps(&self)
        ensures limited { AreLimited self.now.tasks }
        ensures placed { AreOfSleepers self.now.places self.now.tasks }
    {
        let _slots = &self.slots;
    }
}

/// The node of a parcel, without a place.
fn sleeping_node(parcel: Parcel) -> Box<TreeNode>
    ensures lone { IsLoneOf parcel.task result.value.tasks }
    ensures sleeper { sleeper_of_node result.value ≡ sleeper_of parcel }
    ensures place { place_of_node result.value ≡ None }
{
    let mut node = parcel.into_node();
    node.replace_deadline(NO_PLACE);
    node
}

/// The node of a parcel, with a place.
fn dozing_node(parcel: Parcel, place: i128) -> Box<TreeNode>
    requires { unsigned_abs place ≤ 2 ^ 121 }
    ensures lone { IsLoneOf parcel.task result.value.tasks }
    ensures sleeper { sleeper_of_node result.value ≡ sleeper_of parcel }
    ensures place { place_of_node result.value ≡ Some place }
{
    let mut node = parcel.into_node();
    let task = with_place(&node.task(), place);
    node.replace(task);
    node
}

/// A node of which this is kept.
fn changed_node(mut node: Box<TreeNode>, sleeper: &Sleeper) -> Box<TreeNode>
    requires lone { IsLone node.value.tasks }
    requires limited { is_lag sleeper.now.lag sleeper.now.nice sleeper.now.slice ≡ true }
    ensures lone { IsLone result.value.tasks }
    ensures number { (first_task result.value.tasks).number ≡ (first_task node.value.tasks).number }
    ensures sleeper { sleeper_of_node result.value ≡ sleeper.now }
    ensures place { place_of_node result.value ≡ place_of_node node.value }
{
    let task = keeping(&node.task(), sleeper);
    node.replace(task);
    node
}

/// Slots without a node.
fn empty() -> [Option<Box<TreeNode>>; TaskId::COUNT]
    ensures { (q : ℕ) → slot_at result q ≡ None }
{
    array::from_fn(|_| None)
}

/// The slot of a number.
fn slot(slots: &[Option<Box<TreeNode>>; TaskId::COUNT], task: TaskId) -> &Option<Box<TreeNode>>
    ensures { result.now ≡ slot_at slots.now task }
{
    &slots[task.index()]
}

/// Puts a node into the slot of a number.
fn fill(slots: &mut [Option<Box<TreeNode>>; TaskId::COUNT], task: TaskId, node: Box<TreeNode>)
    ensures { IsWith task (Some node) slots.old slots.new }
{
    slots[task.index()] = Some(node);
}

/// Takes the node out of the slot of a number.
fn take(slots: &mut [Option<Box<TreeNode>>; TaskId::COUNT], task: TaskId) -> Box<TreeNode>
    requires { is_some (slot_at slots.old task) ≡ true }
    ensures node { slot_at slots.old task ≡ Some result }
    ensures rest { IsWith task None slots.old slots.new }
{
    slots[task.index()].take().unwrap()
}
