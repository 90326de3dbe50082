ghost use Rattle.std.specs.Prelude.{◌≡◌, ◌<◌, IfOk, IfSome, is_some, pos, true, false};
ghost use Rattle.eevdf_queue.specs.{Lag.is_lag, Moves.sleeper_of, Numbers.number_limit, SliceChange.contents_with_slice};
ghost use Rattle.eevdf_queue.specs.Attributes as attributes;
ghost use Rattle.eevdf_queue.specs.TaskLists.{first_task, contents_of, IsLone};

use crate::block::Block;
use crate::entry::Entry;
use crate::room::Room;
use crate::sleeper::Sleeper;
use crate::task::{Task, keeping, sleeper_of};
use crate::task_id::TaskId;
use crate::tree::node::TreeNode;
use eevdf_weight::{Nice, Slice};
use std::alloc::{AllocError, Global};
use std::fmt;
use std::marker::Model;

/// One task on its way into a queue, with the node that carries it there: its number, its nice level and
/// slice, the virtual runtime that it starts at, and the lag that it has.
///
/// A parcel isn't `Drop`, so a program that lets one go isn't accepted: it puts the task into a queue, or ends
/// it by [`Parcel::retire`].
pub struct Parcel {
    node: Box<TreeNode>,
}

impl Model for Parcel {
    ghost use Rattle.std.specs.Prelude.{◌≡◌, ◌∷◌, []};
    ghost use Rattle.eevdf_queue.specs.State.{Contents};

    ghost Value = { Contents };

    ghost use Rattle.eevdf_queue.specs.TaskLists.{first_task, contents_of, IsLone};

    ghost view = { λ a. contents_of (first_task a.node.value.tasks) };

    ghost invariant = { λ a. IsLone a.node.value.tasks };
}

impl fmt::Debug for Parcel {
    fn fmt<W: fmt::Write>(&self, f: &mut fmt::Formatter<W>) -> fmt::Result {
        write!(
            f,
            "Parcel {{ task: {}, nice: {}, slice: {}, start: {}, lag: {} }}",
            self.task(),
            self.nice(),
            self.slice(),
            self.start(),
            self.lag()
        )
    }
}

impl Parcel {
    /// A parcel of a task that starts at the virtual runtime `v` with the lag 0. Fails only when
    /// out of memory.
    pub fn make(
        alloc: Global,
        task: TaskId,
        nice: Nice,
        slice: Slice,
        v: i64,
    ) -> Result<Parcel, AllocError>
        ensures { IfOk result
            (λ p. p ≡ record { task = task; nice = nice; slice = slice; start = v; lag = pos 0 }) }
    {
        let node = Box::new(alloc, TreeNode::new(beginning(task, nice, slice, v)))?;
        Ok(Parcel { node })
    }

    /// The same in a block of the caller's, which is gone then. `None` where there is none. Takes no memory besides.
    ///
    /// The allocator is that to which [`Parcel::retire`] gives the block back; [`Parcel::retire_into`] gives it to the caller.
    pub fn make_in(
        alloc: Global,
        block: &mut Block,
        task: TaskId,
        nice: Nice,
        slice: Slice,
        v: i64,
    ) -> Option<Parcel>
        ensures some { is_some result ≡ block.old }
        ensures parcel { IfSome result
            (λ p. p ≡ record { task = task; nice = nice; slice = slice; start = v; lag = pos 0 }) }
        ensures block { block.new ≡ false }
    {
        match block.take(alloc) {
            Some(room) => Some(Parcel {
                node: room.fill(TreeNode::new(beginning(task, nice, slice, v))),
            }),
            None => None,
        }
    }

    /// The number of the task.
    pub fn task(&self) -> TaskId
        ensures { result ≡ self.now.task }
    {
        self.node.task().number
    }

    /// The nice level of the task.
    pub fn nice(&self) -> Nice
        ensures { result ≡ self.now.nice }
    {
        self.node.task().entry.nice
    }

    /// The slice of the task.
    pub fn slice(&self) -> Slice
        ensures { result ≡ self.now.slice }
    {
        self.node.task().entry.slice
    }

    /// The virtual runtime that the task starts at.
    pub fn start(&self) -> i64
        ensures { result ≡ self.now.start }
    {
        self.node.task().entry.v
    }

    /// The lag of the task, within the limit of its slice and weight.
    pub fn lag(&self) -> i64
        ensures value { result ≡ self.now.lag }
        ensures limited { is_lag self.now.lag self.now.nice self.now.slice ≡ true }
    {
        self.node.task().lag
    }

    /// Ends the task, and frees its node.
    pub fn retire(self) {
        let Parcel { node: _ } = self;
    }

    /// Ends the task, and gives its node's memory to the caller. It need not be the block that the task came in: a task may leave
    /// in a node that came with another.
    pub fn retire_into(self, block: &mut Block)
        requires { block.old ≡ false }
        ensures { block.new ≡ true }
    {
        let Parcel { node } = self;
        block.put(Room::of(node));
    }

    /// The same task, to start at the virtual runtime `v`.
    pub(crate) fn starting_at(mut self, v: i64) -> Parcel
        ensures { result ≡ record self { start = v } }
    {
        let mut task = self.node.task();
        task.entry.v = v;
        self.node.replace(task);
        self
    }

    /// The same task under another number, so that queues which exchange tasks can give out their numbers each by itself.
    pub fn with_number(mut self, task: TaskId) -> Parcel
        ensures { result ≡ record self { task = task } }
    {
        let mut numbered = self.node.task();
        numbered.number = task;
        self.node.replace(numbered);
        self
    }

    /// The same task with another slice, and with its lag cut to the limit that it then has.
    pub fn with_slice(self, slice: Slice) -> Parcel
        ensures { result ≡ contents_with_slice self slice }
    {
        let sleeper = self.sleeper().with_slice(slice);
        self.bringing(&sleeper)
    }

    /// The same task with another nice level and slice: its lag is that of the same service under the new weight, rounded down,
    /// and cut to the limit that it then has.
    pub fn with_attributes(self, nice: Nice, slice: Slice) -> Parcel
        ensures { result ≡ attributes.contents_with self nice slice }
    {
        let sleeper = self.sleeper().with(nice, slice);
        self.bringing(&sleeper)
    }

    /// The same task with the lag 0.
    pub fn without_lag(self) -> Parcel
        ensures { result ≡ attributes.without_lag self }
    {
        let mut sleeper = self.sleeper();
        sleeper.lag = 0;
        self.bringing(&sleeper)
    }

    /// The same task, which brings this along.
    pub(crate) fn bringing(mut self, sleeper: &Sleeper) -> Parcel
        requires { is_lag sleeper.now.lag sleeper.now.nice sleeper.now.slice ≡ true }
        ensures { result ≡ attributes.bringing self sleeper.now }
    {
        let task = keeping(&self.node.task(), sleeper);
        self.node.replace(task);
        self
    }

    /// An entry at the start, whose request is still to come.
    pub(crate) fn entry(&self) -> Entry
        ensures start { result.v ≡ self.now.start }
        ensures nice { result.nice ≡ self.now.nice }
        ensures slice { result.slice ≡ self.now.slice }
    {
        self.node.task().entry
    }

    /// What the task brings along.
    pub(crate) fn sleeper(&self) -> Sleeper
        ensures value { result ≡ sleeper_of self.now }
        ensures limited { is_lag result.lag result.nice result.slice ≡ true }
    {
        sleeper_of(&self.node.task())
    }

    /// The node, alone.
    pub(crate) fn into_node(self) -> Box<TreeNode>
        ensures lone { IsLone result.value.tasks }
        ensures contents { contents_of (first_task result.value.tasks) ≡ self }
        ensures below { self.task < number_limit }
    {
        prove!(self.task().index() < TaskId::COUNT);
        let Parcel { node } = self;
        node
    }

    /// A parcel of the task of a node, with its lag, which is within its limit.
    pub(crate) fn of(node: Box<TreeNode>) -> Parcel
        requires { IsLone node.value.tasks }
        ensures { result ≡ contents_of (first_task node.value.tasks) }
    {
        Parcel { node }
    }
}

/// A task that starts at the virtual runtime `v` with the lag 0.
fn beginning(task: TaskId, nice: Nice, slice: Slice, v: i64) -> Task
    ensures number { result.number ≡ task }
    ensures v { result.entry.v ≡ v }
    ensures nice { result.entry.nice ≡ nice }
    ensures slice { result.entry.slice ≡ slice }
    ensures lag { result.lag ≡ pos 0 }
{
    Task {
        number: task,
        entry: Entry {
            v,
            d: v,
            nice,
            slice,
        },
        lag: 0,
    }
}
