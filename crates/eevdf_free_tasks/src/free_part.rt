use crate::free_tasks::FreeTasks;
use crate::ring_ends::{push_to, receive_all};
use crate::taken_task::TakenTask;
use eevdf_ops::{CpuId, Homes, Setup};
use eevdf_queue::TaskId;
use rtrb::{Consumer, Producer};
use std::alloc::{AllocError, Global};
use std::marker::Model;

/// A CPU's part of the free numbers of a machine: whoever has it takes numbers of the CPU's own, and gives back those of any home. It may
/// move to another thread. Contracts see the CPU, the homes of all numbers, its own numbers, the numbers that it has sent to each home, how
/// many more certainly fit into the ring to each home, the numbers that it has received from each sender, in order, and those that it has
/// seen in the ring from each and not received.
///
/// A number of another home is given back through a ring to the part of that home, which comes to see it some time. That a part receives
/// what others have sent, and nothing else, is what the crate `rtrb` says of the two ends of a ring. No contract here says which ends
/// are of one ring.
#[derive(Drop)]
pub struct FreePart {
    cpu: CpuId,
    homes: Vec<CpuId>,
    own: FreeTasks,
    // by homes
    producers: Vec<Producer<TaskId>>,
    // by senders
    consumers: Vec<Consumer<TaskId>>,
}

impl Model for FreePart {
    ghost use Rattle.std.specs.Prelude.{map};
    ghost use Rattle.rtrb.specs.Ring.{known_free, known_items, received, sent};
    ghost use Rattle.eevdf_free_tasks.specs.Parts.{Part};

    ghost Value = { Part };

    ghost view = { λ p. record {
      cpu = p.cpu;
      homes = p.homes.items;
      own = p.own;
      sent = map sent p.producers.items;
      free = map known_free p.producers.items;
      received = map received p.consumers.items;
      waiting = map known_items p.consumers.items;
    } };
}

impl FreePart {
    ghost use Rattle.std.specs.Prelude.{◌≡◌, [], ◌∷◌, ◌++◌, ◌↔◌, IfErr, IfNone, IfOk, IfSome, IsFalse, IsSome, IsTrue, OnErr, OnOk};
    ghost use Rattle.rtrb.specs.Ring.{known_free, known_items, received, sent};
    ghost use Rattle.eevdf_free_tasks.specs.Parts.{free_to, HasGiven, HasNone, HasSent, HasTaken, IsFresh, IsRefused};
    ghost use Rattle.eevdf_free_tasks.specs.Slots.{given_back, slot_of, with_taken};
    ghost use Rattle.eevdf_free_tasks.specs.declared.slot.Slot.TheVariants.{Begun, Taken};

    /// The part of a CPU of the setup, which has no ends of rings yet.
    pub(crate) fn of_cpu(alloc: Global, setup: &Setup, cpu: CpuId) -> Result<FreePart, AllocError>
        ensures fresh { IfOk result (λ part. IsFresh setup.now cpu part) }
        ensures alone { IfOk result (λ part. (part.sent ≡ []) × (part.free ≡ []) × (part.received ≡ [])) }
    {
        Ok(FreePart {
            cpu,
            homes: setup.homes(alloc)?,
            own: FreeTasks::of_home(alloc, setup, cpu)?,
            producers: Vec::with_capacity(alloc, setup.cpus())?,
            consumers: Vec::with_capacity(alloc, setup.cpus())?,
        })
    }

    /// Adds the end that pushes into a fresh ring, to the next home.
    pub(crate) fn add_producer(&mut self, end: Producer<TaskId>) -> Result<(), AllocError>
        requires { sent end ≡ [] }
        ensures { OnOk result (self.new ≡ record self.old {
          sent = self.old.sent ++ [] ∷ [];
          free = self.old.free ++ known_free end ∷ [];
        }) }
    {
        self.producers.push(end)?;
        Ok(())
    }

    /// Adds the end that pops from a fresh ring, of the next sender.
    pub(crate) fn add_consumer(&mut self, end: Consumer<TaskId>) -> Result<(), AllocError>
        requires none { received end ≡ [] }
        requires none_seen { known_items end ≡ [] }
        ensures { OnOk result (self.new ≡ record self.old {
          received = self.old.received ++ [] ∷ [];
          waiting = self.old.waiting ++ [] ∷ [];
        }) }
    {
        self.consumers.push(end)?;
        Ok(())
    }

    /// The number of its CPU.
    pub fn cpu(&self) -> CpuId
        ensures { result ≡ self.now.cpu }
    {
        self.cpu
    }

    /// Takes a free number of the CPU's own, at once where one is free. Where none is, it first gives back all that it sees that other parts
    /// have sent. `None` exactly where none is free then: all of the home's numbers are taken, but for those that are still on their way.
    /// No clause says that it sees all that was sent. It neither waits nor takes memory.
    pub fn take(&mut self) -> Option<TakenTask>
        ensures some { IfSome result (λ task. HasTaken task self.old self.new) }
        ensures none { IfNone result (HasNone self.old self.new) }
    {
        if let Some(taken) = self.own.take() {
            return Some(taken);
        }
        receive_all(&mut self.consumers, &mut self.own);
        self.own.take()
    }

    /// Takes the number of a task of the CPU's own that the setup has awake: from the beginning a task has it, and whoever ends that gives
    /// it back. `None`, and nothing changes, exactly where the setup doesn't have the task awake at this home, or its number was taken
    /// before. It neither waits nor takes memory.
    pub fn take_begun(&mut self, task: TaskId) -> Option<TakenTask>
        ensures some { IfSome result (λ taken. taken ≡ task) }
        ensures was_begun { IfSome result (λ _. slot_of self.old.own task ≡ Begun) }
        ensures taken { IfSome result
            (λ _. self.new ≡ record self.old { own = with_taken self.old.own task }) }
        ensures none { slot_of self.old.own task ≡ Begun → IsSome result }
        ensures unchanged { IfNone result (self.new ≡ self.old) }
    {
        self.own.take_begun(task)
    }

    /// Gives back a number: it is free at once where its home is the CPU, and else is sent to its home. It neither waits nor takes
    /// memory. The number comes back, and nothing changes, exactly where the setup hasn't the task, where it is of the CPU's own and
    /// isn't taken from here, or where no place in the ring to its home is known to be free, after a look too. The ring has a place for
    /// each number of the home. So of the values of one machine, those that were taken from its parts, none comes back. A value of
    /// another machine, which may be one of the same setup, is told by its number alone: where that is taken from here it is free then,
    /// though the value that was taken here is still out; and where it is sent home though nobody took it there, it is let go.
    pub fn give_back(&mut self, taken: TakenTask) -> Result<(), TakenTask>
        ensures given { OnOk result (HasGiven taken self.old self.new) }
        ensures refused { OnErr result (IsRefused taken self.old) }
        ensures unchanged { OnErr result (self.new ≡ self.old) }
        ensures handed_back { IfErr result (λ back. back ≡ taken) }
    {
        if !self.returns(taken.task()) {
            return Err(taken);
        }
        let _ = taken.retire();
        Ok(())
    }

    /// Frees a number of the CPU's own, or sends one of another home there.
    fn returns(&mut self, task: TaskId) -> bool
        ensures given { IsTrue result → HasGiven task self.old self.new }
        ensures refused { IsFalse result → IsRefused task self.old }
        ensures unchanged { IsFalse result → self.new ≡ self.old }
    {
        let homes = Homes::Alone(&self.homes);
        if !homes.has_task(task) {
            return false;
        }
        let home = homes.home(task);
        if home == self.cpu {
            return self.free_own(task);
        }
        self.send(home, task)
    }

    /// Frees a number of the CPU's own.
    fn free_own(&mut self, task: TaskId) -> bool
        ensures result { IsTrue result ↔ (slot_of self.old.own task ≡ Taken) }
        ensures given { IsTrue result → self.new ≡ record self.old { own = given_back self.old.own task } }
        ensures unchanged { IsFalse result → self.new ≡ self.old }
    {
        self.own.set_free(task)
    }

    /// Sends a number to its home.
    fn send(&mut self, home: CpuId, task: TaskId) -> bool
        ensures given { IsTrue result → HasSent home task self.old self.new }
        ensures full { IsFalse result → free_to self.old home ≡ 0 }
        ensures unchanged { IsFalse result → self.new ≡ self.old }
    {
        push_to(&mut self.producers, home.index(), task)
    }
}
