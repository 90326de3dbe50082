ghost use Rattle.std.specs.Prelude.{◌≡◌, ◌<◌, ◌++◌, [], ◌∷◌, length, vec_capacity};
ghost use Rattle.std.specs.VecDeque.{deque_capacity};
ghost use Rattle.eevdf_free_tasks.specs.Slots.{first_slot, AreListed};

use crate::slot::Slot;
use crate::taken_task::TakenTask;
use eevdf_ops::{CpuId, Setup, TaskSpec};
use eevdf_queue::TaskId;
use std::alloc::{AllocError, Global};
use std::collections::VecDeque;
use std::marker::Model;

/// The numbers of one home. Contracts see for each number whether it is free, taken or elsewhere, by which a taken number isn't handed out
/// before it is given back, and none is lost. The number that has been free longest is handed out next. No call takes memory once it is
/// open.
#[derive(Drop)]
pub struct FreeTasks {
    // the free ones, of which the first is handed out next
    free: VecDeque<TaskId>,
    slots: Vec<Slot>,
}

impl Model for FreeTasks {
    ghost use Rattle.std.specs.Prelude.{List};
    ghost use Rattle.std.specs.VecDeque.{deque_capacity};
    ghost use Rattle.eevdf_free_tasks.specs.Slots.{AreFree};
    ghost use Rattle.eevdf_free_tasks.specs.declared.slot.Slot.{Slot};

    ghost Value = { List Slot };

    ghost view = { λ f. f.slots.items };

    ghost invariant = { λ f. AreFree f.free.items (deque_capacity f.free) f.slots.items };
}

impl FreeTasks {
    ghost use Rattle.std.specs.Prelude.{◌≡◌, IfErr, IfNone, IfOk, IfSome, IsOk, IsSome, IsTrue, ◌↔◌};
    ghost use Rattle.eevdf_free_tasks.specs.Slots.{first_slots, given_back, slot_of, with_taken, NoneFree};
    ghost use Rattle.eevdf_free_tasks.specs.declared.slot.Slot.TheVariants.{Begun, Free, Taken};

    /// The numbers whose home is a CPU of the setup. Those of tasks that the setup has asleep are free, and the others are those of tasks
    /// that have begun. The answer is `AllocError` where memory is refused.
    pub fn of_home(alloc: Global, setup: &Setup, home: CpuId) -> Result<FreeTasks, AllocError>
        ensures { IfOk result (λ tasks. tasks ≡ first_slots home setup.now) }
    {
        let _few = setup.cpus();
        let mut free = VecDeque::with_capacity(alloc, setup.tasks())?;
        let mut slots = Vec::with_capacity(alloc, setup.tasks())?;
        for number in 0..setup.tasks() {
            // No setup has more tasks than there are numbers.
            let Some(task) = TaskId::new(number as u64) else {
                unreachable!()
            };
            add(
                &mut free,
                &mut slots,
                task,
                first_slot(setup.spec(task), home),
            );
        }
        Ok(FreeTasks { free, slots })
    }

    /// Takes a number that is free. `None` exactly where none is.
    pub fn take(&mut self) -> Option<TakenTask>
        ensures was_free { IfSome result (λ task. slot_of self.old task ≡ Free) }
        ensures taken { IfSome result (λ task. self.new ≡ with_taken self.old task) }
        ensures none { IfNone result (NoneFree self.old) }
        ensures unchanged { IfNone result (self.new ≡ self.old) }
    {
        let task = self.free.pop_front()?;
        self.slots[task.index()] = Slot::Taken;
        Some(TakenTask::of(task))
    }

    /// Takes the number of a task that the setup has awake: from the beginning a task has it, and whoever ends that gives it back. `None`,
    /// and nothing changes, exactly where the setup doesn't have the task awake at this home, or its number was taken before.
    pub fn take_begun(&mut self, task: TaskId) -> Option<TakenTask>
        ensures some { IfSome result (λ taken. taken ≡ task) }
        ensures was_begun { IfSome result (λ _. slot_of self.old task ≡ Begun) }
        ensures taken { IfSome result (λ _. self.new ≡ with_taken self.old task) }
        ensures none { slot_of self.old task ≡ Begun → IsSome result }
        ensures unchanged { IfNone result (self.new ≡ self.old) }
    {
        match self.slots.get(task.index()) {
            Some(Slot::Begun) => {
                self.slots[task.index()] = Slot::Taken;
                Some(TakenTask::of(task))
            }
            _ => None,
        }
    }

    /// Gives back a number, which is free from then on. It comes back, and nothing changes, exactly where it isn't taken from here. Of
    /// values that were taken from one `FreeTasks` for each home that is so where it is of another home. One of another machine, or of a
    /// second `FreeTasks` of this home, is told by its number alone: where that is taken from here, it is free then, though the value
    /// that was taken here is still out.
    pub fn give_back(&mut self, taken: TakenTask) -> Result<(), TakenTask>
        ensures result { IsOk result ↔ (slot_of self.old taken ≡ Taken) }
        ensures after { self.new ≡ given_back self.old taken }
        ensures handed_back { IfErr result (λ back. back ≡ taken) }
    {
        if !self.set_free(taken.task()) {
            return Err(taken);
        }
        let _ = taken.retire();
        Ok(())
    }

    /// Whether a number is one of the home's that was taken and hasn't come back.
    pub fn is_taken(&self, task: TaskId) -> bool
        ensures { IsTrue result ↔ (slot_of self.now task ≡ Taken) }
    {
        match self.slots.get(task.index()) {
            Some(Slot::Taken) => true,
            _ => false,
        }
    }

    /// A number that comes back is free from then on. `false`, and nothing changes, exactly where it isn't taken from here.
    pub(crate) fn set_free(&mut self, task: TaskId) -> bool
        ensures result { IsTrue result ↔ (slot_of self.old task ≡ Taken) }
        ensures after { self.new ≡ given_back self.old task }
    {
        if !self.is_taken(task) {
            return false;
        }
        self.slots[task.index()] = Slot::Free;
        self.free.push_back_reserved(task);
        true
    }
}

/// What is known of a task's number at a home, as a machine begins.
fn first_slot(spec: &TaskSpec, home: CpuId) -> Slot
    ensures { result ≡ first_slot home spec.now }
{
    if spec.home != home {
        Slot::Elsewhere
    } else if spec.asleep {
        Slot::Free
    } else {
        Slot::Begun
    }
}

/// Adds the number after those that have slots so far.
fn add(free: &mut VecDeque<TaskId>, slots: &mut Vec<Slot>, task: TaskId, slot: Slot)
    requires next { task ≡ length slots.old.items }
    requires listed { AreListed free.old.items slots.old.items }
    requires free_room { length slots.old.items < deque_capacity free.old }
    requires slots_room { length slots.old.items < vec_capacity slots.old }
    ensures listed { AreListed free.new.items slots.new.items }
    ensures slots { slots.new.items ≡ slots.old.items ++ slot ∷ [] }
    ensures free_capacity { deque_capacity free.new ≡ deque_capacity free.old }
    ensures slots_capacity { vec_capacity slots.new ≡ vec_capacity slots.old }
{
    match slot {
        Slot::Free => free.push_back_reserved(task),
        Slot::Elsewhere | Slot::Begun | Slot::Taken => (),
    }
    slots.push_reserved(slot);
}
