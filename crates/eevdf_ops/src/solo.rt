ghost use Rattle.std.specs.Prelude.{◌≡◌, ◌<◌, ◌↔◌, nat_lt, length, true, false, IfOk, IfSome};
ghost use Rattle.std.specs.Prelude.{IfNone, IsNone, OnSome, slice_index_or};
ghost use Rattle.eevdf_ops.specs.Setup.{cpus_of, homes_of, is_allowed, is_task};
ghost use Rattle.eevdf_ops.specs.Machine as machine;
ghost use Rattle.eevdf_ops.specs.{Outcome.machine_of, PickDepths.HasPickDepth, Places.IsPlaced};
ghost use Rattle.eevdf_ops.specs.Whole as operation;

use crate::cpu_id::CpuId;
use crate::deeds::{Answer, Deed};
use crate::homes::Homes;
use crate::machine_start::queues_at_start;
use crate::setup::Setup;
use crate::whole_deeds::whole;
use eevdf_queue::{Queue, TaskId};
use std::alloc::{AllocError, Global};
use std::marker::Model;

/// The scheduler of one thread: the queues of all CPUs, on which each deed is done at once.
#[derive(Drop)]
pub struct Solo {
    homes: Vec<CpuId>,
    queues: Vec<Queue>,
}

impl Model for Solo {
    ghost use Rattle.eevdf_ops.specs.Outcome as outcome;
    ghost use Rattle.std.specs.Coded.{codes};
    ghost use Rattle.eevdf_queue.specs.Codes.{view_code};

    ghost Value = { outcome.Solo };

    ghost coded = { Prim.hlevel (codes, view_code) };

    ghost view = { λ s. record { homes = s.homes.items; queues = s.queues.items } };

    ghost use Rattle.std.specs.Prelude.{length};
    ghost use Rattle.eevdf_ops.specs.{Outcome.machine_of, Places.AreCpus, Places.IsPlaced};

    ghost invariant = { λ s. AreCpus (length s.queues.items) s.homes.items
        × IsPlaced s.homes.items (machine_of s.queues.items) };
}

impl Solo {
    /// The machine as the setup has it at the start. It takes all the memory that the machine ever needs.
    pub fn open(alloc: Global, setup: &Setup) -> Result<Solo, AllocError>
        ensures homes { IfOk result (λ s. s.homes ≡ homes_of setup.now) }
        ensures start { IfOk result (λ s. machine_of s.queues ≡ machine.start setup.now) }
        ensures cpus { IfOk result (λ s. length s.queues ≡ cpus_of setup.now) }
    {
        let homes = setup.homes(alloc)?;
        let queues = queues_at_start(alloc, setup.cpus(), setup.task_specs())?;
        Ok(Solo { homes, queues })
    }

    /// Does a deed at once, and answers it. It takes no memory. A pick goes no deeper than `Queue::pick` says.
    pub fn apply(&mut self, deed: Deed) -> Answer
        requires { is_allowed (length self.old.queues) self.old.homes deed ≡ true }
        ensures answer { result
            ≡ (operation.whole self.old.homes deed (machine_of self.old.queues)).0 }
        ensures machine { machine_of self.new.queues
            ≡ (operation.whole self.old.homes deed (machine_of self.old.queues)).1 }
        ensures depth { HasPickDepth (machine_of self.old.queues) deed self.new.queues }
        ensures homes { self.new.homes ≡ self.old.homes }
        ensures cpus { length self.new.queues ≡ length self.old.queues }
    {
        whole(&self.homes, deed, &mut self.queues)
    }

    /// Does a deed as `apply` does, where the machine allows it. `None`, with nothing changed, exactly where it doesn't.
    pub fn try_apply(&mut self, deed: Deed) -> Option<Answer>
        ensures refused { IsNone result
            ↔ (is_allowed (length self.old.queues) self.old.homes deed ≡ false) }
        ensures unchanged { IfNone result (self.new ≡ self.old) }
        ensures answer { IfSome result (λ answer. answer
            ≡ (operation.whole self.old.homes deed (machine_of self.old.queues)).0) }
        ensures machine { OnSome result (machine_of self.new.queues
            ≡ (operation.whole self.old.homes deed (machine_of self.old.queues)).1) }
        ensures depth { OnSome result
            (HasPickDepth (machine_of self.old.queues) deed self.new.queues) }
        ensures homes { self.new.homes ≡ self.old.homes }
        ensures cpus { length self.new.queues ≡ length self.old.queues }
    {
        if self.allows(&deed) {
            Some(self.apply(deed))
        } else {
            None
        }
    }

    /// Whether the machine has the CPU, the task, the sender and the source that a deed names, a wake is at the task's
    /// home, and a pull is from another CPU: the condition of `apply`.
    pub fn allows(&self, deed: &Deed) -> bool
        ensures { result ≡ is_allowed (length self.now.queues) self.now.homes deed.now }
    {
        Homes::Alone(&self.homes).allows(self.queues.len(), deed)
    }

    /// Whether the machine has a CPU.
    pub fn has_cpu(&self, cpu: CpuId) -> bool
        ensures { result ≡ nat_lt cpu (length self.now.queues) }
    {
        cpu.index() < self.queues.len()
    }

    /// Whether the machine has a task.
    pub fn has_task(&self, task: TaskId) -> bool
        ensures { result ≡ is_task self.now.homes task }
    {
        Homes::Alone(&self.homes).has_task(task)
    }

    /// The queue of a CPU.
    pub fn queue(&self, cpu: CpuId) -> &Queue
        requires { cpu < length self.now.queues }
        ensures { result.now ≡ slice_index_or self.now.queues cpu result.now }
    {
        &self.queues[cpu.index()]
    }

    /// Learns where the tasks stand.
    pub(crate) fn keeps(&self)
        ensures { IsPlaced self.now.homes (machine_of self.now.queues) }
    {
        let _homes = &self.homes;
    }

    /// The queues, by CPU.
    pub fn into_queues(self) -> Vec<Queue>
        ensures { result.items ≡ self.queues }
    {
        let Solo { homes: _, queues } = self;
        queues
    }
}
