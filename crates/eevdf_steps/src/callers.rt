//! The callers on their way through their programs, and the locks that they hold.

ghost use Rattle.std.specs.Prelude.{◌≡◌, ◌+◌, ◌<◌, ◌≤◌, true, length, replicate, Some, None, IfOk};
ghost use Rattle.std.specs.Prelude.{IfSome, MatchOption};
ghost use Rattle.eevdf_steps.specs.Counters as counters;
ghost use Rattle.eevdf_steps.specs.Holders as locks;
ghost use Rattle.eevdf_steps.specs.{Orders.counters_at_start, SoundSteps.is_sound_micro};
ghost use Rattle.eevdf_steps.specs.{SoundSteps.is_sound_step};
ghost use Rattle.eevdf_steps.specs.Plan.{IsSound, callers, plan_of};

use crate::micro::Micro;
use crate::plan::{Plan, Position, Step};
use crate::step_fault::StepFault;
use eevdf_ops::{CpuId, Setup};
use std::alloc::{AllocError, Global};
use std::marker::Model;

/// What the callers are to do, how far each has come, and who holds the lock of each CPU.
#[derive(Drop)]
pub(crate) struct Callers {
    plan: Plan,
    positions: Vec<Position>,
    holders: Vec<Option<CpuId>>,
}

impl Model for Callers {
    ghost use Rattle.std.specs.Coded.{codes};
    ghost use Rattle.eevdf_queue.specs.Codes.{state_code};
    ghost use Rattle.eevdf_steps.specs.Callers as way;

    ghost Value = { way.Callers };

    ghost coded = { Prim.hlevel (codes, state_code) };

    ghost view = { λ c. way.callers_at c.plan c.positions.items };

    ghost invariant = { λ c. way.AreCallers c.plan c.positions.items c.holders.items };
}

impl Callers {
    /// The callers of a setup, none of whom has done a step.
    pub(crate) fn open(alloc: Global, setup: &Setup) -> Result<Callers, AllocError>
        ensures plan { IfOk result (λ c. c.plan ≡ plan_of setup.now) }
        ensures counters { IfOk result (λ c. c.counters ≡ counters_at_start (plan_of setup.now)) }
    {
        let plan = Plan::make(alloc, setup)?;
        let positions = plan.first_positions(alloc)?;
        let holders = free_locks(alloc, plan.callers())?;
        Ok(Callers {
            plan,
            positions,
            holders,
        })
    }

    /// Learns what is kept of the callers.
    pub(crate) fn keeps(&self)
        ensures sound { IsSound self.now.plan }
        ensures each { length self.now.counters ≡ callers self.now.plan }
    {
        self.plan.keeps();
        let _ = &self.positions;
    }

    /// What the callers are to do.
    pub(crate) fn plan(&self) -> &Plan
        ensures { result.now ≡ self.now.plan }
    {
        &self.plan
    }

    /// The CPU of a caller, where there is one.
    pub(crate) fn cpu(&self, caller: usize) -> Option<CpuId>
        ensures { MatchOption result (callers self.now.plan ≤ caller) (λ cpu.
            (cpu ≡ caller) × (cpu < callers self.now.plan)) }
    {
        if caller < self.plan.callers() {
            Some(CpuId::numbered(caller))
        } else {
            None
        }
    }

    /// Who holds the lock of a CPU.
    pub(crate) fn holder(&self, cpu: CpuId) -> Option<CpuId>
        requires { cpu < callers self.now.plan }
        ensures { result ≡ counters.holder self.now.plan self.now.counters cpu }
    {
        self.holders[cpu.index()]
    }

    /// The step that a caller does next, with its operation.
    pub(crate) fn next(&self, cpu: CpuId) -> Option<Step>
        requires { cpu < callers self.now.plan }
        ensures step { result ≡ counters.step_next self.now.plan self.now.counters cpu }
        ensures sound { IfSome result (λ s. is_sound_step self.now.plan s ≡ true) }
    {
        self.plan.keeps();
        self.positions[cpu.index()].next
    }

    /// The least caller that isn't done.
    pub(crate) fn unfinished(&self) -> Option<usize>
        ensures { result ≡ counters.unfinished self.now.plan self.now.counters }
    {
        for caller in 0..self.plan().callers() {
            if self.next(CpuId::numbered(caller)).is_some() {
                return Some(caller);
            }
        }
        None
    }

    /// The least caller that may do its next step.
    pub(crate) fn ready(&self) -> Option<usize>
        ensures { result ≡ counters.ready self.now.plan self.now.counters }
    {
        for caller in 0..self.plan().callers() {
            if self.free_step(CpuId::numbered(caller)).is_ok() {
                return Some(caller);
            }
        }
        None
    }

    /// The step that a caller does next, where nothing refuses it.
    pub(crate) fn free_step(&self, cpu: CpuId) -> Result<Step, StepFault>
        requires { cpu < callers self.now.plan }
        ensures { counters.IsFreeStep self.now.plan self.now.counters cpu result }
    {
        let step = self.next(cpu).ok_or(StepFault::Done)?;
        match self.refused(step.micro) {
            Some(fault) => Err(fault),
            None => Ok(step),
        }
    }

    fn refused(&self, micro: Micro) -> Option<StepFault>
        requires { is_sound_micro self.now.plan micro ≡ true }
        ensures { result ≡ counters.refused self.now.plan self.now.counters micro }
    {
        match micro {
            Micro::Acquire(cpu) => self.holder(cpu).map(|holder| StepFault::Blocked {
                cpu,
                holder: holder.index(),
            }),
            _ => None,
        }
    }

    /// Counts a step of a caller that nothing refuses.
    pub(crate) fn advance(&mut self, cpu: CpuId, step: Step)
        requires step { counters.step_next self.old.plan self.old.counters cpu ≡ Some step }
        requires free { counters.refused self.old.plan self.old.counters step.micro ≡ None }
        ensures plan { self.new.plan ≡ self.old.plan }
        ensures counters { self.new.counters ≡ counters.counted self.old.counters cpu }
    {
        self.plan.keeps();
        note_locks(&mut self.holders, cpu, step.micro);
        self.plan
            .move_on(cpu, &mut self.positions[cpu.index()], step);
    }
}

fn free_locks(alloc: Global, cpus: usize) -> Result<Vec<Option<CpuId>>, AllocError>
    ensures { IfOk result (λ holders. holders.items ≡ replicate cpus None) }
{
    vec![in alloc; None; cpus]
}

/// Writes down who holds the locks after a step.
fn note_locks(holders: &mut [Option<CpuId>], caller: CpuId, micro: Micro)
    requires { locks.names_lock (length holders.old) micro ≡ true }
    ensures { holders.new ≡ locks.holders_after caller micro holders.old }
{
    match micro {
        Micro::Acquire(cpu) => holders[cpu.index()] = Some(caller),
        Micro::Release(cpu) => give_up(&mut holders[cpu.index()], caller),
        _ => {}
    }
}

fn give_up(holder: &mut Option<CpuId>, caller: CpuId)
    ensures { holder.new ≡ locks.given_up holder.old caller }
{
    if *holder == Some(caller) {
        *holder = None;
    }
}
