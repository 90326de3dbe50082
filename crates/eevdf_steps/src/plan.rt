//! What the callers are to do.

ghost use Rattle.std.specs.Prelude.{◌≡◌, ◌+◌, ◌*◌, ◌<◌, ◌^◌, ◌≤◌, Some, true, length, slice_get, take};
ghost use Rattle.std.specs.Prelude.{IfOk, IfSome};
ghost use Rattle.std.specs.Option.{option_map};
ghost use Rattle.eevdf_ops.specs.Numbers.{most_cpus, most_operations};
ghost use Rattle.eevdf_steps.specs.{Callers.BeginAll, MicroSteps.micros_of};
ghost use Rattle.eevdf_steps.specs.{MicroSteps.steps_of};
ghost use Rattle.eevdf_steps.specs.{Positions.IsPosition, Positions.counter_at};
ghost use Rattle.eevdf_steps.specs.Plan.{IsSound, callers, home, is_sound_op, pair, plan_of};
ghost use Rattle.eevdf_steps.specs.Plan.{program};

use crate::lists_of_steps::{act_step, drain_step, move_between_step, sleep_step};
use crate::micro::Micro;
use eevdf_ops::{CpuId, Op, Setup};
use eevdf_queue::TaskId;
use std::alloc::{AllocError, Global};
use std::marker::Model;

/// A micro-step with the operation that it is a part of.
#[derive(Clone, Copy, Debug)]
pub(crate) struct Step {
    pub(crate) op: Op,
    pub(crate) micro: Micro,
}

/// The micro-step alone.
pub(crate) fn micro_of(step: Option<Step>) -> Option<Micro>
    ensures { result ≡ option_map (λ (s : _). s.micro) step }
{
    match step {
        None => None,
        Some(step) => Some(step.micro),
    }
}

/// Where a caller stands in its program: at an operation, of which so many steps are done, with the step that it does next.
#[derive(Clone, Copy, Debug)]
pub(crate) struct Position {
    pub(crate) operation: usize,
    pub(crate) steps: usize,
    pub(crate) next: Option<Step>,
}

impl Position {
    /// Goes on with this micro-step of the operation that it is at.
    fn go_on(&mut self, micro: Micro)
        requires { self.old.steps + 1 < 2 ^ 64 }
        ensures operation { self.new.operation ≡ self.old.operation }
        ensures steps { self.new.steps ≡ self.old.steps + 1 }
        ensures next { self.new.next
            ≡ option_map (λ (s : _). record { op = s.op; micro = micro }) self.old.next }
    {
        self.steps += 1;
        if let Some(next) = &mut self.next {
            next.micro = micro;
        }
    }
}

/// What the callers of a setup are to do, with the setup itself.
#[derive(Drop)]
pub(crate) struct Plan {
    setup: Setup,
}

impl Model for Plan {
    ghost use Rattle.std.specs.Coded.{codes};
    ghost use Rattle.eevdf_queue.specs.Codes.{state_code};
    ghost use Rattle.eevdf_steps.specs.Plan as plan;

    ghost Value = { plan.Plan };

    ghost coded = { Prim.hlevel (codes, state_code) };

    ghost view = { λ p. plan.plan_of p.setup };

    ghost invariant = { λ p. plan.IsSound (plan.plan_of p.setup) };
}

impl Plan {
    /// The plan of a setup, copied.
    pub(crate) fn make(alloc: Global, setup: &Setup) -> Result<Plan, AllocError>
        ensures { IfOk result (λ p. p ≡ plan_of setup.now) }
    {
        let _cpus = setup.cpus();
        let setup = setup.try_clone(alloc)?;
        Ok(Plan { setup })
    }

    /// Learns what every plan keeps.
    pub(crate) fn keeps(&self)
        ensures { IsSound self.now }
    {
        let _ = &self.setup;
    }

    /// The number of callers, one for each CPU.
    pub(crate) fn callers(&self) -> usize
        ensures callers { result ≡ callers self.now }
        ensures few { result ≤ most_cpus }
    {
        self.setup.cpus()
    }

    /// A caller's program, of at most [`Setup::MOST_OPERATIONS`] operations.
    pub(crate) fn program(&self, cpu: CpuId) -> &[Op]
        requires { cpu < callers self.now }
        ensures program { result.now ≡ program self.now cpu }
        ensures few { length result.now ≤ most_operations }
    {
        self.setup.program(cpu)
    }

    /// The number of tasks.
    pub(crate) fn tasks(&self) -> usize
        ensures { result ≡ length self.now.homes }
    {
        self.setup.tasks()
    }

    /// The CPU at which a task sleeps.
    pub(crate) fn home(&self, task: TaskId) -> CpuId
        requires { task < length self.now.homes }
        ensures home { result ≡ home self.now task }
        ensures below { result < callers self.now }
    {
        self.setup.spec(task).home
    }

    /// The place of the list of requests from a sender to a home.
    pub(crate) fn pair(&self, sender: CpuId, home: CpuId) -> usize
        requires sender { sender < callers self.now }
        requires home { home < callers self.now }
        ensures place { result ≡ pair self.now sender home }
        ensures below { result < callers self.now * callers self.now }
    {
        sender.index() * self.callers() + home.index()
    }

    /// The operation at a place of a caller's program.
    fn operation(&self, cpu: CpuId, at: usize) -> Option<Op>
        requires { cpu < callers self.now }
        ensures op { result ≡ slice_get (program self.now cpu) at }
        ensures sound { IfSome result (λ o. is_sound_op self.now o ≡ true) }
    {
        self.keeps();
        self.program(cpu).get(at).copied()
    }

    /// The micro-step of an operation at a place of its list.
    fn micro_at(&self, cpu: CpuId, op: Op, at: usize) -> Option<Micro>
        requires { is_sound_op self.now op ≡ true }
        ensures { result ≡ slice_get (micros_of self.now cpu op) at }
    {
        match op {
            Op::Sleep(task) | Op::Doze(task) | Op::End(task) => sleep_step(
                cpu,
                self.home(task),
                at,
            ),
            Op::Pull(source) => move_between_step(cpu, source, at),
            Op::Drain => drain_step(self.callers(), cpu, at),
            Op::Post(task) => {
                if at == 0 {
                    Some(Micro::Post(task))
                } else {
                    None
                }
            }
            _ => act_step(cpu, at),
        }
    }

    /// The positions of the callers, none of whom has done a step.
    pub(crate) fn first_positions(&self, alloc: Global) -> Result<Vec<Position>, AllocError>
        ensures { IfOk result (λ ps. BeginAll self.now (callers self.now) ps.items) }
    {
        // the checker looks for the types that a position holds among those of the locals
        let _held: (Option<Op>, Option<Micro>, Option<Step>) = (None, None, None);
        let mut positions = Vec::with_capacity(alloc, self.callers())?;
        for caller in 0..self.callers() {
            positions.push(self.begin(CpuId::numbered(caller), 0))?;
        }
        Ok(positions)
    }

    /// The position of a caller that begins with an operation.
    fn begin(&self, cpu: CpuId, operation: usize) -> Position
        requires { cpu < callers self.now }
        ensures position { IsPosition self.now cpu result }
        ensures counter { counter_at self.now cpu result
            ≡ length (steps_of self.now cpu (take operation (program self.now cpu))) }
    {
        self.keeps();
        match self.operation(cpu, operation) {
            None => Position {
                operation,
                steps: 0,
                next: None,
            },
            Some(op) => Position {
                operation,
                steps: 0,
                next: self.step_of(cpu, op, 0),
            },
        }
    }

    fn step_of(&self, cpu: CpuId, op: Op, at: usize) -> Option<Step>
        requires { is_sound_op self.now op ≡ true }
        ensures { result ≡ option_map (λ (m : _). record { op = op; micro = m })
            (slice_get (micros_of self.now cpu op) at) }
    {
        self.micro_at(cpu, op, at).map(|micro| Step { op, micro })
    }

    /// Moves a caller on that has done its next step.
    pub(crate) fn move_on(&self, cpu: CpuId, at: &mut Position, step: Step)
        requires caller { cpu < callers self.now }
        requires position { IsPosition self.now cpu at.old }
        requires step { at.old.next ≡ Some step }
        ensures position { IsPosition self.now cpu at.new }
        ensures counter { counter_at self.now cpu at.new ≡ counter_at self.now cpu at.old + 1 }
    {
        self.keeps();
        match self.micro_at(cpu, step.op, at.steps + 1) {
            None => *at = self.begin(cpu, at.operation + 1),
            Some(micro) => at.go_on(micro),
        }
    }
}
