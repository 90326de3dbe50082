//! A deed, parted into its CPU and what it does.

ghost use Rattle.std.specs.Prelude.{◌≡◌, ℕ, true};
ghost use Rattle.eevdf_ops.specs.Acts.{act_from, act_of, doze_from, end_from, sleep_from};
ghost use Rattle.eevdf_ops.specs.{Origins.decider, Setup.has_named, Setup.is_allowed, Setup.named};
ghost use Rattle.eevdf_ops.specs.declared.origin.Origin.TheVariants.{Operation};

use crate::acts::{Act, LocalAct, Transfer};
use crate::cpu_id::CpuId;
use crate::deeds::{Deed, Op};
use crate::homes::Homes;
use crate::origin::Origin;
use eevdf_queue::TaskId;

/// The CPU that does a deed, and what it does, where tasks have these homes. The act is done by `LocalAct::apply` or
/// `Transfer::apply`.
#[inline(always)]
pub fn parted(homes: &[CpuId], deed: Deed) -> (CpuId, Act)
    requires { (cpus : ℕ) × (is_allowed cpus homes.now deed ≡ true) }
    ensures cpu { result.0 ≡ decider deed }
    ensures act { result.1 ≡ act_of homes.now deed }
{
    let (cpu, origin) = deed.parts();
    let act = match origin {
        Origin::Operation(operation) => act_by(homes, cpu, operation),
        Origin::Request { task, sender } => Act::Local(LocalAct::Wake { task, sender }),
    };
    (cpu, act)
}

/// What an operation of a CPU does. Neither a post nor a drain comes here: no deed comes of them.
#[inline(always)]
fn act_by(homes: &[CpuId], cpu: CpuId, operation: Op) -> Act
    requires { (cpus : ℕ) × (has_named cpus homes.now cpu (named operation) ≡ true) }
    ensures { result ≡ act_from homes.now cpu (Operation operation) }
{
    match operation {
        Op::Sleep(task) => sleep_from(cpu, task, Homes::Alone(homes).home(task)),
        Op::Doze(task) => doze_from(cpu, task, Homes::Alone(homes).home(task)),
        Op::End(task) => end_from(cpu, task, Homes::Alone(homes).home(task)),
        Op::Pull(source) => Act::Transfer(source, Transfer::Pull),
        _ => Act::Local(operation.local().unwrap_or(LocalAct::Pick)),
    }
}

/// A sleep on a CPU of a task with this home.
#[inline(always)]
fn sleep_from(cpu: CpuId, task: TaskId, home: CpuId) -> Act
    ensures { result ≡ sleep_from cpu task home }
{
    if home.get() == cpu.get() {
        Act::Local(LocalAct::Sleep(task))
    } else {
        Act::Transfer(home, Transfer::Sleep(task))
    }
}

/// A doze on a CPU of a task with this home. Away from there it is a sleep.
#[inline(always)]
fn doze_from(cpu: CpuId, task: TaskId, home: CpuId) -> Act
    ensures { result ≡ doze_from cpu task home }
{
    if home.get() == cpu.get() {
        Act::Local(LocalAct::Doze(task))
    } else {
        Act::Transfer(home, Transfer::Sleep(task))
    }
}

/// An end on a CPU of a task with this home.
#[inline(always)]
fn end_from(cpu: CpuId, task: TaskId, home: CpuId) -> Act
    ensures { result ≡ end_from cpu task home }
{
    if home.get() == cpu.get() {
        Act::Local(LocalAct::End(task))
    } else {
        Act::Transfer(home, Transfer::End(task))
    }
}
