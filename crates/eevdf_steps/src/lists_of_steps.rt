//! The micro-steps of operations by their places.

ghost use Rattle.std.specs.Prelude.{◌≡◌, ◌*◌, ◌<◌, ◌≤◌, min, max, slice_get};
ghost use Rattle.eevdf_ops.specs.Numbers.{most_cpus};
ghost use Rattle.eevdf_steps.specs.MicroSteps as steps;

use crate::micro::Micro;
use eevdf_ops::CpuId;

/// The micro-steps of a deed on the caller's own queue.
pub(crate) fn act_step(cpu: CpuId, at: usize) -> Option<Micro>
    ensures { result ≡ slice_get (steps.under_lock cpu steps.acting) at }
{
    match at {
        0 => Some(Micro::Acquire(cpu)),
        1 => Some(Micro::Act),
        2 => Some(Micro::Commit),
        3 => Some(Micro::Release(cpu)),
        _ => None,
    }
}

/// The micro-steps of a task that goes to sleep.
pub(crate) fn sleep_step(cpu: CpuId, home: CpuId, at: usize) -> Option<Micro>
    ensures { result ≡ slice_get (steps.sleeping cpu home) at }
{
    if cpu.get() == home.get() {
        move_step(cpu, at)
    } else {
        move_between_step(cpu, home, at)
    }
}

/// The micro-steps of a task's move on one queue.
fn move_step(cpu: CpuId, at: usize) -> Option<Micro>
    ensures { result ≡ slice_get (steps.under_lock cpu steps.moving) at }
{
    match at {
        0 => Some(Micro::Acquire(cpu)),
        1 => Some(Micro::Detach),
        2 => Some(Micro::Attach),
        3 => Some(Micro::Commit),
        4 => Some(Micro::Release(cpu)),
        _ => None,
    }
}

/// The micro-steps of a task's move between two queues.
pub(crate) fn move_between_step(a: CpuId, b: CpuId, at: usize) -> Option<Micro>
    ensures { result ≡ slice_get (steps.under_locks a b steps.moving) at }
{
    match at {
        0 => Some(Micro::Acquire(lesser(a, b))),
        1 => Some(Micro::Acquire(greater(a, b))),
        2 => Some(Micro::Detach),
        3 => Some(Micro::Attach),
        4 => Some(Micro::Commit),
        5 => Some(Micro::Release(greater(a, b))),
        6 => Some(Micro::Release(lesser(a, b))),
        _ => None,
    }
}

fn lesser(a: CpuId, b: CpuId) -> CpuId
    ensures { result ≡ min a b }
{
    if a.get() <= b.get() { a } else { b }
}

fn greater(a: CpuId, b: CpuId) -> CpuId
    ensures { result ≡ max a b }
{
    if a.get() <= b.get() { b } else { a }
}

/// The micro-steps of a drain: the senders come in order, and each has two.
pub(crate) fn drain_step(cpus: usize, cpu: CpuId, at: usize) -> Option<Micro>
    requires { cpus ≤ most_cpus }
    ensures { result ≡ slice_get (steps.under_lock cpu (steps.draining cpus 0)) at }
{
    if at == 0 {
        return Some(Micro::Acquire(cpu));
    }
    let sender = (at - 1) / 2;
    if sender >= cpus {
        return drained_step(cpus, cpu, at);
    }
    let sender = CpuId::numbered(sender);
    if at % 2 == 1 {
        Some(Micro::Take(sender))
    } else {
        Some(Micro::Settle(sender))
    }
}

/// The micro-steps of a drain that has come to the end of the senders.
fn drained_step(cpus: usize, cpu: CpuId, at: usize) -> Option<Micro>
    requires few { cpus ≤ most_cpus }
    requires past { 2 * cpus < at }
    ensures { result ≡ slice_get (steps.under_lock cpu (steps.draining cpus 0)) at }
{
    if at == 2 * cpus + 1 {
        Some(Micro::Release(cpu))
    } else {
        None
    }
}
