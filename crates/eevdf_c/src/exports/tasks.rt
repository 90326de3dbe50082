//! How tasks come, go, sleep, wake and change, and how the virtual times of all become smaller.

ghost use Rattle.std.specs.Prelude.{◌≡◌, ℤ, pos, true};
ghost use Rattle.std.specs.Borrow.{sem};
ghost use Rattle.eevdf_queue.specs.{State.State, Sums.virtual_time};
ghost use Rattle.eevdf_queue.specs.Rebase as rebases;
ghost use Rattle.eevdf_c.specs.Memory.{number_at, queue_at};
ghost use Rattle.eevdf_c.specs.Codes as answers;
ghost use Rattle.eevdf_c.specs.Errors.{KeepsOnError};
ghost use Rattle.eevdf_c.specs.Admit as admits;
ghost use Rattle.eevdf_c.specs.Attributes as attributes;
ghost use Rattle.eevdf_c.specs.Leaving as leaving;
ghost use Rattle.eevdf_c.specs.Renice as renices;
ghost use Rattle.eevdf_c.specs.SetSlice as slices;
ghost use Rattle.eevdf_c.specs.Wake as wakes;

use crate::calls;
use crate::opened::Opened;

/// Makes a task runnable that starts at a virtual runtime, with a fresh request. Answers 0. `INVALID`: a number is out of its
/// range; `PRESENT`: the task is here already; `NO_MEMORY`; `RANGE`: its deadline would be out of range.
#[unsafe(no_mangle)]
pub unsafe extern "C" fn eevdf_admit(
    queue: *mut u8,
    task: u64,
    nice: i64,
    slice_ns: u64,
    start: i64,
) -> i64
    ghost q: { State }
    requires* { sem 𝓛 (queue_at queue q) }
    ensures* after { sem 𝓛 (queue_at queue
        (admits.after_answer q (admits.admit q task nice slice_ns start) result)) }
    ensures answer { admits.IsAnswer (admits.admit q task nice slice_ns start).0 result }
    ensures kept { KeepsOnError result q
        (admits.after_answer q (admits.admit q task nice slice_ns start) result) }
{
    calls::coming::admit(&mut *(queue as *mut Opened), task, nice, slice_ns, start)
}

/// The running task falls asleep, with the lag that it keeps. Answers 0. `INVALID`: no task has the number; `ABSENT`: it doesn't
/// run here.
#[unsafe(no_mangle)]
pub unsafe extern "C" fn eevdf_sleep(queue: *mut u8, task: u64) -> i64
    ghost q: { State }
    requires* { sem 𝓛 (queue_at queue q) }
    ensures* after { sem 𝓛 (queue_at queue (leaving.sleep q task).1) }
    ensures answer { result ≡ (leaving.sleep q task).0 }
    ensures kept { KeepsOnError result q (leaving.sleep q task).1 }
{
    calls::leaving::sleep(&mut *(queue as *mut Opened), task)
}

/// The running task falls asleep: it keeps of its lag what it is owed, and is held to the virtual runtime at which it leaves. `lag` gets
/// the lag with which it leaves. Answers 0. `INVALID`: no task has the number; `ABSENT`: it doesn't run here.
#[unsafe(no_mangle)]
pub unsafe extern "C" fn eevdf_doze(queue: *mut u8, task: u64, lag: *mut i64) -> i64
    ghost g: { State × ℤ }
    requires* queue { sem 𝓛 (queue_at queue g.0) }
    requires* lag { sem 𝓛 (number_at lag g.1) }
    ensures* after { sem 𝓛 (queue_at queue (leaving.doze g.0 task).1) }
    ensures* told { sem 𝓛 (number_at lag (leaving.told_doze g.0 g.1 task)) }
    ensures answer { result ≡ (leaving.doze g.0 task).0 }
    ensures kept { KeepsOnError result g.0 (leaving.doze g.0 task).1 }
    ensures held { KeepsOnError result g.1 (leaving.told_doze g.0 g.1 task) }
{
    calls::leaving::doze(&mut *(queue as *mut Opened), task, &mut *lag)
}

/// Makes a task runnable that sleeps here, with the lag that it kept, and where it dozes no earlier than its place. Answers 0. `INVALID`:
/// no task has the number; `PRESENT`: it is runnable here; `ABSENT`: it isn't here; `RANGE`: its runtime or deadline would be out of
/// range, and it sleeps on.
#[unsafe(no_mangle)]
pub unsafe extern "C" fn eevdf_wake(queue: *mut u8, task: u64) -> i64
    ghost q: { State }
    requires* { sem 𝓛 (queue_at queue q) }
    ensures* after { sem 𝓛 (queue_at queue (wakes.wake q task).1) }
    ensures answer { result ≡ (wakes.wake q task).0 }
    ensures kept { KeepsOnError result q (wakes.wake q task).1 }
{
    calls::changing::wake(&mut *(queue as *mut Opened), task)
}

/// A task ends, runnable or asleep, and its memory is given back. Answers 0. `INVALID`: no task has the number; `ABSENT`: it
/// isn't here.
#[unsafe(no_mangle)]
pub unsafe extern "C" fn eevdf_end(queue: *mut u8, task: u64) -> i64
    ghost q: { State }
    requires* { sem 𝓛 (queue_at queue q) }
    ensures* after { sem 𝓛 (queue_at queue (leaving.end q task).1) }
    ensures answer { result ≡ (leaving.end q task).0 }
    ensures kept { KeepsOnError result q (leaving.end q task).1 }
{
    calls::leaving::end(&mut *(queue as *mut Opened), task)
}

/// Gives a runnable task another nice level. Answers 0. `INVALID`: a number is out of its range; `ABSENT`: the task isn't runnable
/// here; `RANGE`: its runtime or deadline would be out of range, and it keeps its level.
#[unsafe(no_mangle)]
pub unsafe extern "C" fn eevdf_renice(queue: *mut u8, task: u64, nice: i64) -> i64
    ghost q: { State }
    requires* { sem 𝓛 (queue_at queue q) }
    ensures* after { sem 𝓛 (queue_at queue (renices.renice q task nice).1) }
    ensures answer { result ≡ (renices.renice q task nice).0 }
    ensures kept { KeepsOnError result q (renices.renice q task nice).1 }
{
    calls::changing::renice(&mut *(queue as *mut Opened), task, nice)
}

/// Gives a task another slice, runnable or asleep: the request that stands keeps its deadline, and the lag that a sleeping task keeps is
/// cut to its new limit. Answers 0. `INVALID`: no task has the number, or the slice is out of its range; `ABSENT`: the task isn't here.
#[unsafe(no_mangle)]
pub unsafe extern "C" fn eevdf_set_slice(queue: *mut u8, task: u64, slice_ns: u64) -> i64
    ghost q: { State }
    requires* { sem 𝓛 (queue_at queue q) }
    ensures* after { sem 𝓛 (queue_at queue (slices.set_slice q task slice_ns).1) }
    ensures answer { result ≡ (slices.set_slice q task slice_ns).0 }
    ensures kept { KeepsOnError result q (slices.set_slice q task slice_ns).1 }
{
    calls::changing::set_slice(&mut *(queue as *mut Opened), task, slice_ns)
}

/// Gives a task another nice level and slice, runnable or asleep. A runnable one's next request is of the new slice; the lag that a
/// sleeping one keeps is rescaled by its weights, and cut to its new limit. Answers 0. `INVALID`: a number is out of its range; `ABSENT`:
/// the task isn't here; `RANGE`: a runnable one's runtime or deadline would be out of range, and it keeps its level and its slice.
#[unsafe(no_mangle)]
pub unsafe extern "C" fn eevdf_set(queue: *mut u8, task: u64, nice: i64, slice_ns: u64) -> i64
    ghost q: { State }
    requires* { sem 𝓛 (queue_at queue q) }
    ensures* after { sem 𝓛 (queue_at queue (attributes.set q task nice slice_ns).1) }
    ensures answer { result ≡ (attributes.set q task nice slice_ns).0 }
    ensures kept { KeepsOnError result q (attributes.set q task nice slice_ns).1 }
{
    calls::changing::set(&mut *(queue as *mut Opened), task, nice, slice_ns)
}

/// A task that sleeps here begins anew: it sleeps on with this nice level and slice, and the lag 0. Answers 0. `INVALID`: a number is
/// out of its range; `PRESENT`: the task is runnable here; `ABSENT`: it isn't here.
#[unsafe(no_mangle)]
pub unsafe extern "C" fn eevdf_begin(queue: *mut u8, task: u64, nice: i64, slice_ns: u64) -> i64
    ghost q: { State }
    requires* { sem 𝓛 (queue_at queue q) }
    ensures* after { sem 𝓛 (queue_at queue (attributes.begin q task nice slice_ns).1) }
    ensures answer { result ≡ (attributes.begin q task nice slice_ns).0 }
    ensures kept { KeepsOnError result q (attributes.begin q task nice slice_ns).1 }
{
    calls::changing::begin(&mut *(queue as *mut Opened), task, nice, slice_ns)
}

/// Lowers all virtual times by one number, which `by` gets, so that the virtual time is 0. Where one of them would leave its range all
/// stays as it is, and `by` gets 0. Answers 0.
#[unsafe(no_mangle)]
pub unsafe extern "C" fn eevdf_rebase(queue: *mut u8, by: *mut i64) -> i64
    ghost g: { State × ℤ }
    requires* queue { sem 𝓛 (queue_at queue g.0) }
    requires* by { sem 𝓛 (number_at by g.1) }
    ensures* after { sem 𝓛 (queue_at queue (rebases.rebase g.0).1) }
    ensures* told { sem 𝓛 (number_at by (rebases.rebase g.0).0) }
    ensures answer { result ≡ answers.done }
    ensures time { rebases.can_rebase g.0 ≡ true → virtual_time (rebases.rebase g.0).1 ≡ pos 0 }
{
    calls::changing::rebase(&mut *(queue as *mut Opened), &mut *by)
}
