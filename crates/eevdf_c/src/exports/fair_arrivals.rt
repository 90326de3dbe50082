//! How tasks come, wake and change in a queue with bounds beside it.

ghost use Rattle.std.specs.Prelude.{◌≡◌, Bool, Option};
ghost use Rattle.std.specs.Borrow.{sem};
ghost use Rattle.eevdf_queue.specs.State.{State, Contents};
ghost use Rattle.eevdf_fair_queue.specs.{declared.bounds.Bounds.Bounds, Fair.IsFair};
ghost use Rattle.eevdf_c.specs.Memory.{block_at, bounds_at, hand_at, queue_at};
ghost use Rattle.eevdf_c.specs.Errors.{KeepsOnError};
ghost use Rattle.eevdf_c.specs.Admit as admits;
ghost use Rattle.eevdf_c.specs.Attributes as attributes;
ghost use Rattle.eevdf_c.specs.Blocks as blocks;
ghost use Rattle.eevdf_c.specs.Fair as fairs;
ghost use Rattle.eevdf_c.specs.Hands as hands;
ghost use Rattle.eevdf_c.specs.Renice as renices;
ghost use Rattle.eevdf_c.specs.Wake as wakes;

use crate::calls;
use crate::fair_bounds::FairBounds;
use crate::given_block::GivenBlock;
use crate::hand::Hand;
use crate::opened::Opened;

/// Makes a task runnable as `eevdf_admit` does. Answers 0. `INVALID`: a number is out of its range; `PRESENT`: the task is here already;
/// `NO_MEMORY`; `RANGE`: its deadline would be out of range.
#[unsafe(no_mangle)]
pub unsafe extern "C" fn eevdf_fair_admit(
    bounds: *mut u8,
    queue: *mut u8,
    task: u64,
    nice: i64,
    slice_ns: u64,
    start: i64,
) -> i64
    ghost g: { Bounds × State }
    requires* bounds { sem 𝓛 (bounds_at bounds g.0) }
    requires* queue { sem 𝓛 (queue_at queue g.1) }
    ensures* bounds { sem 𝓛 (bounds_at bounds (fairs.settled g.0 g.1 task
        (result, admits.after_answer g.1 (admits.admit g.1 task nice slice_ns start) result))) }
    ensures* after { sem 𝓛 (queue_at queue
        (admits.after_answer g.1 (admits.admit g.1 task nice slice_ns start) result)) }
    ensures answer { admits.IsAnswer (admits.admit g.1 task nice slice_ns start).0 result }
    ensures fair { IsFair g.1 g.0
        → IsFair (admits.after_answer g.1 (admits.admit g.1 task nice slice_ns start) result)
        (fairs.settled g.0 g.1 task
        (result, admits.after_answer g.1 (admits.admit g.1 task nice slice_ns start) result)) }
    ensures kept { KeepsOnError result g.1
        (admits.after_answer g.1 (admits.admit g.1 task nice slice_ns start) result) }
    ensures steady { KeepsOnError result g.0 (fairs.settled g.0 g.1 task
        (result, admits.after_answer g.1 (admits.admit g.1 task nice slice_ns start) result)) }
{
    calls::fair_arrivals::admit(
        &mut *(bounds as *mut FairBounds),
        &mut *(queue as *mut Opened),
        task,
        nice,
        slice_ns,
        start,
    )
}

/// Makes a task runnable as `eevdf_admit_in` does, in the memory of `block`. Answers 0. `INVALID`: a number is out of its range; `PRESENT`:
/// the task is here already; `NO_MEMORY`: there is no block; `RANGE`: its deadline would be out of range.
#[unsafe(no_mangle)]
pub unsafe extern "C" fn eevdf_fair_admit_in(
    bounds: *mut u8,
    queue: *mut u8,
    block: *mut u8,
    task: u64,
    nice: i64,
    slice_ns: u64,
    start: i64,
) -> i64
    ghost g: { Bounds × (State × Bool) }
    requires* bounds { sem 𝓛 (bounds_at bounds g.0) }
    requires* queue { sem 𝓛 (queue_at queue g.1.0) }
    requires* block { sem 𝓛 (block_at block g.1.1) }
    ensures* bounds { sem 𝓛 (bounds_at bounds (fairs.settled g.0 g.1.0 task (
      (blocks.admit g.1.0 g.1.1 task nice slice_ns start).answer,
      (blocks.admit g.1.0 g.1.1 task nice slice_ns start).queue,
    ))) }
    ensures* after { sem 𝓛 (queue_at queue
        (blocks.admit g.1.0 g.1.1 task nice slice_ns start).queue) }
    ensures* left { sem 𝓛 (block_at block
        (blocks.admit g.1.0 g.1.1 task nice slice_ns start).block) }
    ensures answer { result ≡ (blocks.admit g.1.0 g.1.1 task nice slice_ns start).answer }
    ensures fair { IsFair g.1.0 g.0
        → IsFair (blocks.admit g.1.0 g.1.1 task nice slice_ns start).queue
        (fairs.settled g.0 g.1.0 task (
          (blocks.admit g.1.0 g.1.1 task nice slice_ns start).answer,
          (blocks.admit g.1.0 g.1.1 task nice slice_ns start).queue,
        )) }
    ensures kept { KeepsOnError result g.1.0
        (blocks.admit g.1.0 g.1.1 task nice slice_ns start).queue }
    ensures held { KeepsOnError result g.1.1
        (blocks.admit g.1.0 g.1.1 task nice slice_ns start).block }
    ensures steady { KeepsOnError result g.0 (fairs.settled g.0 g.1.0 task (
      (blocks.admit g.1.0 g.1.1 task nice slice_ns start).answer,
      (blocks.admit g.1.0 g.1.1 task nice slice_ns start).queue,
    )) }
{
    calls::fair_arrivals::admit_in(
        &mut *(bounds as *mut FairBounds),
        &mut *(queue as *mut Opened),
        &mut *(block as *mut GivenBlock),
        task,
        nice,
        slice_ns,
        start,
    )
}

/// The task of a hand becomes runnable as by `eevdf_put`. Answers 0, and the hand is empty. `ABSENT`: the hand is empty; `PRESENT`: the task
/// is here already; `RANGE`: its runtime or deadline would be out of range. On an error the hand keeps the task.
#[unsafe(no_mangle)]
pub unsafe extern "C" fn eevdf_fair_put(bounds: *mut u8, queue: *mut u8, hand: *mut u8) -> i64
    ghost g: { Bounds × (State × Option Contents) }
    requires* bounds { sem 𝓛 (bounds_at bounds g.0) }
    requires* queue { sem 𝓛 (queue_at queue g.1.0) }
    requires* hand { sem 𝓛 (hand_at hand g.1.1) }
    ensures* bounds { sem 𝓛 (bounds_at bounds (fairs.put g.0 g.1.0 g.1.1)) }
    ensures* queue { sem 𝓛 (queue_at queue (hands.put g.1.0 g.1.1).queue) }
    ensures* hand { sem 𝓛 (hand_at hand (hands.put g.1.0 g.1.1).hand) }
    ensures answer { result ≡ (hands.put g.1.0 g.1.1).answer }
    ensures fair { IsFair g.1.0 g.0
        → IsFair (hands.put g.1.0 g.1.1).queue (fairs.put g.0 g.1.0 g.1.1) }
    ensures kept { KeepsOnError result g.1.0 (hands.put g.1.0 g.1.1).queue }
    ensures held { KeepsOnError result g.1.1 (hands.put g.1.0 g.1.1).hand }
    ensures steady { KeepsOnError result g.0 (fairs.put g.0 g.1.0 g.1.1) }
{
    calls::fair_arrivals::put(
        &mut *(bounds as *mut FairBounds),
        &mut *(queue as *mut Opened),
        &mut *(hand as *mut Hand),
    )
}

/// Makes a task runnable that sleeps here, as `eevdf_wake` does. Answers 0. `INVALID`: no task has the number; `PRESENT`: it is runnable
/// here; `ABSENT`: it isn't here; `RANGE`: its runtime or deadline would be out of range, and it sleeps on.
#[unsafe(no_mangle)]
pub unsafe extern "C" fn eevdf_fair_wake(bounds: *mut u8, queue: *mut u8, task: u64) -> i64
    ghost g: { Bounds × State }
    requires* bounds { sem 𝓛 (bounds_at bounds g.0) }
    requires* queue { sem 𝓛 (queue_at queue g.1) }
    ensures* bounds { sem 𝓛 (bounds_at bounds (fairs.settled g.0 g.1 task (wakes.wake g.1 task))) }
    ensures* after { sem 𝓛 (queue_at queue (wakes.wake g.1 task).1) }
    ensures answer { result ≡ (wakes.wake g.1 task).0 }
    ensures fair { IsFair g.1 g.0
        → IsFair (wakes.wake g.1 task).1 (fairs.settled g.0 g.1 task (wakes.wake g.1 task)) }
    ensures kept { KeepsOnError result g.1 (wakes.wake g.1 task).1 }
    ensures steady { KeepsOnError result g.0 (fairs.settled g.0 g.1 task (wakes.wake g.1 task)) }
{
    calls::fair_arrivals::wake(
        &mut *(bounds as *mut FairBounds),
        &mut *(queue as *mut Opened),
        task,
    )
}

/// Gives a runnable task another nice level as `eevdf_renice` does. Answers 0. `INVALID`: a number is out of its range; `ABSENT`: the task
/// isn't runnable here; `RANGE`: its runtime or deadline would be out of range, and it keeps its level.
#[unsafe(no_mangle)]
pub unsafe extern "C" fn eevdf_fair_renice(
    bounds: *mut u8,
    queue: *mut u8,
    task: u64,
    nice: i64,
) -> i64
    ghost g: { Bounds × State }
    requires* bounds { sem 𝓛 (bounds_at bounds g.0) }
    requires* queue { sem 𝓛 (queue_at queue g.1) }
    ensures* bounds { sem 𝓛 (bounds_at bounds
        (fairs.settled g.0 g.1 task (renices.renice g.1 task nice))) }
    ensures* after { sem 𝓛 (queue_at queue (renices.renice g.1 task nice).1) }
    ensures answer { result ≡ (renices.renice g.1 task nice).0 }
    ensures fair { IsFair g.1 g.0 → IsFair (renices.renice g.1 task nice).1
        (fairs.settled g.0 g.1 task (renices.renice g.1 task nice)) }
    ensures kept { KeepsOnError result g.1 (renices.renice g.1 task nice).1 }
    ensures steady { KeepsOnError result g.0
        (fairs.settled g.0 g.1 task (renices.renice g.1 task nice)) }
{
    calls::fair_arrivals::renice(
        &mut *(bounds as *mut FairBounds),
        &mut *(queue as *mut Opened),
        task,
        nice,
    )
}

/// Gives a task another nice level and slice as `eevdf_set` does. Answers 0. `INVALID`: a number is out of its range; `ABSENT`: the task
/// isn't here; `RANGE`: a runnable one's runtime or deadline would be out of range, and it keeps its level and its slice.
#[unsafe(no_mangle)]
pub unsafe extern "C" fn eevdf_fair_set(
    bounds: *mut u8,
    queue: *mut u8,
    task: u64,
    nice: i64,
    slice_ns: u64,
) -> i64
    ghost g: { Bounds × State }
    requires* bounds { sem 𝓛 (bounds_at bounds g.0) }
    requires* queue { sem 𝓛 (queue_at queue g.1) }
    ensures* bounds { sem 𝓛 (bounds_at bounds
        (fairs.settled g.0 g.1 task (attributes.set g.1 task nice slice_ns))) }
    ensures* after { sem 𝓛 (queue_at queue (attributes.set g.1 task nice slice_ns).1) }
    ensures answer { result ≡ (attributes.set g.1 task nice slice_ns).0 }
    ensures fair { IsFair g.1 g.0 → IsFair (attributes.set g.1 task nice slice_ns).1
        (fairs.settled g.0 g.1 task (attributes.set g.1 task nice slice_ns)) }
    ensures kept { KeepsOnError result g.1 (attributes.set g.1 task nice slice_ns).1 }
    ensures steady { KeepsOnError result g.0
        (fairs.settled g.0 g.1 task (attributes.set g.1 task nice slice_ns)) }
{
    calls::fair_arrivals::set(
        &mut *(bounds as *mut FairBounds),
        &mut *(queue as *mut Opened),
        task,
        nice,
        slice_ns,
    )
}
