//! Bounds beside a queue, who runs there, what is charged, and how the virtual times of all become smaller.

ghost use Rattle.std.specs.Prelude.{◌≡◌, ◌↔◌, ℕ, ℤ, pos, true};
ghost use Rattle.std.specs.FinMap as map;
ghost use Rattle.std.specs.Borrow.{sem};
ghost use Rattle.eevdf_queue.specs.{State.State, Pick.IsPick, Sums.virtual_time};
ghost use Rattle.eevdf_queue.specs.Rebase as rebases;
ghost use Rattle.eevdf_fair_queue.specs.{declared.bounds.Bounds.Bounds, Fair.IsFair};
ghost use Rattle.eevdf_fair_queue.specs.Bounds as kept_bounds;
ghost use Rattle.eevdf_c.specs.Memory.{bounds_at, number_at, queue_at, room_for_bounds};
ghost use Rattle.eevdf_c.specs.Codes as answers;
ghost use Rattle.eevdf_c.specs.Errors.{KeepsOnError};
ghost use Rattle.eevdf_c.specs.Fair as fairs;
ghost use Rattle.eevdf_c.specs.Tick as ticks;
ghost use Rattle.eevdf_c.specs.Turns as turns;

use crate::calls;
use crate::fair_bounds::FairBounds;
use crate::opened::Opened;

/// Opens bounds in memory of the caller's, for a queue in which nothing is runnable. Takes no memory.
#[unsafe(no_mangle)]
pub unsafe extern "C" fn eevdf_fair_open(bounds: *mut u8)
    requires* { sem 𝓛 (room_for_bounds bounds) }
    ensures* opened { sem 𝓛 (bounds_at bounds kept_bounds.fresh) }
    ensures fair { (q : State) → q.runnable ≡ map.empty → IsFair q kept_bounds.fresh }
{
    (bounds as *mut FairBounds).write(FairBounds::open());
}

/// Lets the task run that `eevdf_pick` does, and its turn begin. Answers its number. `ABSENT`: nothing is runnable.
#[unsafe(no_mangle)]
pub unsafe extern "C" fn eevdf_fair_pick(bounds: *mut u8, queue: *mut u8) -> i64
    ghost g: { Bounds × State }
    requires* bounds { sem 𝓛 (bounds_at bounds g.0) }
    requires* queue { sem 𝓛 (queue_at queue g.1) }
    ensures* bounds { sem 𝓛 (bounds_at bounds (fairs.pick g.0 g.1)) }
    ensures* after { sem 𝓛 (queue_at queue (turns.pick g.1).1) }
    ensures answer { result ≡ (turns.pick g.1).0 }
    ensures picked { (t : ℕ) → result ≡ pos t → IsPick g.1.runnable t }
    ensures nobody { (result ≡ answers.absent) ↔ (g.1.runnable ≡ map.empty) }
    ensures fair { IsFair g.1 g.0 → IsFair (turns.pick g.1).1 (fairs.pick g.0 g.1) }
    ensures kept { KeepsOnError result g.1 (turns.pick g.1).1 }
    ensures steady { KeepsOnError result g.0 (fairs.pick g.0 g.1) }
{
    calls::fair_turns::pick(
        &mut *(bounds as *mut FairBounds),
        &mut *(queue as *mut Opened),
    )
}

/// Lets a task run as `eevdf_run` does. What it is charged is no turn then, and counts by where that leads. Answers 0. `INVALID`: no task
/// has the number; `ABSENT`: the task isn't runnable here.
#[unsafe(no_mangle)]
pub unsafe extern "C" fn eevdf_fair_run(bounds: *mut u8, queue: *mut u8, task: u64) -> i64
    ghost g: { Bounds × State }
    requires* bounds { sem 𝓛 (bounds_at bounds g.0) }
    requires* queue { sem 𝓛 (queue_at queue g.1) }
    ensures* bounds { sem 𝓛 (bounds_at bounds (fairs.run g.0 g.1 task)) }
    ensures* after { sem 𝓛 (queue_at queue (turns.run g.1 task).1) }
    ensures answer { result ≡ (turns.run g.1 task).0 }
    ensures fair { IsFair g.1 g.0 → IsFair (turns.run g.1 task).1 (fairs.run g.0 g.1 task) }
    ensures kept { KeepsOnError result g.1 (turns.run g.1 task).1 }
    ensures steady { KeepsOnError result g.0 (fairs.run g.0 g.1 task) }
{
    calls::fair_turns::run(
        &mut *(bounds as *mut FairBounds),
        &mut *(queue as *mut Opened),
        task,
    )
}

/// Charges the running task as `eevdf_tick` does. Answers 0, and 1 where it has used up its request: time to pick. `INVALID`: the time is
/// out of its range; `ABSENT`: nobody runs; `RANGE`: the runtime or deadline would leave the range.
#[unsafe(no_mangle)]
pub unsafe extern "C" fn eevdf_fair_tick(bounds: *mut u8, queue: *mut u8, ns: u64) -> i64
    ghost g: { Bounds × State }
    requires* bounds { sem 𝓛 (bounds_at bounds g.0) }
    requires* queue { sem 𝓛 (queue_at queue g.1) }
    ensures* bounds { sem 𝓛 (bounds_at bounds (fairs.tick g.0 g.1 ns)) }
    ensures* after { sem 𝓛 (queue_at queue (ticks.tick g.1 ns).1) }
    ensures answer { result ≡ (ticks.tick g.1 ns).0 }
    ensures fair { IsFair g.1 g.0 → IsFair (ticks.tick g.1 ns).1 (fairs.tick g.0 g.1 ns) }
    ensures kept { KeepsOnError result g.1 (ticks.tick g.1 ns).1 }
    ensures steady { KeepsOnError result g.0 (fairs.tick g.0 g.1 ns) }
{
    calls::fair_turns::tick(
        &mut *(bounds as *mut FairBounds),
        &mut *(queue as *mut Opened),
        ns,
    )
}

/// Lowers all virtual times as `eevdf_rebase` does, and the bounds with them; `by` gets the number. Answers 0.
#[unsafe(no_mangle)]
pub unsafe extern "C" fn eevdf_fair_rebase(bounds: *mut u8, queue: *mut u8, by: *mut i64) -> i64
    ghost g: { Bounds × (State × ℤ) }
    requires* bounds { sem 𝓛 (bounds_at bounds g.0) }
    requires* queue { sem 𝓛 (queue_at queue g.1.0) }
    requires* by { sem 𝓛 (number_at by g.1.1) }
    ensures* bounds { sem 𝓛 (bounds_at bounds (fairs.rebase g.0 g.1.0)) }
    ensures* after { sem 𝓛 (queue_at queue (rebases.rebase g.1.0).1) }
    ensures* told { sem 𝓛 (number_at by (rebases.rebase g.1.0).0) }
    ensures answer { result ≡ answers.done }
    ensures time { rebases.can_rebase g.1.0 ≡ true → virtual_time (rebases.rebase g.1.0).1 ≡ pos 0 }
    ensures fair { IsFair g.1.0 g.0 → IsFair (rebases.rebase g.1.0).1 (fairs.rebase g.0 g.1.0) }
{
    calls::fair_turns::rebase(
        &mut *(bounds as *mut FairBounds),
        &mut *(queue as *mut Opened),
        &mut *by,
    )
}
