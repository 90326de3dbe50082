//! How late a request can be.

ghost use Rattle.std.specs.Prelude.{◌≡◌, ℤ, unsigned_abs};
ghost use Rattle.std.specs.Borrow.{sem};
ghost use Rattle.eevdf_queue.specs.State.{State};
ghost use Rattle.eevdf_fair_queue.specs.{declared.bounds.Bounds.Bounds, Fair.IsFair};
ghost use Rattle.eevdf_fair_queue.specs.InTime.{NoneIsLaterInTime};
ghost use Rattle.eevdf_fair_queue.specs.Lateness.{IsLateBy, NoneIsLaterThan};
ghost use Rattle.eevdf_fair_queue.specs.Lateness as latenesses;
ghost use Rattle.eevdf_c.specs.Memory.{bounds_at, number_at, queue_at};
ghost use Rattle.eevdf_c.specs.Codes as answers;
ghost use Rattle.eevdf_c.specs.Errors.{KeepsOnError};
ghost use Rattle.eevdf_c.specs.Fair as fairs;
ghost use Rattle.eevdf_c.specs.LatenessInTime as in_time;

use crate::calls;
use crate::fair_bounds::FairBounds;
use crate::opened::Opened;

/// By how much the virtual time can be past the deadline of any runnable task, at most: in virtual time. 0 where nothing is runnable.
#[unsafe(no_mangle)]
pub unsafe extern "C" fn eevdf_fair_lateness_bound(bounds: *const u8, queue: *const u8) -> i64
    ghost g: { Bounds × State }
    requires* bounds { sem 𝓛 (bounds_at bounds g.0) }
    requires* queue { sem 𝓛 (queue_at queue g.1) }
    ensures* bounds { sem 𝓛 (bounds_at bounds g.0) }
    ensures* after { sem 𝓛 (queue_at queue g.1) }
    ensures answer { result ≡ latenesses.lateness_bound g.1 g.0 }
    ensures late { IsFair g.1 g.0 → NoneIsLaterThan g.1 result }
{
    calls::lateness::lateness_bound(&*(bounds as *const FairBounds), &*(queue as *const Opened))
}

/// By how many nanoseconds any request that is due can be late, at most, rounded up, which `ns` gets. Answers 0. `RANGE`: the number is 2^63 or
/// more.
#[unsafe(no_mangle)]
pub unsafe extern "C" fn eevdf_fair_lateness_bound_in_time(
    bounds: *const u8,
    queue: *const u8,
    ns: *mut i64,
) -> i64
    ghost g: { Bounds × (State × ℤ) }
    requires* bounds { sem 𝓛 (bounds_at bounds g.0) }
    requires* queue { sem 𝓛 (queue_at queue g.1.0) }
    requires* ns { sem 𝓛 (number_at ns g.1.1) }
    ensures* bounds { sem 𝓛 (bounds_at bounds g.0) }
    ensures* after { sem 𝓛 (queue_at queue g.1.0) }
    ensures* told { sem 𝓛 (number_at ns (in_time.told g.0 g.1.0 g.1.1)) }
    ensures answer { result ≡ in_time.answer g.0 g.1.0 }
    ensures late { result ≡ answers.done → IsFair g.1.0 g.0
        → NoneIsLaterInTime g.1.0 (unsigned_abs (in_time.told g.0 g.1.0 g.1.1)) }
    ensures kept { KeepsOnError result g.1.1 (in_time.told g.0 g.1.0 g.1.1) }
{
    calls::lateness::lateness_bound_in_time(
        &*(bounds as *const FairBounds),
        &*(queue as *const Opened),
        &mut *ns,
    )
}

/// By how much the virtual time can be past the deadline of a task, at most, which `by` gets: in virtual time. Answers 0. `INVALID`: no task
/// has the number; `ABSENT`: the task isn't runnable here.
#[unsafe(no_mangle)]
pub unsafe extern "C" fn eevdf_fair_lateness_bound_of(
    bounds: *const u8,
    queue: *const u8,
    task: u64,
    by: *mut i64,
) -> i64
    ghost g: { Bounds × (State × ℤ) }
    requires* bounds { sem 𝓛 (bounds_at bounds g.0) }
    requires* queue { sem 𝓛 (queue_at queue g.1.0) }
    requires* by { sem 𝓛 (number_at by g.1.1) }
    ensures* bounds { sem 𝓛 (bounds_at bounds g.0) }
    ensures* after { sem 𝓛 (queue_at queue g.1.0) }
    ensures* told { sem 𝓛 (number_at by (fairs.told_lateness g.0 g.1.0 g.1.1 task)) }
    ensures answer { result ≡ fairs.lateness g.1.0 task }
    ensures late { result ≡ answers.done → IsFair g.1.0 g.0
        → IsLateBy g.1.0 task (fairs.told_lateness g.0 g.1.0 g.1.1 task) }
    ensures kept { KeepsOnError result g.1.1 (fairs.told_lateness g.0 g.1.0 g.1.1 task) }
{
    calls::lateness::lateness_bound_of(
        &*(bounds as *const FairBounds),
        &*(queue as *const Opened),
        task,
        &mut *by,
    )
}
