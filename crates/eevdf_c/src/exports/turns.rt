//! Who runs.

ghost use Rattle.std.specs.Prelude.{◌≡◌, ◌<ℤ◌, ◌↔◌, ℕ, pos, Some, None};
ghost use Rattle.std.specs.FinMap as map;
ghost use Rattle.eevdf_queue.specs.{Pick.IsPick, TimeToResched.IsShortest};
ghost use Rattle.eevdf_c.specs.Codes.{absent};
ghost use Rattle.std.specs.Borrow.{sem};
ghost use Rattle.eevdf_queue.specs.State.{State};
ghost use Rattle.eevdf_c.specs.Memory.{queue_at};
ghost use Rattle.eevdf_c.specs.Errors.{KeepsOnError};
ghost use Rattle.eevdf_c.specs.Turns as turns;
ghost use Rattle.eevdf_c.specs.Tick as ticks;
ghost use Rattle.eevdf_c.specs.TimeToResched.{uses_up};
ghost use Rattle.eevdf_c.specs.Yield as yields;

use crate::calls;
use crate::opened::Opened;

/// Lets the eligible task of earliest virtual deadline run, and answers its number. `ABSENT`: nothing is runnable.
#[unsafe(no_mangle)]
pub unsafe extern "C" fn eevdf_pick(queue: *mut u8) -> i64
    ghost q: { State }
    requires* { sem 𝓛 (queue_at queue q) }
    ensures* after { sem 𝓛 (queue_at queue (turns.pick q).1) }
    ensures answer { result ≡ (turns.pick q).0 }
    ensures picked { (t : ℕ) → result ≡ pos t → IsPick q.runnable t }
    ensures nobody { (result ≡ absent) ↔ (q.runnable ≡ map.empty) }
    ensures kept { KeepsOnError result q (turns.pick q).1 }
{
    calls::turns::pick(&mut *(queue as *mut Opened))
}

/// The task that a pick would let run now. `ABSENT`: nothing is runnable.
#[unsafe(no_mangle)]
pub unsafe extern "C" fn eevdf_peek(queue: *const u8) -> i64
    ghost q: { State }
    requires* { sem 𝓛 (queue_at queue q) }
    ensures* after { sem 𝓛 (queue_at queue q) }
    ensures answer { result ≡ turns.peek q }
    ensures picked { (t : ℕ) → result ≡ pos t → IsPick q.runnable t }
    ensures nobody { (result ≡ absent) ↔ (q.runnable ≡ map.empty) }
{
    calls::turns::peek(&*(queue as *const Opened))
}

/// Lets a runnable task run, whichever a pick would choose; who ran before waits. Answers 0. `INVALID`: no task has the number;
/// `ABSENT`: the task isn't runnable here.
#[unsafe(no_mangle)]
pub unsafe extern "C" fn eevdf_run(queue: *mut u8, task: u64) -> i64
    ghost q: { State }
    requires* { sem 𝓛 (queue_at queue q) }
    ensures* after { sem 𝓛 (queue_at queue (turns.run q task).1) }
    ensures answer { result ≡ (turns.run q task).0 }
    ensures kept { KeepsOnError result q (turns.run q task).1 }
{
    calls::turns::run(&mut *(queue as *mut Opened), task)
}

/// Charges the running task for `ns` nanoseconds. Answers 0, and 1 where it has used up its request: time to pick. `INVALID`: the
/// time is out of its range; `ABSENT`: nobody runs; `RANGE`: the runtime or deadline would leave the range.
#[unsafe(no_mangle)]
pub unsafe extern "C" fn eevdf_tick(queue: *mut u8, ns: u64) -> i64
    ghost q: { State }
    requires* { sem 𝓛 (queue_at queue q) }
    ensures* after { sem 𝓛 (queue_at queue (ticks.tick q ns).1) }
    ensures answer { result ≡ (ticks.tick q ns).0 }
    ensures kept { KeepsOnError result q (ticks.tick q ns).1 }
{
    calls::turns::tick(&mut *(queue as *mut Opened), ns)
}

/// The shortest tick that uses up the running task's request, in nanoseconds: one of that length answers 1, or `RANGE`, and no shorter
/// one does. `ABSENT`: nobody runs, or the longest tick, of a second, leaves some of the request.
#[unsafe(no_mangle)]
pub unsafe extern "C" fn eevdf_time_to_resched(queue: *const u8) -> i64
    ghost q: { State }
    requires* { sem 𝓛 (queue_at queue q) }
    ensures* after { sem 𝓛 (queue_at queue q) }
    ensures shortest { (ns : ℕ) → result ≡ pos ns → IsShortest (uses_up q) (Some ns) }
    ensures never { result <ℤ pos 0 → (result ≡ absent) × IsShortest (uses_up q) None }
{
    calls::turns::time_to_resched(&*(queue as *const Opened))
}

/// Makes the running task's deadline one request later; it runs on until the next pick. Answers 0. `ABSENT`: nobody runs;
/// `RANGE`: the deadline would leave the range.
#[unsafe(no_mangle)]
pub unsafe extern "C" fn eevdf_yield(queue: *mut u8) -> i64
    ghost q: { State }
    requires* { sem 𝓛 (queue_at queue q) }
    ensures* after { sem 𝓛 (queue_at queue (yields.yield_now q).1) }
    ensures answer { result ≡ (yields.yield_now q).0 }
    ensures kept { KeepsOnError result q (yields.yield_now q).1 }
{
    calls::turns::yield_now(&mut *(queue as *mut Opened))
}

/// Lets nobody run: the task that ran waits from now on, and is answered. `ABSENT`: nobody runs.
#[unsafe(no_mangle)]
pub unsafe extern "C" fn eevdf_stop(queue: *mut u8) -> i64
    ghost q: { State }
    requires* { sem 𝓛 (queue_at queue q) }
    ensures* after { sem 𝓛 (queue_at queue (turns.stop q).1) }
    ensures answer { result ≡ (turns.stop q).0 }
    ensures kept { KeepsOnError result q (turns.stop q).1 }
{
    calls::turns::stop(&mut *(queue as *mut Opened))
}
