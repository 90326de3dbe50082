//! What is read of a queue.

ghost use Rattle.std.specs.Prelude.{◌≡◌, ◌≤◌, ◌↔◌, ℕ, ℤ, pos, unsigned_abs, true, false, Some};
ghost use Rattle.std.specs.Borrow.{sem};
ghost use Rattle.std.specs.FinMap as map;
ghost use Rattle.eevdf_weight.specs.Limits.{is_in_range};
ghost use Rattle.eevdf_queue.specs.{State.State, Sums.virtual_time};
ghost use Rattle.eevdf_queue.specs.Candidate.{IsCandidate, NoneWaits, is_running};
ghost use Rattle.eevdf_queue.specs.Lag as lags;
ghost use Rattle.eevdf_queue.specs.Doze as dozes;
ghost use Rattle.eevdf_c.specs.Memory.{entry_at, number_at, place_at, queue_at, sleeper_at};
ghost use Rattle.eevdf_c.specs.Errors.{KeepsOnError};
ghost use Rattle.eevdf_c.specs.Codes as answers;
ghost use Rattle.eevdf_c.specs.EntryOut as entries;
ghost use Rattle.eevdf_c.specs.SleeperOut as sleepers;
ghost use Rattle.eevdf_c.specs.PlaceOut as places;
ghost use Rattle.eevdf_c.specs.Readers as readers;
ghost use Rattle.eevdf_c.specs.Turns as turns;

use crate::calls;
use crate::entry_out::EntryOut;
use crate::opened::Opened;
use crate::place_out::PlaceOut;
use crate::sleeper_out::SleeperOut;

/// The number of runnable tasks.
#[unsafe(no_mangle)]
pub unsafe extern "C" fn eevdf_len(queue: *const u8) -> i64
    ghost q: { State }
    requires* { sem 𝓛 (queue_at queue q) }
    ensures* after { sem 𝓛 (queue_at queue q) }
    ensures answer { result ≡ readers.len q }
{
    calls::reading::len(&*(queue as *const Opened))
}

/// The sum of the weights of the runnable tasks.
#[unsafe(no_mangle)]
pub unsafe extern "C" fn eevdf_load(queue: *const u8) -> i64
    ghost q: { State }
    requires* { sem 𝓛 (queue_at queue q) }
    ensures* after { sem 𝓛 (queue_at queue q) }
    ensures answer { result ≡ readers.load q }
{
    calls::reading::load(&*(queue as *const Opened))
}

/// The task that runs. `ABSENT`: nobody runs.
#[unsafe(no_mangle)]
pub unsafe extern "C" fn eevdf_running(queue: *const u8) -> i64
    ghost q: { State }
    requires* { sem 𝓛 (queue_at queue q) }
    ensures* after { sem 𝓛 (queue_at queue q) }
    ensures answer { result ≡ turns.running q }
{
    calls::reading::running(&*(queue as *const Opened))
}

/// The task that another CPU may pull: of those that wait the one of latest deadline. `ABSENT`: no task waits.
#[unsafe(no_mangle)]
pub unsafe extern "C" fn eevdf_candidate(queue: *const u8) -> i64
    ghost q: { State }
    requires* { sem 𝓛 (queue_at queue q) }
    ensures* after { sem 𝓛 (queue_at queue q) }
    ensures answer { result ≡ readers.candidate q }
    ensures last { (t : ℕ) → result ≡ pos t → IsCandidate q.runnable q.running t }
    ensures waiting { (t : ℕ) → result ≡ pos t → (map.contains_key q.runnable t ≡ true)
        × (is_running q.running t ≡ false) }
    ensures nobody { (result ≡ answers.absent) ↔ NoneWaits q.runnable q.running }
{
    calls::reading::candidate(&*(queue as *const Opened))
}

/// The virtual time, which `time` gets. Answers 0.
#[unsafe(no_mangle)]
pub unsafe extern "C" fn eevdf_floor_time(queue: *const u8, time: *mut i64) -> i64
    ghost g: { State × ℤ }
    requires* queue { sem 𝓛 (queue_at queue g.0) }
    requires* time { sem 𝓛 (number_at time g.1) }
    ensures* after { sem 𝓛 (queue_at queue g.0) }
    ensures* told { sem 𝓛 (number_at time (virtual_time g.0)) }
    ensures answer { result ≡ answers.done }
    ensures in_range { is_in_range (virtual_time g.0) ≡ true }
{
    calls::reading::floor_time(&*(queue as *const Opened), &mut *time)
}

/// The entry of a runnable task, which `out` gets. Answers 0. `INVALID`: no task has the number; `ABSENT`: it isn't runnable here.
#[unsafe(no_mangle)]
pub unsafe extern "C" fn eevdf_entry_of(queue: *const u8, task: u64, out: *mut EntryOut) -> i64
    ghost g: { State × entries.EntryOut }
    requires* queue { sem 𝓛 (queue_at queue g.0) }
    requires* out { sem 𝓛 (entry_at out g.1) }
    ensures* after { sem 𝓛 (queue_at queue g.0) }
    ensures* told { sem 𝓛 (entry_at out (entries.told_entry g.0 g.1 task)) }
    ensures answer { result ≡ entries.entry g.0 task }
    ensures kept { KeepsOnError result g.1 (entries.told_entry g.0 g.1 task) }
{
    calls::reading::entry_of(&*(queue as *const Opened), task, &mut *out)
}

/// The lag of a task, runnable or asleep, which `lag` gets. Answers 0. `INVALID`: no task has the number; `ABSENT`: it isn't here.
#[unsafe(no_mangle)]
pub unsafe extern "C" fn eevdf_lag(queue: *const u8, task: u64, lag: *mut i64) -> i64
    ghost g: { State × ℤ }
    requires* queue { sem 𝓛 (queue_at queue g.0) }
    requires* lag { sem 𝓛 (number_at lag g.1) }
    ensures* after { sem 𝓛 (queue_at queue g.0) }
    ensures* told { sem 𝓛 (number_at lag (readers.told_lag g.0 g.1 task)) }
    ensures answer { result ≡ readers.lag g.0 task }
    ensures kept { KeepsOnError result g.1 (readers.told_lag g.0 g.1 task) }
    ensures limited { result ≡ answers.done
        → unsigned_abs (readers.told_lag g.0 g.1 task) ≤ lags.limit_at g.0 task }
{
    calls::reading::lag(&*(queue as *const Opened), task, &mut *lag)
}

/// What is kept of a task that sleeps here, which `out` gets. Answers 0. `INVALID`: no task has the number; `ABSENT`: it doesn't sleep
/// here.
#[unsafe(no_mangle)]
pub unsafe extern "C" fn eevdf_sleeper_of(queue: *const u8, task: u64, out: *mut SleeperOut) -> i64
    ghost g: { State × sleepers.SleeperOut }
    requires* queue { sem 𝓛 (queue_at queue g.0) }
    requires* out { sem 𝓛 (sleeper_at out g.1) }
    ensures* after { sem 𝓛 (queue_at queue g.0) }
    ensures* told { sem 𝓛 (sleeper_at out (sleepers.told_sleeper g.0 g.1 task)) }
    ensures answer { result ≡ sleepers.sleeper g.0 task }
    ensures kept { KeepsOnError result g.1 (sleepers.told_sleeper g.0 g.1 task) }
    ensures limited { result ≡ answers.done → lags.is_lag (sleepers.told_sleeper g.0 g.1 task).lag
        (sleepers.told_sleeper g.0 g.1 task).nice
        (sleepers.told_sleeper g.0 g.1 task).slice_ns ≡ true }
{
    calls::reading::sleeper_of(&*(queue as *const Opened), task, &mut *out)
}

/// The place of a task that dozes here, in the virtual times of now, which `out` gets. Answers 0. `INVALID`: no task has the number;
/// `ABSENT`: it doesn't doze here.
#[unsafe(no_mangle)]
pub unsafe extern "C" fn eevdf_place_of(queue: *const u8, task: u64, out: *mut PlaceOut) -> i64
    ghost g: { State × places.PlaceOut }
    requires* queue { sem 𝓛 (queue_at queue g.0) }
    requires* out { sem 𝓛 (place_at out g.1) }
    ensures* after { sem 𝓛 (queue_at queue g.0) }
    ensures* told { sem 𝓛 (place_at out (places.told_place g.0 g.1 task)) }
    ensures answer { result ≡ places.place g.0 task }
    ensures kept { KeepsOnError result g.1 (places.told_place g.0 g.1 task) }
    ensures whole { result ≡ answers.done
        → dozes.place_of g.0 task ≡ Some (places.value (places.told_place g.0 g.1 task)) }
{
    calls::reading::place_of(&*(queue as *const Opened), task, &mut *out)
}

/// 1 where a task sleeps here, and else 0. `INVALID`: no task has the number.
#[unsafe(no_mangle)]
pub unsafe extern "C" fn eevdf_is_asleep(queue: *const u8, task: u64) -> i64
    ghost q: { State }
    requires* { sem 𝓛 (queue_at queue q) }
    ensures* after { sem 𝓛 (queue_at queue q) }
    ensures answer { result ≡ readers.is_asleep q task }
{
    calls::reading::is_asleep(&*(queue as *const Opened), task)
}

/// 1 where a task is here, runnable or asleep, and else 0. `INVALID`: no task has the number.
#[unsafe(no_mangle)]
pub unsafe extern "C" fn eevdf_contains(queue: *const u8, task: u64) -> i64
    ghost q: { State }
    requires* { sem 𝓛 (queue_at queue q) }
    ensures* after { sem 𝓛 (queue_at queue q) }
    ensures answer { result ≡ readers.contains q task }
{
    calls::reading::contains(&*(queue as *const Opened), task)
}

/// 1 where a task of this nice level, slice and lag could be placed here, and else 0. `INVALID`: a number is out of its range,
/// or the lag is beyond the limit of such a task.
#[unsafe(no_mangle)]
pub unsafe extern "C" fn eevdf_can_place(
    queue: *const u8,
    nice: i64,
    slice_ns: u64,
    lag: i64,
) -> i64
    ghost q: { State }
    requires* { sem 𝓛 (queue_at queue q) }
    ensures* after { sem 𝓛 (queue_at queue q) }
    ensures answer { result ≡ readers.can_place q nice slice_ns lag }
{
    calls::reading::can_place(&*(queue as *const Opened), nice, slice_ns, lag)
}
