//! What is read of a queue.

ghost use Rattle.std.specs.Prelude.{◌≡◌, ◌≤◌, ◌↔◌, ℕ, pos, unsigned_abs, true, false, Some};
ghost use Rattle.std.specs.FinMap as map;
ghost use Rattle.eevdf_weight.specs.Limits.{is_in_range};
ghost use Rattle.eevdf_queue.specs.Sums.{virtual_time};
ghost use Rattle.eevdf_queue.specs.Candidate.{IsCandidate, NoneWaits, is_running};
ghost use Rattle.eevdf_queue.specs.Lag as lags;
ghost use Rattle.eevdf_queue.specs.Doze as dozes;
ghost use Rattle.eevdf_c.specs.Codes.{absent, done};
ghost use Rattle.eevdf_c.specs.Errors.{KeepsOnError};
ghost use Rattle.eevdf_c.specs.Readers as readers;
ghost use Rattle.eevdf_c.specs.EntryOut as entries;
ghost use Rattle.eevdf_c.specs.SleeperOut as sleepers;
ghost use Rattle.eevdf_c.specs.PlaceOut as places;
ghost use Rattle.eevdf_c.specs.Turns as turns;

use crate::calls::turns::task_or_absent;
use crate::codes::{ABSENT, DONE, INVALID};
use crate::entry_out::EntryOut;
use crate::opened::Opened;
use crate::place_out::PlaceOut;
use crate::sleeper_out::SleeperOut;
use eevdf_queue::{TaskId, laws};
use eevdf_weight::{Nice, Slice, lag_limit, weight};

/// The number of runnable tasks.
#[tactic(auto, using(crate::proofs::Few::len_small))]
pub fn len(opened: &Opened) -> i64
    ensures { result ≡ readers.len opened.now }
{
    laws::sums_are_small(&opened.queue);
    opened.queue.len() as i64
}

/// The sum of the weights of the runnable tasks.
pub fn load(opened: &Opened) -> i64
    ensures { result ≡ readers.load opened.now }
{
    laws::sums_are_small(&opened.queue);
    opened.queue.load() as i64
}

/// The task that runs.
pub fn running(opened: &Opened) -> i64
    ensures { result ≡ turns.running opened.now }
{
    task_or_absent(opened.queue.running())
}

/// The task that another CPU may pull.
#[tactic(auto, using(crate::proofs::TaskCodes::absent_of_none, crate::proofs::TaskCodes::said_of_code))]
pub fn candidate(opened: &Opened) -> i64
    ensures answer { result ≡ readers.candidate opened.now }
    ensures last { (t : ℕ) → result ≡ pos t → IsCandidate opened.now.runnable opened.now.running t }
    ensures waiting { (t : ℕ) → result ≡ pos t → (map.contains_key opened.now.runnable t ≡ true)
        × (is_running opened.now.running t ≡ false) }
    ensures nobody { (result ≡ absent) ↔ NoneWaits opened.now.runnable opened.now.running }
{
    task_or_absent(opened.queue.candidate())
}

/// The virtual time, which `time` gets.
pub fn floor_time(opened: &Opened, time: &mut i64) -> i64
    ensures answer { result ≡ done }
    ensures told { time.new ≡ virtual_time opened.now }
    ensures in_range { is_in_range time.new ≡ true }
{
    *time = opened.queue.floor_time();
    DONE
}

/// The entry of a task, where it is runnable here, which `out` gets. Else `out` stays as it was.
pub fn entry_of(opened: &Opened, number: u64, out: &mut EntryOut) -> i64
    ensures answer { result ≡ entries.entry opened.now number }
    ensures told { out.new ≡ entries.told_entry opened.now out.old number }
    ensures kept { KeepsOnError result out.old out.new }
{
    let Some(task) = TaskId::new(number) else {
        return INVALID;
    };
    match opened.queue.entry(task) {
        Some(entry) => {
            *out = EntryOut::of(&entry);
            DONE
        }
        None => ABSENT,
    }
}

/// What is kept of a task, where it sleeps here, which `out` gets. Else `out` stays as it was.
pub fn sleeper_of(opened: &Opened, number: u64, out: &mut SleeperOut) -> i64
    ensures answer { result ≡ sleepers.sleeper opened.now number }
    ensures told { out.new ≡ sleepers.told_sleeper opened.now out.old number }
    ensures kept { KeepsOnError result out.old out.new }
    ensures limited { result ≡ done → lags.is_lag out.new.lag out.new.nice out.new.slice_ns ≡ true }
{
    let Some(task) = TaskId::new(number) else {
        return INVALID;
    };
    match opened.queue.sleeper(task) {
        Some(sleeper) => {
            *out = SleeperOut::of(&sleeper);
            DONE
        }
        None => ABSENT,
    }
}

/// The place of a task, where it dozes here, which `out` gets. Else `out` stays as it was.
pub fn place_of(opened: &Opened, number: u64, out: &mut PlaceOut) -> i64
    ensures answer { result ≡ places.place opened.now number }
    ensures told { out.new ≡ places.told_place opened.now out.old number }
    ensures kept { KeepsOnError result out.old out.new }
    ensures whole { result ≡ done → dozes.place_of opened.now number ≡ Some (places.value out.new) }
{
    let Some(task) = TaskId::new(number) else {
        return INVALID;
    };
    match opened.queue.place_of(task) {
        Some(place) => {
            *out = PlaceOut::of(place);
            DONE
        }
        None => ABSENT,
    }
}

/// Whether a task sleeps here.
pub fn is_asleep(opened: &Opened, number: u64) -> i64
    ensures { result ≡ readers.is_asleep opened.now number }
{
    match TaskId::new(number) {
        Some(task) => flag(opened.queue.asleep(task)),
        None => INVALID,
    }
}

/// Whether a task is here.
pub fn contains(opened: &Opened, number: u64) -> i64
    ensures { result ≡ readers.contains opened.now number }
{
    match TaskId::new(number) {
        Some(task) => flag(opened.queue.contains(task)),
        None => INVALID,
    }
}

/// 1 where it is so, and else 0.
fn flag(so: bool) -> i64
    ensures { result ≡ readers.flag so }
{
    i64::from(so)
}

/// The lag of a task, where it is here. Else `lag` stays as it was.
pub fn lag(opened: &Opened, number: u64, lag: &mut i64) -> i64
    ensures answer { result ≡ readers.lag opened.now number }
    ensures told { lag.new ≡ readers.told_lag opened.now lag.old number }
    ensures kept { KeepsOnError result lag.old lag.new }
    ensures limited { result ≡ done → unsigned_abs lag.new ≤ lags.limit_at opened.now number }
{
    let Some(task) = TaskId::new(number) else {
        return INVALID;
    };
    match opened.queue.lag_of(task) {
        Some(found) => {
            *lag = found;
            DONE
        }
        None => ABSENT,
    }
}

/// Whether a task of this nice level, slice and lag can join.
pub fn can_place(opened: &Opened, level: i64, slice_ns: u64, lag: i64) -> i64
    ensures { result ≡ readers.can_place opened.now level slice_ns lag }
{
    let Some(nice) = Nice::new(level) else {
        return INVALID;
    };
    let Some(slice) = Slice::new(slice_ns) else {
        return INVALID;
    };
    if is_lag(lag, nice, slice) {
        flag(opened.queue.can_place(nice, slice, lag))
    } else {
        INVALID
    }
}

/// Whether a lag is within the limit of a task of this nice level and slice.
fn is_lag(lag: i64, nice: Nice, slice: Slice) -> bool
    ensures { result ≡ lags.is_lag lag nice slice }
{
    lag.unsigned_abs() <= lag_limit(slice, weight(nice)) as u64
}
