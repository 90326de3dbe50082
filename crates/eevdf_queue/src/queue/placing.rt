//! Where a task with a lag is placed when it joins a queue.

ghost use Rattle.std.specs.Prelude.{◌≡◌, ◌==◌, ◌≤◌, ◌^◌, if◌then◌else◌, true};
ghost use Rattle.std.specs.Int.{int_max};
ghost use Rattle.eevdf_weight.specs.Limits as limits;
ghost use Rattle.eevdf_weight.specs.Placement.{within_range};
ghost use Rattle.eevdf_queue.specs.{Lag.is_lag, Moves.entry_in_range, Moves.fresh_entry, Placing.runtime_of, Placing.IsRoomy};

use crate::entry::Entry;
use crate::request::started;
use crate::sleeper::Sleeper;
use crate::tree::totals::Totals;
use eevdf_weight::{Slice, placed, weight};

/// The entry of a task that joins runnable tasks of this total weight at this virtual time. `None` exactly
/// where it would be out of range.
pub fn placed_entry(time: i64, total: u64, sleeper: &Sleeper) -> Option<Entry>
    requires time { limits.is_in_range time ≡ true }
    requires few { total ≤ 2 ^ 40 }
    requires limited { is_lag sleeper.now.lag sleeper.now.nice sleeper.now.slice ≡ true }
    ensures { result ≡ entry_in_range
        (fresh_entry (runtime_of time total sleeper.now.lag sleeper.now.nice)
        sleeper.now.nice sleeper.now.slice) }
{
    match runtime(time, total, sleeper) {
        None => None,
        Some(v) => started_at(v, sleeper),
    }
}

/// The entry of a task that joins them so, but no earlier than at a place. `None` exactly where it would be out of range.
pub fn placed_from(place: i128, time: i64, total: u64, sleeper: &Sleeper) -> Option<Entry>
    requires time { limits.is_in_range time ≡ true }
    requires few { total ≤ 2 ^ 40 }
    requires limited { is_lag sleeper.now.lag sleeper.now.nice sleeper.now.slice ≡ true }
    ensures { result ≡ entry_in_range
        (fresh_entry (int_max place (runtime_of time total sleeper.now.lag sleeper.now.nice))
        sleeper.now.nice sleeper.now.slice) }
{
    match runtime(time, total, sleeper) {
        Some(v) => started_from(place.max(i128::from(v)), sleeper),
        // beyond the range: after it where the task owes, before it where the task is owed
        None if sleeper.lag < 0 => None,
        None => started_from(place, sleeper),
    }
}

/// The entry of a task at a virtual runtime. `None` exactly where it would be out of range.
fn started_at(v: i64, sleeper: &Sleeper) -> Option<Entry>
    ensures { result ≡ entry_in_range (fresh_entry v sleeper.now.nice sleeper.now.slice) }
{
    started(&Entry {
        v,
        d: v,
        nice: sleeper.nice,
        slice: sleeper.slice,
    })
}

/// The same at one that may be far out of range.
fn started_from(v: i128, sleeper: &Sleeper) -> Option<Entry>
    ensures { result ≡ entry_in_range (fresh_entry v sleeper.now.nice sleeper.now.slice) }
{
    match i64::try_from(v) {
        Ok(v) => started_at(v, sleeper),
        Err(_) => None,
    }
}

/// Whether any task can join others with these sums: their virtual time is so far within its range that no stretched lag
/// and no request leads out of it. It is so over a weight of 16 where the moment fits 64 bits, which is cheaper to find out
/// than to place the task; of other sums nothing is said.
pub fn is_roomy(totals: &Totals) -> bool
    requires { totals.now.weight ≤ 2 ^ 40 }
    ensures { result ≡ true → IsRoomy totals.now.weight totals.now.moment }
{
    16 <= totals.weight && i64::try_from(totals.moment).is_ok()
}

/// The virtual runtime that it gets: among no tasks the time itself.
#[tactic(auto, using(crate::proofs::Bounds::lag_small))]
fn runtime(time: i64, total: u64, sleeper: &Sleeper) -> Option<i64>
    requires time { limits.is_in_range time ≡ true }
    requires few { total ≤ 2 ^ 40 }
    requires limited { is_lag sleeper.now.lag sleeper.now.nice sleeper.now.slice ≡ true }
    ensures { result ≡ within_range (runtime_of time total sleeper.now.lag sleeper.now.nice) }
{
    prove!(sleeper.slice.get() <= Slice::MAX.get());
    if total == 0 {
        Some(time)
    } else {
        placed(time, total, sleeper.lag, weight(sleeper.nice))
    }
}
