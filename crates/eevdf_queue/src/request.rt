//! What a request of a task costs, and how a task is charged.

ghost use Rattle.std.specs.Prelude.{◌≡◌, ◌≤◌, ◌^◌, ◌-ℤ◌, ◌≤ℤ◌, pos, unsigned_abs, true, false};
ghost use Rattle.eevdf_weight.specs.Limits as limits;
ghost use Rattle.eevdf_weight.specs.{Charge.charge_of, Weight.weight_of};
ghost use Rattle.eevdf_queue.specs.Moves.{entry_in_range, fresh_entry};
ghost use Rattle.eevdf_queue.specs.Moves as moves;
ghost use Rattle.eevdf_queue.specs.Tick as ticks;
ghost use Rattle.eevdf_queue.specs.Yield as yields;

use crate::entry::Entry;
use eevdf_weight::{Ns, is_in_range, level_charge};

/// Whether the virtual deadline is in range.
pub fn is_deadline_in_range(entry: &Entry) -> bool
    ensures { result ≡ limits.is_in_range entry.now.d }
{
    is_in_range(entry.d)
}

/// Whether the virtual runtime is in range.
pub fn is_runtime_in_range(entry: &Entry) -> bool
    ensures { result ≡ limits.is_in_range entry.now.v }
{
    is_in_range(entry.v)
}

/// A task at the virtual runtime of the entry, with a fresh request. `None` exactly where it would be out of
/// range.
pub fn started(entry: &Entry) -> Option<Entry>
    ensures { result ≡ entry_in_range (fresh_entry entry.now.v entry.now.nice entry.now.slice) }
{
    if !is_in_range(entry.v) {
        return None;
    }
    let fresh = renewed(entry);
    if is_in_range(fresh.d) {
        Some(fresh)
    } else {
        None
    }
}

/// The entry with a fresh request.
fn renewed(entry: &Entry) -> Entry
    requires { unsigned_abs entry.now.v ≤ 2 ^ 61 }
    ensures value { result ≡ fresh_entry entry.now.v entry.now.nice entry.now.slice }
    ensures later { result.v ≤ℤ result.d }
{
    Entry {
        d: entry.v + cost(entry, entry.slice.get()),
        ..*entry
    }
}

/// What a task with this entry is charged for so many nanoseconds.
#[tactic(auto, using(crate::proofs::Bounds::charge_of_small))]
fn cost(entry: &Entry, ns: u64) -> i64
    requires { ns ≤ 1000000000 }
    ensures value { result ≡ pos (charge_of ns (weight_of entry.now.nice)) }
    ensures small { charge_of ns (weight_of entry.now.nice) ≤ 2 ^ 40 }
{
    level_charge(ns, entry.nice)
}

/// The entry after the task has run for `ns`.
#[tactic(auto, using(crate::proofs::Bounds::within, crate::proofs::Signed::sum_fits, crate::proofs::Signed::sum_kept))]
fn aged(entry: &Entry, ns: Ns) -> Entry
    requires { limits.is_in_range entry.now.v ≡ true }
    ensures value { result ≡ record entry.now { v = ticks.aged entry.now ns } }
    ensures small { unsigned_abs result.v ≤ 2 ^ 61 }
    ensures near { unsigned_abs (result.v -ℤ entry.now.v) ≤ 2 ^ 40 }
    ensures later { entry.now.v ≤ℤ result.v }
{
    Entry {
        v: entry.v + cost(entry, ns.get()),
        ..*entry
    }
}

/// An entry after a tick, and whether it has got a fresh request.
#[derive(Clone, Copy)]
pub struct ChargedEntry {
    pub entry: Entry,
    pub resched: bool,
}

/// The entry after the task has run for `ns`, with a fresh request where the old one is used up. It is in range where the request
/// isn't used up, since the virtual runtime is between the older one and the deadline, and else where the deadline is.
#[tactic(auto, using(crate::proofs::ChargedRange::kept_in_range, crate::proofs::ChargedRange::renewed_in_range))]
pub fn charged(entry: &Entry, ns: Ns) -> ChargedEntry
    requires { moves.is_entry_in_range entry.now ≡ true }
    ensures entry { result.entry ≡ ticks.charged entry.now ns }
    ensures resched { result.resched ≡ ticks.is_used_up entry.now ns }
    ensures near { unsigned_abs (result.entry.v -ℤ entry.now.v) ≤ 2 ^ 40 }
    ensures later { entry.now.v ≤ℤ result.entry.v }
    ensures kept { result.resched ≡ false → moves.is_entry_in_range result.entry ≡ true }
    ensures renewed { result.resched ≡ true
        → limits.is_in_range result.entry.d ≡ moves.is_entry_in_range result.entry }
{
    let older = aged(entry, ns);
    if older.v >= entry.d {
        ChargedEntry {
            entry: renewed(&older),
            resched: true,
        }
    } else {
        ChargedEntry {
            entry: older,
            resched: false,
        }
    }
}

/// The entry with a deadline one request later.
pub fn yielded(entry: &Entry) -> Entry
    requires { limits.is_in_range entry.now.d ≡ true }
    ensures { result ≡ yields.yielded entry.now }
{
    Entry {
        d: entry.d + cost(entry, entry.slice.get()),
        ..*entry
    }
}
