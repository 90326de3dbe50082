//! The lag that a runnable task keeps when it leaves, and what becomes of it under another nice level.

ghost use Rattle.std.specs.Prelude.{◌≡◌, ◌≤◌, ◌^◌, ◌-ℤ◌, ◌*ℤ◌, ◌≤ℤ◌, pos, unsigned_abs, true};
ghost use Rattle.eevdf_weight.specs.{Charge.lag_limit_of, Placement.floor_div, Weight.weight_of};
ghost use Rattle.eevdf_weight.specs.Limits as limits;
ghost use Rattle.eevdf_queue.specs.Lag as lags;
ghost use Rattle.eevdf_queue.specs.Renice as renices;
ghost use Rattle.eevdf_queue.specs.SliceChange as slices;

use crate::entry::Entry;
use eevdf_weight::{Nice, Slice, level_lag_limit, narrow_floor_quotient, weight};

/// The virtual time less the task's virtual runtime, cut to plus or minus the limit of the task.
#[tactic(auto, using(crate::proofs::Bounds::cut_small))]
pub fn kept_lag(time: i64, entry: &Entry) -> i64
    requires time { limits.is_in_range time ≡ true }
    requires placed { limits.is_in_range entry.now.v ≡ true }
    ensures value { result ≡ lags.cut (time -ℤ entry.now.v) (lags.limit_of entry.now) }
    ensures limited { unsigned_abs result ≤ lags.limit_of entry.now }
{
    cut(
        distance(time, entry),
        level_lag_limit(entry.slice, entry.nice),
    )
}

/// How far the virtual time is past the task.
fn distance(time: i64, entry: &Entry) -> i64
    requires time { limits.is_in_range time ≡ true }
    requires placed { limits.is_in_range entry.now.v ≡ true }
    ensures { result ≡ time -ℤ entry.now.v }
{
    time - entry.v
}

/// A lag that is kept, under another nice level: times the old weight over the new one, rounded down, and cut to
/// plus or minus the limit of the new weight.
pub fn rescaled_lag(lag: i64, entry: &Entry, nice: Nice) -> i64
    requires { lags.is_lag lag entry.now.nice entry.now.slice ≡ true }
    ensures value { result ≡ renices.rescaled_lag lag entry.now nice }
    ensures limited { unsigned_abs result ≤ lag_limit_of entry.now.slice (weight_of nice) }
{
    let lag = reweighed_lag(lag, entry.nice, entry.slice, nice);
    limited_lag(lag, nice, entry.slice)
}

/// The lag of a task of this nice level and slice in the virtual time of another nice level, rounded down.
#[tactic(auto, using(crate::proofs::Bounds::lag_small))]
pub fn reweighed_lag(lag: i64, older: Nice, slice: Slice, nice: Nice) -> i64
    requires { lags.is_lag lag older slice ≡ true }
    ensures { result ≡ floor_div (lag *ℤ pos (weight_of older)) (weight_of nice) }
{
    prove!(slice.get() <= Slice::MAX.get());
    quotient(product(lag, weight(older)), weight(nice))
}

/// A distance in virtual time times a weight, in 64 bits: what a task ages at a time is at most 2^40, a lag at most 2^38, and a
/// weight less than 2^17.
#[tactic(auto, using(crate::proofs::Ageing::growth_small))]
pub fn product(distance: i64, weight: u64) -> i64
    requires near { unsigned_abs distance ≤ 2 ^ 40 }
    requires light { weight ≤ 88761 }
    ensures value { result ≡ distance *ℤ pos weight }
    ensures small { unsigned_abs result ≤ 2 ^ 57 }
{
    distance * weight as i64
}

/// Such a product over a weight, rounded down, in 64 bits too: a division of wider numbers costs much more.
fn quotient(number: i64, weight: u64) -> i64
    requires weighs { 1 ≤ weight }
    requires light { weight ≤ 88761 }
    ensures { result ≡ floor_div number weight }
{
    narrow_floor_quotient(number, weight)
}

/// A lag cut to plus or minus the limit of a task of this nice level and slice.
#[tactic(auto, using(crate::proofs::Bounds::cut_small))]
pub fn limited_lag(lag: i64, nice: Nice, slice: Slice) -> i64
    ensures value { result ≡ slices.limited_lag lag nice slice }
    ensures limited { lags.is_lag result nice slice ≡ true }
{
    cut(lag, level_lag_limit(slice, nice))
}

fn cut(lag: i64, limit: i64) -> i64
    requires { pos 0 ≤ℤ limit }
    ensures { result ≡ lags.cut lag (unsigned_abs limit) }
{
    lag.min(limit).max(-limit)
}
