ghost use Rattle.std.specs.Prelude.{◌≡◌, ◌*◌, ◌≤◌, ◌^◌, unsigned_abs, true};
ghost use Rattle.eevdf_weight.specs.Limits as limits;
ghost use Rattle.eevdf_weight.specs.Placement.{floor_div};
ghost use Rattle.eevdf_queue.specs.Sums.{time_over};

use eevdf_weight::{floor_quotient, narrow_floor_quotient};

/// The sums over tasks: of their weights, and of weight times virtual runtime.
#[derive(Clone, Copy)]
pub struct Totals {
    pub weight: u64,
    pub moment: i128,
}

/// The virtual time over tasks with these sums: their weighted mean, and over no task the time that stands.
pub fn time_over(totals: &Totals, base: i64) -> i64
    requires base { limits.is_in_range base ≡ true }
    requires few { totals.now.weight ≤ 2 ^ 39 }
    requires small { unsigned_abs totals.now.moment ≤ 2 ^ 60 * totals.now.weight }
    ensures value { result ≡ time_over totals.now.weight totals.now.moment base }
    ensures in_range { limits.is_in_range result ≡ true }
{
    if totals.weight == 0 {
        base
    } else {
        mean(totals)
    }
}

/// The weighted mean of the virtual runtimes, rounded down.
#[tactic(auto, using(crate::proofs::Bounds::floor_small, crate::proofs::Bounds::within_range))]
fn mean(totals: &Totals) -> i64
    requires some { 1 ≤ totals.now.weight }
    requires few { totals.now.weight ≤ 2 ^ 39 }
    requires small { unsigned_abs totals.now.moment ≤ 2 ^ 60 * totals.now.weight }
    ensures value { result ≡ floor_div totals.now.moment totals.now.weight }
    ensures in_range { limits.is_in_range result ≡ true }
{
    quotient(totals) as i64
}

/// The weighted mean, rounded down, in the wider type. Where the moment fits 64 bits, as it mostly does, it is divided so.
#[tactic(auto, using(crate::proofs::Bounds::floor_small))]
fn quotient(totals: &Totals) -> i128
    requires some { 1 ≤ totals.now.weight }
    requires few { totals.now.weight ≤ 2 ^ 39 }
    requires small { unsigned_abs totals.now.moment ≤ 2 ^ 60 * totals.now.weight }
    ensures value { result ≡ floor_div totals.now.moment totals.now.weight }
    ensures small { unsigned_abs result ≤ 2 ^ 60 }
{
    match i64::try_from(totals.moment) {
        Ok(moment) => i128::from(narrow_floor_quotient(moment, totals.weight)),
        Err(_) => floor_quotient(totals.moment, totals.weight),
    }
}
