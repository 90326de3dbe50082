ghost use Rattle.std.specs.Prelude.{◌≡◌, ◌≤◌, ◌^◌, ◌+◌, ◌*ℤ◌, ◌-ℤ◌, pos, unsigned_abs, true};
ghost use Rattle.eevdf_weight.specs.Limits as limits;
ghost use Rattle.eevdf_weight.specs.Placement.{floor_div, placement_of, within_range};

use crate::product::wide_product;
use crate::quotient::{floor_quotient, narrow_floor_quotient};

/// The greatest distance from 0 of a virtual time that a task or a queue may have.
pub const BOUND: i64 = 1 << 60;

/// Whether a virtual time may be had by a task or a queue.
pub fn is_in_range(time: i64) -> bool
    ensures { result ≡ limits.is_in_range time }
{
    -BOUND <= time && time <= BOUND
}

// Where the formula comes from. A task is to have the same lag after it has joined as before: it is owed what it was owed.
// Its lag is then the mean with the task less its own `v`, and that mean is `(total * v0 + w * v) / (total + w)`, since the
// task counts in it by its weight. So
//
//     lag = (total * v0 + w * v) / (total + w) - v = (v0 - v) * total / (total + w)
//
// and `v = v0 - lag * (total + w) / total`. At `v0 - lag` the task would shift the mean towards itself and so lose the
// part `w / (total + w)` of its lag, each time that it sleeps and wakes. Over no task there is no mean to keep to, and
// nothing is divided: the caller places such a task at the time that stands.

/// The virtual runtime at which a task of weight `w` and of this lag joins runnable tasks of the weight
/// `total` at the virtual time `v0`: `v0 - floor(lag * (total + w) / total)`. `None` exactly where that is
/// out of range.
pub fn placed(v0: i64, total: u64, lag: i64, w: u64) -> Option<i64>
    requires time { limits.is_in_range v0 ≡ true }
    requires some { 1 ≤ total }
    requires few { total ≤ 2 ^ 40 }
    requires kept { unsigned_abs lag ≤ 2 ^ 38 }
    requires weighs { 1 ≤ w }
    requires light { w ≤ 88761 }
    ensures { result ≡ within_range (placement_of v0 total lag w) }
{
    if is_narrow(total, lag) {
        return checked(narrow_earlier(v0, narrow_stretched(lag, total, w)));
    }
    placed_widely(v0, total, lag, w)
}

/// Whether the placement can be computed in 64 bits, which is cheaper. It can be for every lag that a task keeps, and for
/// all that a queue has room for.
fn is_narrow(total: u64, lag: i64) -> bool
    ensures few { result ≡ true → total ≤ 2 ^ 27 }
    ensures kept { result ≡ true → unsigned_abs lag ≤ 2 ^ 34 }
{
    total <= 1 << 27 && lag.unsigned_abs() <= 1 << 34
}

/// The virtual time, where it is in range.
fn checked(time: i64) -> Option<i64>
    ensures { result ≡ within_range time }
{
    if is_in_range(time) { Some(time) } else { None }
}

fn narrow_earlier(time: i64, by: i64) -> i64
    requires start { limits.is_in_range time ≡ true }
    requires small { unsigned_abs by ≤ 2 ^ 62 }
    ensures { result ≡ time -ℤ by }
{
    time - by
}

/// The lag, stretched by the weight that it brings.
#[tactic(auto, using(crate::proofs::Stretching::quotient_small))]
fn narrow_stretched(lag: i64, total: u64, w: u64) -> i64
    requires some { 1 ≤ total }
    requires few { total ≤ 2 ^ 27 }
    requires kept { unsigned_abs lag ≤ 2 ^ 34 }
    requires light { w ≤ 88761 }
    ensures value { result ≡ floor_div (lag *ℤ pos (total + w)) total }
    ensures small { unsigned_abs result ≤ 2 ^ 62 }
{
    narrow_floor_quotient(narrow_product(lag, total + w), total)
}

#[tactic(auto, using(crate::proofs::Stretching::product_small))]
fn narrow_product(lag: i64, weight: u64) -> i64
    requires kept { unsigned_abs lag ≤ 2 ^ 34 }
    requires light { weight ≤ 2 ^ 28 }
    ensures value { result ≡ lag *ℤ pos weight }
    ensures small { unsigned_abs result ≤ 2 ^ 62 }
{
    lag * weight as i64
}

/// The same in the wider type.
#[inline(never)]
fn placed_widely(v0: i64, total: u64, lag: i64, w: u64) -> Option<i64>
    requires time { limits.is_in_range v0 ≡ true }
    requires some { 1 ≤ total }
    requires few { total ≤ 2 ^ 40 }
    requires kept { unsigned_abs lag ≤ 2 ^ 38 }
    requires light { w ≤ 88761 }
    ensures { result ≡ within_range (placement_of v0 total lag w) }
{
    in_range(earlier(v0, stretched(lag, total, w)))
}

/// A virtual time that was computed in the wider type, where it is in range.
fn in_range(time: i128) -> Option<i64>
    ensures { result ≡ within_range time }
{
    if time.unsigned_abs() <= u128::from(BOUND.unsigned_abs()) {
        Some(time as i64)
    } else {
        None
    }
}

fn earlier(time: i64, by: i128) -> i128
    requires start { limits.is_in_range time ≡ true }
    requires small { unsigned_abs by ≤ 2 ^ 100 }
    ensures { result ≡ time -ℤ by }
{
    i128::from(time) - by
}

/// The lag, stretched by the weight that it brings.
fn stretched(lag: i64, total: u64, w: u64) -> i128
    requires some { 1 ≤ total }
    requires few { total ≤ 2 ^ 40 }
    requires kept { unsigned_abs lag ≤ 2 ^ 38 }
    requires light { w ≤ 88761 }
    ensures value { result ≡ floor_div (lag *ℤ pos (total + w)) total }
    ensures small { unsigned_abs result ≤ 2 ^ 100 }
{
    floor_quotient(wide_product(lag, total + w), total)
}
