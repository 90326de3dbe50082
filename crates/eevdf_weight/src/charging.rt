ghost use Rattle.std.specs.Prelude.{◌≡◌, ◌≤◌, pos};
ghost use Rattle.eevdf_weight.specs.Charge.{charge_of, lag_limit_of};

use crate::slice::Slice;

/// The virtual time that a weight ages in `ns` nanoseconds: `ns * 1024 / w`, rounded down.
#[tactic(auto, unfolding(crate::specs::Charge::charge_of))]
pub fn charge(ns: u64, w: u64) -> i64
    requires short { ns ≤ 1000000000 }
    requires weighs { 1 ≤ w }
    ensures { result ≡ pos (charge_of ns w) }
{
    (ns * 1024 / w) as i64
}

/// How far from 0 the lag of a task of this slice and weight may be kept: the charge of two slices.
pub fn lag_limit(slice: Slice, w: u64) -> i64
    requires { 1 ≤ w }
    ensures { result ≡ pos (lag_limit_of slice w) }
{
    charge(2 * slice.get(), w)
}
