//! The sums over tasks, corrected by what one of them adds.

ghost use Rattle.std.specs.Prelude.{◌≡◌, ◌+◌, ◌*◌, ◌≤◌, ◌^◌, pos, ◌+ℤ◌, ◌-ℤ◌, ◌*ℤ◌, unsigned_abs};
ghost use Rattle.eevdf_weight.specs.Weight.{weight_of};
ghost use Rattle.eevdf_queue.specs.Numbers.{number_limit};

use crate::entry::Entry;
use crate::lag::product;
use crate::tree::least::is_in_64_bits;
use crate::tree::totals::Totals;
use eevdf_weight::{weight, wide_product};

/// The sums over one task: its weight, and that times its virtual runtime.
#[tactic(auto, using(crate::proofs::Bounds::scaled_near))]
pub fn share(entry: &Entry) -> Totals
    ensures weight { result.weight ≡ weight_of entry.now.nice }
    ensures moment { result.moment ≡ entry.now.v *ℤ pos (weight_of entry.now.nice) }
    ensures light { result.weight ≤ 88761 }
    ensures near { unsigned_abs result.moment ≤ 2 ^ 63 * result.weight }
{
    is_in_64_bits(entry.v);
    let weight = weight(entry.nice);
    Totals {
        weight,
        moment: wide_product(entry.v, weight),
    }
}

/// The sums with one task more.
pub fn with_share(totals: &Totals, share: &Totals) -> Totals
    requires few { totals.now.weight ≤ 2 ^ 40 }
    requires small { unsigned_abs totals.now.moment ≤ 2 ^ 110 }
    requires light { share.now.weight ≤ 88761 }
    requires near { unsigned_abs share.now.moment ≤ 2 ^ 63 * share.now.weight }
    ensures weight { result.weight ≡ share.now.weight + totals.now.weight }
    ensures moment { result.moment ≡ share.now.moment +ℤ totals.now.moment }
{
    Totals {
        weight: totals.weight + share.weight,
        moment: sum(totals, share),
    }
}

/// The sums without one of the tasks.
pub fn without_share(totals: &Totals, share: &Totals) -> Totals
    requires part { share.now.weight ≤ totals.now.weight }
    requires small { unsigned_abs totals.now.moment ≤ 2 ^ 110 }
    requires light { share.now.weight ≤ 88761 }
    requires near { unsigned_abs share.now.moment ≤ 2 ^ 63 * share.now.weight }
    ensures weight { totals.now.weight ≡ share.now.weight + result.weight }
    ensures moment { totals.now.moment ≡ share.now.moment +ℤ result.moment }
{
    Totals {
        weight: totals.weight - share.weight,
        moment: difference(totals, share),
    }
}

/// The sums where one of the tasks gets another entry.
pub fn exchanged(totals: &Totals, older: &Entry, newer: &Entry) -> Totals
    requires part { weight_of older.now.nice ≤ totals.now.weight }
    requires few { totals.now.weight ≤ 88761 * number_limit }
    requires small { unsigned_abs totals.now.moment ≤ 2 ^ 60 * totals.now.weight }
    ensures weight { weight_of older.now.nice + result.weight
        ≡ weight_of newer.now.nice + totals.now.weight }
    ensures moment { (older.now.v *ℤ pos (weight_of older.now.nice)) +ℤ result.moment
        ≡ (newer.now.v *ℤ pos (weight_of newer.now.nice)) +ℤ totals.now.moment }
{
    with_share(&without_share(totals, &share(older)), &share(newer))
}

/// Makes the sums right where one of the tasks gets a later virtual runtime. The weights stay, so that nothing but the moment is
/// written.
pub fn correct_moment(totals: &mut Totals, older: &Entry, newer: &Entry)
    requires small { unsigned_abs totals.old.moment ≤ 2 ^ 110 }
    requires near { unsigned_abs (newer.now.v -ℤ older.now.v) ≤ 2 ^ 40 }
    ensures weight { totals.new.weight ≡ totals.old.weight }
    ensures moment { (older.now.v *ℤ pos (weight_of older.now.nice)) +ℤ totals.new.moment
        ≡ (newer.now.v *ℤ pos (weight_of older.now.nice)) +ℤ totals.old.moment }
{
    totals.moment = aged_moment(totals, older, newer);
}

/// The sum of weight times virtual runtime after that.
fn aged_moment(totals: &Totals, older: &Entry, newer: &Entry) -> i128
    requires small { unsigned_abs totals.now.moment ≤ 2 ^ 110 }
    requires near { unsigned_abs (newer.now.v -ℤ older.now.v) ≤ 2 ^ 40 }
    ensures { (older.now.v *ℤ pos (weight_of older.now.nice)) +ℤ result
        ≡ (newer.now.v *ℤ pos (weight_of older.now.nice)) +ℤ totals.now.moment }
{
    grown(totals, product(distance(older, newer), weight(older.nice)))
}

/// The sum with so much more.
fn grown(totals: &Totals, growth: i64) -> i128
    requires small { unsigned_abs totals.now.moment ≤ 2 ^ 110 }
    ensures { result ≡ growth +ℤ totals.now.moment }
{
    totals.moment + i128::from(growth)
}

/// How far a task has aged.
fn distance(older: &Entry, newer: &Entry) -> i64
    requires { unsigned_abs (newer.now.v -ℤ older.now.v) ≤ 2 ^ 40 }
    ensures { result ≡ newer.now.v -ℤ older.now.v }
{
    newer.v - older.v
}

/// The sum of two moments.
fn sum(totals: &Totals, share: &Totals) -> i128
    requires small { unsigned_abs totals.now.moment ≤ 2 ^ 110 }
    requires light { share.now.weight ≤ 88761 }
    requires near { unsigned_abs share.now.moment ≤ 2 ^ 63 * share.now.weight }
    ensures { result ≡ share.now.moment +ℤ totals.now.moment }
{
    totals.moment + share.moment
}

/// The difference of two moments.
fn difference(totals: &Totals, share: &Totals) -> i128
    requires small { unsigned_abs totals.now.moment ≤ 2 ^ 110 }
    requires light { share.now.weight ≤ 88761 }
    requires near { unsigned_abs share.now.moment ≤ 2 ^ 63 * share.now.weight }
    ensures { totals.now.moment ≡ share.now.moment +ℤ result }
{
    totals.moment - share.moment
}
