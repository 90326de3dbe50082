//! Virtual times lowered by a number.

ghost use Rattle.std.specs.Prelude.{◌≡◌, ◌≤◌, ◌^◌, ◌-ℤ◌, ◌*ℤ◌, pos, neg_ℤ, unsigned_abs};
ghost use Rattle.eevdf_queue.specs.Rebase.{lowered_entry};

use crate::entry::Entry;
use crate::tree::totals::Totals;
use eevdf_weight::wide_product;

/// An entry with its virtual runtime and its deadline lower by a number.
pub fn lowered(entry: &Entry, by: i64) -> Entry
    requires runtime { unsigned_abs entry.now.v ≤ 2 ^ 61 }
    requires deadline { unsigned_abs entry.now.d ≤ 2 ^ 61 }
    requires small { unsigned_abs by ≤ 2 ^ 60 }
    ensures { result ≡ lowered_entry by entry.now }
{
    Entry {
        v: earlier(entry.v, by),
        d: earlier(entry.d, by),
        ..*entry
    }
}

/// A virtual time lower by a number.
pub fn earlier(time: i64, by: i64) -> i64
    requires near { unsigned_abs time ≤ 2 ^ 61 }
    requires small { unsigned_abs by ≤ 2 ^ 60 }
    ensures { result ≡ time -ℤ by }
{
    time - by
}

/// The number that takes back what a number has lowered.
pub fn opposite(by: i64) -> i64
    requires { unsigned_abs by ≤ 2 ^ 60 }
    ensures value { result ≡ neg_ℤ by }
    ensures small { unsigned_abs result ≤ 2 ^ 60 }
{
    -by
}

/// The sums over tasks that are lowered. The weights stay, so that nothing but the moment is written.
pub fn lower_moment(totals: &mut Totals, by: i64)
    requires few { totals.old.weight ≤ 2 ^ 40 }
    requires near { unsigned_abs totals.old.moment ≤ 2 ^ 110 }
    requires small { unsigned_abs by ≤ 2 ^ 60 }
    ensures weight { totals.new.weight ≡ totals.old.weight }
    ensures moment { totals.new.moment ≡ totals.old.moment -ℤ (by *ℤ pos totals.old.weight) }
{
    totals.moment = less(totals, wide_product(by, totals.weight));
}

fn less(totals: &Totals, share: i128) -> i128
    requires near { unsigned_abs totals.now.moment ≤ 2 ^ 110 }
    requires small { unsigned_abs share ≤ 2 ^ 110 }
    ensures { result ≡ totals.now.moment -ℤ share }
{
    totals.moment - share
}
