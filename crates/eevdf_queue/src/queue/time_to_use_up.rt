//! How long a task can run until its request is used up.

ghost use Rattle.std.specs.Prelude.{◌≡◌, ℕ, ◌*◌, ◌^◌, ◌<◌, ◌≤◌, ◌+ℤ◌, ◌-ℤ◌, int_le, nat_le, pos, true};
ghost use Rattle.eevdf_weight.specs.Charge.{charge_of};
ghost use Rattle.eevdf_queue.specs.{Moves.is_entry_in_range, Tick.is_used_up, TimeToResched.IsShortest};

use crate::entry::Entry;
use eevdf_weight::{Ns, weight};

/// The shortest tick that uses up the request of a task with this entry. `None` where no tick does.
#[tactic(auto, using(crate::proofs::ShortestTicks::by_left))]
pub fn time_to_use_up(entry: &Entry) -> Option<Ns>
    requires { is_entry_in_range entry.now ≡ true }
    ensures { IsShortest (is_used_up entry.now) result }
{
    time_to_age(left(entry), weight(entry.nice))
}

/// How far the deadline is past the virtual runtime, and 0 where it isn't.
fn left(entry: &Entry) -> u64
    requires { is_entry_in_range entry.now ≡ true }
    ensures { (by : ℕ) → int_le entry.now.d (entry.now.v +ℤ pos by) ≡ nat_le result by }
{
    if entry.d <= entry.v {
        return 0;
    }
    distance(entry).unsigned_abs()
}

/// How far the deadline is past the virtual runtime, or before it.
fn distance(entry: &Entry) -> i64
    requires { is_entry_in_range entry.now ≡ true }
    ensures { result ≡ entry.now.d -ℤ entry.now.v }
{
    entry.d - entry.v
}

/// No tick ages a task by more.
const FURTHEST: u64 = 1 << 40;

/// The shortest tick by which a weight ages so far. `None` where no tick suffices.
#[tactic(auto, using(crate::proofs::ShortestTicks::too_far))]
fn time_to_age(distance: u64, weight: u64) -> Option<Ns>
    requires weighs { 1 ≤ weight }
    requires light { weight ≤ 88761 }
    ensures { IsShortest (λ ns. nat_le distance (charge_of ns weight)) result }
{
    if distance > FURTHEST {
        return None;
    }
    Ns::new(rounded_up(distance * weight))
}

/// The 1024th part of a number, rounded up, and at least 1.
fn rounded_up(number: u64) -> u64
    requires { number ≤ 2 ^ 60 }
    ensures some { 1 ≤ result }
    ensures enough { number ≤ result * 1024 }
    ensures least { (fewer : ℕ) → 1 ≤ fewer → fewer < result → fewer * 1024 < number }
{
    if number == 0 {
        return 1;
    }
    (number + 1023) / 1024
}
