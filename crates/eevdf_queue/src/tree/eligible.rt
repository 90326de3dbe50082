ghost use Rattle.std.specs.Prelude.{◌≡◌, ◌*◌, ◌≤◌, ◌^◌, pos, ◌+ℤ◌, ◌*ℤ◌, int_le, unsigned_abs};
ghost use Rattle.eevdf_queue.specs.Pick.{is_eligible_at};

use crate::task::Task;
use crate::tree::least::Least;
use crate::tree::totals::Totals;
use eevdf_weight::wide_product;

/// The sums over tasks, and the number after their moment: whether a number is below that one takes less to find out than
/// whether it is at most the moment.
#[derive(Drop)]
pub struct Threshold {
    pub weight: u64,
    pub moment: i128,
    pub next: i128,
    ghost is_next: { next ≡ moment +ℤ pos 1 },
}

impl Threshold {
    /// Of these sums.
    pub fn of(totals: &Totals) -> Threshold
        requires small { unsigned_abs totals.now.moment ≤ 2 ^ 110 }
        ensures weight { result.weight ≡ totals.now.weight }
        ensures moment { result.moment ≡ totals.now.moment }
    {
        Threshold {
            weight: totals.weight,
            moment: totals.moment,
            next: totals.moment + 1,
        }
    }
}

/// Whether a task is eligible among tasks with these sums.
#[tactic(auto, using(crate::proofs::Signed::moment_compared))]
pub fn is_task_eligible(totals: &Threshold, task: &Task) -> bool
    requires { totals.now.weight ≤ 2 ^ 40 }
    ensures { result ≡ is_eligible_at totals.now.weight totals.now.moment task.now.entry }
{
    wide_product(task.entry.v, totals.weight) < totals.next
}

/// Whether the least virtual runtime is eligible among tasks with these sums.
#[tactic(auto, using(crate::proofs::Signed::moment_compared))]
pub fn is_least_eligible(totals: &Threshold, least: &Least) -> bool
    requires { totals.now.weight ≤ 2 ^ 40 }
    ensures { result ≡ int_le (least.now.runtime *ℤ pos totals.now.weight) totals.now.moment }
{
    wide_product(least.runtime, totals.weight) < totals.next
}
