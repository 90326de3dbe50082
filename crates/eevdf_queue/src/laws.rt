//! Laws of the model of a queue, each the contract of a function that does nothing.

ghost use Rattle.eevdf_queue.specs.Laws.{AreSumsSmall, LagsBalance, PickIsFirst, PickOfNobody, SecondPickChangesNothing, SomeTaskIsEligible};
ghost use Rattle.eevdf_queue.specs.Kept.{IsKept};
ghost use Rattle.eevdf_queue.specs.LoweredQueues.{LoweredQueueAnswersAlike, RebasedIsLower};

use crate::queue::Queue;

/// The weighted lags of the runnable tasks add up to 0: the sum of `w * (S - v * W)` over them, where `W` is
/// the sum of their weights and `S` the sum of `w * v`.
#[tactic(auto, using(crate::proofs::Mean::lags_balance))]
pub fn lags_balance()
    ensures { LagsBalance }
{}

/// Where some task is runnable, some task is eligible.
#[tactic(auto, using(crate::proofs::Mean::some_task_is_eligible))]
pub fn some_task_is_eligible()
    ensures { SomeTaskIsEligible }
{}

/// What every queue keeps: whoever runs is runnable, no task is both runnable and asleep, only a task that sleeps has a place,
/// no runnable task is past its own deadline, numbers are below 1024, virtual runtimes, deadlines and the virtual time are in range,
/// lags are within their limits, and what all rebases have answered is at most 2^120 either way.
pub fn every_queue(queue: &Queue)
    ensures { IsKept queue.now.state }
{
    queue.keeps();
}

/// A task that is picked is eligible, and no eligible task comes before it.
#[tactic(auto, using(crate::proofs::Picked::pick_is_first))]
pub fn pick_is_first()
    ensures { PickIsFirst }
{}

/// No task is picked exactly where none is runnable.
#[tactic(auto, using(crate::proofs::Picked::pick_of_nobody))]
pub fn pick_of_nobody()
    ensures { PickOfNobody }
{}

/// A second pick with nothing between them leaves a queue as the first left it, with the number that `pick_steps` gives.
#[tactic(auto, using(crate::proofs::Picked::second_pick_changes_nothing))]
pub fn second_pick_changes_nothing()
    ensures { SecondPickChangesNothing }
{}

/// A queue and the same queue with all virtual times lower by a number, as [`Queue::rebase`] leaves it, answer every call alike,
/// but for that number in virtual times and for the answer that something would be out of range. The same ticks use the running
/// task's request up, so [`Queue::time_to_resched`] answers alike too.
pub fn lowered_queue_answers_alike()
    ensures { LoweredQueueAnswersAlike }
{}

/// The queue that [`Queue::rebase`] leaves where it can make the virtual time 0 is the same queue, lower by what was its virtual time.
#[tactic(auto, using(crate::proofs::LoweredQueues::rebased_is_lower))]
pub fn rebased_is_lower()
    ensures { RebasedIsLower }
{}

/// How large the sums of every queue can be: where `W` is the sum of the weights and `S` the sum of `w * v`,
/// `W` is at most 88761 * 1024, and `S` and each `v * W` are below 2^88, far within 128 bits.
pub fn sums_are_small(queue: &Queue)
    ensures { AreSumsSmall queue.now.state.runnable }
{
    queue.sums_are_small();
}
