//! Laws of how late requests are, each the contract of a function that does nothing.

ghost use Rattle.std.specs.Prelude.{◌≤ℤ◌};
ghost use Rattle.eevdf_fair_queue.specs.Beside.{SharesBesideAreTold};
ghost use Rattle.eevdf_fair_queue.specs.Dozers.{DozesBehind, WakeKeepsBounds};
ghost use Rattle.eevdf_fair_queue.specs.Lateness.{ArrivalsKeepBounds, NearArrivalsKeepBounds, NoneIsLaterThan};
ghost use Rattle.eevdf_fair_queue.specs.Leavings.{LeavingsKeepBounds};
ghost use Rattle.eevdf_fair_queue.specs.Owed.{SharesAreTold};

use crate::bounds::Bounds;
use crate::fair_queue::FairQueue;
use eevdf_queue::laws::{pick_is_first, pick_of_nobody};
use eevdf_queue::{Queue, TaskId};

/// Where no request is later than a number, none is later than a greater one.
pub fn none_is_later_than_more(queue: &FairQueue, by: i64, more: i64)
    requires late { NoneIsLaterThan queue.now.queue.state by }
    requires more { by ≤ℤ more }
    ensures { NoneIsLaterThan queue.now.queue.state more }
{}

/// A doze, a yield, a new beginning, another slice and a stop, and each call by which a task leaves or is put to sleep, leave the bounds of a
/// queue true. So these calls can be made of a queue with [`Bounds`](crate::Bounds) beside it as they are.
pub fn leavings_keep_bounds()
    ensures { LeavingsKeepBounds }
{}

/// A task that comes near a deadline, in order or by no more than the longest turn past it, and that isn't due before the mark, leaves the
/// bound of that deadline as it is, however it comes.
#[tactic(auto, using(crate::proofs::Arrivals::near_arrivals_keep_bounds))]
pub fn near_arrivals_keep_bounds()
    ensures { NearArrivalsKeepBounds }
{}

/// Where the bounds are true, a task that comes no further than the furthest leaves the bound of each other runnable task as it is, also where
/// it is due before the mark.
#[tactic(auto, using(crate::proofs::Arrivals::arrivals_keep_bounds))]
pub fn arrivals_keep_bounds()
    ensures { ArrivalsKeepBounds }
{}

/// Where the bounds are true, the running task that dozes off owes nothing then, and its place isn't past the furthest.
pub fn dozes_behind(queue: &Queue, bounds: Bounds, task: TaskId)
    ensures { DozesBehind queue.now.state bounds task }
{}

/// Where the bounds are true, a task that sleeps, owes nothing and has no place past the furthest leaves the bound of each runnable task as it
/// is where it wakes, and the furthest too. So a task that dozes and wakes makes no other task's bound greater, however often it does, until
/// the bounds are measured or nothing is runnable: the furthest grows by charges and by who comes past it, and a rebase lowers it as it does
/// all places, as long as 64 bits hold it.
pub fn wake_keeps_bounds(queue: &Queue, bounds: Bounds, task: TaskId)
    ensures { WakeKeepsBounds queue.now.state bounds task }
{
    pick_is_first();
    pick_of_nobody();
}

/// What tasks are owed of the CPU since a mark, as each call leaves it. A tick that charges adds to the share of each runnable task its weight
/// over the load, times the nanoseconds, exactly, and to what whoever ran was served the nanoseconds. A rebase, a yield, and each call that
/// leaves the runnable tasks as they are change nothing of it; any other changes nothing of it for the tasks that stay runnable at the
/// virtual runtime and the nice level that they had.
#[tactic(auto, using(crate::proofs::Owed::shares_are_told))]
pub fn shares_are_told()
    ensures { SharesAreTold }
{}

/// The same where [`Shares`](crate::Shares) lie beside a queue and are told of each tick that charges and of each rebase: any other call
/// changes nothing of what a task is owed that stays runnable at the virtual runtime and the nice level that it had.
pub fn shares_beside_are_told()
    ensures { SharesBesideAreTold }
{}
