//! Laws of the machine and its deeds, each the contract of a function that does nothing.

ghost use Rattle.eevdf_ops.specs.{Given.TasksAreAsLastGiven, Given.TasksStayAsGiven, Outcome.machine_of};
ghost use Rattle.eevdf_ops.specs.{PartsHistory.HistoryByParts};
ghost use Rattle.eevdf_ops.specs.Laws.{DeedsKeepPlaces, PullLevels, PullLeavesSome};
ghost use Rattle.eevdf_ops.specs.Machine as machine;
ghost use Rattle.eevdf_ops.specs.PartsLaws.{
  ApartDeedsCommute,
  OthersStay,
  PartsMakeTheWhole,
  TheWholeHasParts,
  TouchedDecide,
  WakeIsLocal,
};
ghost use Rattle.eevdf_ops.specs.{Places.AreCpus, Places.IsPlaced, Setup.cpus_of, Setup.homes_of};

use crate::setup::Setup;
use crate::solo::Solo;

/// At every moment each task of the setup stands in one place, runnable or asleep on one CPU, and a sleeping
/// task at its home. No other number stands anywhere.
pub fn every_task_in_one_place(solo: &Solo)
    ensures { IsPlaced solo.now.homes (machine_of solo.now.queues) }
{
    solo.keeps();
}

/// At the start each task stands in one place, and a sleeping one at its home, which is a CPU of the setup.
pub fn start_is_placed(setup: &Setup)
    ensures placed { IsPlaced (homes_of setup.now) (machine.start setup.now) }
    ensures cpus { AreCpus (cpus_of setup.now) (homes_of setup.now) }
{
    let _tasks = setup.task_specs();
}

/// Each allowed deed keeps each task in one place, and a sleeping one at its home.
pub fn deeds_keep_places()
    ensures { DeedsKeepPlaces }
{}

/// On each machine that deeds lead to from the start, a task, runnable or asleep, has the nice level and the slice that the setup
/// gives it, each unless one of the deeds is to give it another: a begin and a set are to give both, a renice the level.
pub fn tasks_stay_as_given()
    ensures { TasksStayAsGiven }
{}

/// On each machine that allowed deeds lead to from the start, a task, runnable or asleep, has the nice level and the slice that it was
/// given last: by the setup, or by a deed that was done, as its answer says. A begin and a set gave both, a renice the level.
pub fn tasks_are_as_last_given(setup: &Setup)
    ensures { TasksAreAsLastGiven setup.now }
{
    let _tasks = setup.task_specs();
}

/// A pull that takes a task lowers the absolute difference of the two CPUs' loads.
pub fn pull_levels()
    ensures { PullLevels }
{}

/// A pull that takes a task leaves a runnable task at its source.
pub fn pull_leaves_some()
    ensures { PullLeavesSome }
{}

/// A deed leaves the queue of each CPU as it is that it doesn't touch.
pub fn others_stay()
    ensures { OthersStay }
{}

/// Where the queue of each touched CPU by itself agrees with an answer and with what moves between queues,
/// the deed gives that answer, and each queue afterwards is what its own part says.
pub fn parts_make_the_whole()
    ensures { PartsMakeTheWhole }
{}

/// Every queue agrees with the answer of a deed and with what it moves.
pub fn the_whole_has_parts()
    ensures { TheWholeHasParts }
{}

/// Where the queue of each CPU by itself agrees with a list of deeds, their answers and what moves, that is
/// the history of the deeds, and each queue that it leaves is the one replayed by itself.
pub fn history_by_parts()
    ensures { HistoryByParts }
{}

/// A deed depends on the queues alone that it touches: on machines that agree there it has the same answer, and
/// leaves the same queues there.
pub fn touched_queues_decide()
    ensures { TouchedDecide }
{}

/// Two deeds that touch no common queue have the same answers, and leave the same machine, in either order.
pub fn apart_deeds_commute()
    ensures { ApartDeedsCommute }
{}

/// A wake depends on the queue of its CPU alone, and changes it alone.
pub fn wake_is_local()
    ensures { WakeIsLocal }
{}
