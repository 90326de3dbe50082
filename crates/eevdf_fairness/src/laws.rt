//! Laws of the turns of a queue, each the contract of a function that does nothing.

ghost use Rattle.eevdf_fairness.specs.Anywhere.{LeavingsKeepFairAnywhere, TurnsAreFairAnywhere};
ghost use Rattle.eevdf_fairness.specs.{Fair.TurnsAreFair, LeavingDeeds.DeedsLeave};
ghost use Rattle.eevdf_fairness.specs.Healing.{HealedTurnsGiveShares, LeavingsHeal, TurnsHeal};
ghost use Rattle.eevdf_fairness.specs.Joining.{
  HealedJoinKeepsFair,
  JoinIsLittleLater,
  JoinIsNear,
  JoinKeepsFair,
};
ghost use Rattle.eevdf_fairness.specs.JoiningDeeds.{DeedsJoin};
ghost use Rattle.eevdf_fairness.specs.{Days.DaysStayInRange, Keeping.TurnsKeepTasks, Opening.OpeningIsFresh};
ghost use Rattle.eevdf_fairness.specs.JoiningOthers.{DeedsJoinOthers, StartsAreLevel};
ghost use Rattle.eevdf_fairness.specs.Leavings.{LeavingsKeepFair, RunnableTasksDecide};
ghost use Rattle.eevdf_fairness.specs.Lines.{LinesTellTime, OneCpuGivesShares};
ghost use Rattle.eevdf_fairness.specs.OneCpu.{OneCpuIsFair, OneCpuIsFairAnywhere, TurnsOfOneCpu};
ghost use Rattle.eevdf_fairness.specs.OneCpuJoins.{OneCpuJoinsKeepFair};
ghost use Rattle.eevdf_fairness.specs.OneCpuShares.{ChangesGiveShares, ChangesTellTime, HealedChangesGiveShares};
ghost use Rattle.eevdf_fairness.specs.OneCpuSteps.{OneCpuJoinKeepsFair, OneCpuStaysFair, StepsOfOneCpu};
ghost use Rattle.eevdf_fairness.specs.Share.{TurnsGiveShares};

/// Turns take no task in or out, and change no nice level and no slice. So the number of tasks and their weight stay.
pub fn turns_keep_tasks()
    ensures { TurnsKeepTasks }
{}

/// However many turns are taken: no request is late by more than a constant, and no task behind or ahead by more. A turn is a pick
/// and then ticks of the task picked; before the first, all tasks stand at one virtual runtime with fresh requests.
pub fn turns_are_fair()
    ensures { TurnsAreFair }
{
    eevdf_queue::laws::pick_is_first();
    eevdf_queue::laws::pick_of_nobody();
}

/// Tasks may leave meanwhile: of those that are left no request is late by more than the same constant, and no task behind by more. Rebases
/// may stand among the turns and leavings, here and in the laws below.
pub fn leavings_keep_fair()
    ensures { LeavingsKeepFair }
{
    eevdf_queue::laws::pick_is_first();
    eevdf_queue::laws::pick_of_nobody();
}

/// A sleep and a doze that are done, and a pull that is done, at the CPU that the task is pulled from, leave the runnable tasks, who runs,
/// and the times that a rebase reads as the leaving of that task does. Where a task falls asleep at another CPU, its home, nobody leaves
/// there.
pub fn deeds_leave()
    ensures { DeedsLeave }
{}

/// Turns and leavings read of a queue the runnable tasks and who runs, and no more: from two queues that have the same ones they come to two
/// that have the same ones. Rebases read two times besides: the one that stands, where nothing is runnable, and the shift, which is why one
/// may be refused. So it doesn't matter to any of them who sleeps there.
pub fn runnable_tasks_decide()
    ensures { RunnableTasksDecide }
{}

/// From any state of a queue, whatever was done to it before: no request is late by more than the same constant, counted from the
/// front where its deadline lies before that. The front is any number that no virtual runtime is past in that state.
pub fn turns_are_fair_anywhere()
    ensures { TurnsAreFairAnywhere }
{
    eevdf_queue::laws::pick_is_first();
    eevdf_queue::laws::pick_of_nobody();
}

/// And from any state tasks may leave meanwhile. A rebase lowers the front as it lowers the virtual times.
pub fn leavings_keep_fair_anywhere()
    ensures { LeavingsKeepFairAnywhere }
{
    eevdf_queue::laws::pick_is_first();
    eevdf_queue::laws::pick_of_nobody();
}

/// Once the CPU has run long enough for the virtual time to come to the front, and for the others' turns, every request is as punctual
/// as from a fresh start, and no task is ahead or owed more than from one.
pub fn turns_heal()
    ensures { TurnsHeal }
{
    eevdf_queue::laws::pick_is_first();
    eevdf_queue::laws::pick_of_nobody();
}

/// While tasks leave, every request is punctual from the moment on in which the virtual time is past the front by the others' turns.
pub fn leavings_heal()
    ensures { LeavingsHeal }
{
    eevdf_queue::laws::pick_is_first();
    eevdf_queue::laws::pick_of_nobody();
}

/// A wake, a pull and a renice that are done let a task join the others, where others are runnable and the lag is within its limit, as
/// `Queue::sleeper` and `Parcel::lag` say of one that wakes or is pulled, and where one that wakes has no place, as `Queue::place_of` says.
pub fn deeds_join()
    ensures { DeedsJoin }
{}

/// A task that joins others, by a wake, a pull or a renice, stands past the virtual time by at most its lag limit, times the new weight of
/// all over the old one, and one; and from the virtual time with it at most its lag limit and one away.
pub fn join_is_near()
    ensures { JoinIsNear }
{}

/// It makes the others later by no more than its weight times its lag limit and one, over their weight.
pub fn join_is_little_later()
    ensures { JoinIsLittleLater }
{}

/// So after turns from a fresh start, one join, and any turns more, no request of the others is late by more than a constant, and none of
/// the others is behind by more than that and its slice. Tasks may leave before and after.
pub fn join_keeps_fair()
    ensures { JoinKeepsFair }
{
    eevdf_queue::laws::pick_is_first();
    eevdf_queue::laws::pick_of_nobody();
}

/// And so it is with the next join, once the queue has healed.
pub fn healed_join_keeps_fair()
    ensures { HealedJoinKeepsFair }
{
    eevdf_queue::laws::pick_is_first();
    eevdf_queue::laws::pick_of_nobody();
}

/// Over any stretch of turns after a fresh start, a task of weight `w` among tasks of weight `W` in all runs for `w / W` of the time
/// that the CPU runs, but for a constant and what rounding takes from the charges. Where no tick is shorter than `m` nanoseconds,
/// rounding takes less than `w` for each `m` of them.
pub fn turns_give_shares()
    ensures { TurnsGiveShares }
{
    eevdf_queue::laws::pick_is_first();
    eevdf_queue::laws::pick_of_nobody();
}

/// And so it is from any state on, once it has healed.
pub fn healed_turns_give_shares()
    ensures { HealedTurnsGiveShares }
{
    eevdf_queue::laws::pick_is_first();
    eevdf_queue::laws::pick_of_nobody();
}

/// A rebase each day keeps a queue in range, for 2^58 days and whatever its tasks weigh: where a fixed set of tasks takes turns, that is
/// picks and ticks alone, from a fresh start within 2^58 of the time 0 on, with a shift within 2^119, a turn runs for at most a second, and
/// a day's turns for 86400 seconds in all, no tick of at most a second is ever answered that it would be out of range, and each rebase makes
/// the virtual time 0.
pub fn days_stay_in_range()
    ensures { DaysStayInRange }
{
    eevdf_queue::laws::pick_is_first();
    eevdf_queue::laws::pick_of_nobody();
    eevdf_queue::laws::lowered_queue_answers_alike();
    eevdf_queue::laws::rebased_is_lower();
}

/// Where all tasks that begin runnable on a CPU have one start, its queue is a fresh start when the machine is opened.
pub fn opening_is_fresh()
    ensures { OpeningIsFresh }
{}

/// Deeds of all CPUs, of which those that touch one CPU's queue are its turns, leave that queue as the turns by themselves do.
pub fn turns_of_one_cpu()
    ensures { TurnsOfOneCpu }
{
    eevdf_ops::laws::others_stay();
}

/// So its tasks are fair from a fresh start of that queue on, whatever the other CPUs do meanwhile.
pub fn one_cpu_is_fair()
    ensures { OneCpuIsFair }
{
    eevdf_ops::laws::others_stay();
    turns_are_fair();
}

/// And they are so from any state of that queue on, counted from a front that no virtual runtime is past there.
pub fn one_cpu_is_fair_anywhere()
    ensures { OneCpuIsFairAnywhere }
{
    eevdf_ops::laws::others_stay();
    turns_are_fair_anywhere();
}

/// And deeds of all CPUs, of which those that change one CPU's runnable tasks or who runs there are its turns, sleeps and dozes of who runs
/// there, pulls from there and rebases, leave both as these steps do by themselves. What is refused, finds nothing or changes sleeping
/// tasks alone may stand anywhere among them, whoever decides it. A task that leaves in the middle of a turn counts as one that leaves after
/// it.
pub fn steps_of_one_cpu()
    ensures { StepsOfOneCpu }
{}

/// So from a fresh start of that queue on the tasks that are left there are as fair as turns and leavings keep them.
pub fn one_cpu_stays_fair()
    ensures { OneCpuStaysFair }
{
    leavings_keep_fair();
}

/// And where one task joins then, by a pull or by a wake of a task that has no place, and the CPU picks anew, the others are as fair as a
/// join leaves them.
pub fn one_cpu_join_keeps_fair()
    ensures { OneCpuJoinKeepsFair }
{
    join_keeps_fair();
}

/// A wake, a pull, a renice and a set of a runnable task that are done let it join the others, where others are runnable, as the next law
/// has it: at its placement, and by a wake so far past it as its place is, where it dozes; a set may give the request after the next one
/// another slice. Fresh starts, and a task alone, are level, as that law has it.
pub fn deeds_join_others()
    ensures joins { DeedsJoinOthers }
    ensures level { StartsAreLevel }
{}

/// However many tasks join there, by wakes, by pulls to there and again by renices and sets, also in the middle of a turn, among whatever
/// else the CPU does: of the tasks that were there all along since no virtual runtime was past any deadline no request is late by more than
/// turns of the others and what each join adds.
pub fn one_cpu_joins_keep_fair()
    ensures { OneCpuJoinsKeepFair }
{
    eevdf_queue::laws::pick_is_first();
    eevdf_queue::laws::pick_of_nobody();
}

/// The lines of these deeds tell how long the CPU and each task ran: the nanoseconds of its ticks, by their answers.
pub fn lines_tell_time()
    ensures { LinesTellTime }
{
    eevdf_ops::laws::others_stay();
}

/// And each task has its share of the time that the lines tell.
pub fn one_cpu_gives_shares()
    ensures { OneCpuGivesShares }
{
    eevdf_ops::laws::others_stay();
    turns_give_shares();
}

/// And so they do where deeds that change none of its tasks, nor who runs there, stand among those of its turns, whoever decides them.
pub fn changes_tell_time()
    ensures { ChangesTellTime }
{}

/// And each task has its share then.
pub fn changes_give_shares()
    ensures { ChangesGiveShares }
{
    turns_give_shares();
}

/// So it has from any state on, once it has healed.
pub fn healed_changes_give_shares()
    ensures { HealedChangesGiveShares }
{
    healed_turns_give_shares();
}
