//! Laws of rebases, each the contract of a function that does nothing: what they change for a machine and its history, that turns stay
//! fair past them, and that one each day keeps a machine in range.

ghost use Rattle.eevdf_fairness.specs.LoweredMachines.{
  LoweredMachineAnswersAlike,
  RebasedHistoriesAreAlike,
  RebasesCanBeLeftOut,
  RebasesChangeNoAnswer,
};
ghost use Rattle.eevdf_fairness.specs.MachineDays.{MachinesStayInRange, OneCpuStaysInRange};
ghost use Rattle.eevdf_fairness.specs.SetupDays.{DailyHistoriesAreAlike, OpeningIsNear, SetupsStayInRange};
ghost use Rattle.eevdf_fairness.specs.RebasedTurns.{
  RebasedCpuIsFair,
  RebasedCpuIsFairAnywhere,
  RebasedTurnsAreFair,
  RebasedTurnsAreFairAnywhere,
};

/// A machine, and the same machine with the virtual times of each CPU's queue lower by a number of that CPU's own, answer every deed but
/// a rebase alike, and are lower by the same numbers afterwards, unless it is out of range on one of the two alone. So it is too where a
/// task passes between CPUs that are lowered by different numbers: what it carries is its lag, which no rebase changes.
pub fn lowered_machine_answers_alike()
    ensures { LoweredMachineAnswersAlike }
{
    eevdf_queue::laws::lowered_queue_answers_alike();
}

/// Two lists of deeds that are the same but for rebases have the same answers but for those of the rebases, on two machines of which one
/// is lower than the other, where no deed is out of range on one of them alone. The machines that they leave are the same but for the
/// numbers that the rebases were answered.
pub fn rebases_change_no_answer()
    ensures { RebasesChangeNoAnswer }
{
    lowered_machine_answers_alike();
    eevdf_queue::laws::rebased_is_lower();
}

/// So rebases can be left out: the lines of the others are their history by themselves, where no deed is out of range with the rebases
/// alone or without them alone, and each CPU's queue is lower than without them by what its rebases were answered, in all.
pub fn rebases_can_be_left_out()
    ensures { RebasesCanBeLeftOut }
{
    rebases_change_no_answer();
}

/// And so it is of two histories that were recorded from one start on, as a fleet's is: their lines are the same but for rebases where
/// their deeds are, and no deed is out of range in one of them alone.
pub fn rebased_histories_are_alike()
    ensures { RebasedHistoriesAreAlike }
{
    rebases_change_no_answer();
}

/// From a fresh start, after any turns and rebases, each task is as fair as after turns alone: a rebase changes no lag.
pub fn rebased_turns_are_fair()
    ensures { RebasedTurnsAreFair }
{
    eevdf_queue::laws::pick_is_first();
    eevdf_queue::laws::pick_of_nobody();
}

/// And so it is from any state of a queue, counted from the front, which rebases lower as they lower the virtual times.
pub fn rebased_turns_are_fair_anywhere()
    ensures { RebasedTurnsAreFairAnywhere }
{
    eevdf_queue::laws::pick_is_first();
    eevdf_queue::laws::pick_of_nobody();
}

/// So each task of a CPU is fair from a fresh start of its queue on, where of the deeds of all CPUs those that change its runnable tasks, or
/// who runs there, are its turns and rebases between them.
pub fn rebased_cpu_is_fair()
    ensures { RebasedCpuIsFair }
{
    crate::laws::steps_of_one_cpu();
    rebased_turns_are_fair();
}

/// And from any state of its queue on, counted from the front.
pub fn rebased_cpu_is_fair_anywhere()
    ensures { RebasedCpuIsFairAnywhere }
{
    crate::laws::steps_of_one_cpu();
    rebased_turns_are_fair_anywhere();
}

/// A CPU that rebases its queue once a day stays in range for ever: while of the deeds of all CPUs those that touch its queue are its
/// turns and, at the end of each day, a rebase, none of its deeds is answered that it would be out of range, and each of its rebases makes
/// the virtual time 0. So it is from a fresh start within 2^58 of the time 0 on, of at most 1024 tasks with slices of at most 100 ms, where a
/// turn runs for at most a second, and a day's turns for 86400 seconds in all. What the other CPUs do to their own queues doesn't matter,
/// but no task of this CPU may be pulled from there, and none may fall asleep, doze off or end that has its home there.
pub fn one_cpu_stays_in_range()
    ensures { OneCpuStaysInRange }
{
    eevdf_ops::laws::others_stay();
    crate::laws::days_stay_in_range();
}

/// And a machine does, all CPUs of which do so, and a fleet: in a history, recorded or not, in which the lines of each CPU are such days no
/// answer at all is that something would be out of range.
pub fn machines_stay_in_range()
    ensures { MachinesStayInRange }
{
    one_cpu_stays_in_range();
}

/// A machine opens so where the setup has at most 1024 tasks, with slices of at most 100 ms, and those of each CPU that begin runnable have
/// one start, within 2^58 of the time 0.
pub fn opening_is_near()
    ensures { OpeningIsNear }
{
    crate::laws::opening_is_fresh();
}

/// So in a history from the opening of such a setup on, as each fleet has one, in which the lines of each CPU are those of such days, no
/// answer is that something would be out of range.
pub fn setups_stay_in_range()
    ensures { SetupsStayInRange }
{
    opening_is_near();
    machines_stay_in_range();
}

/// And when such days end makes no difference: of two such histories whose deeds are the same but for rebases all other answers are the same.
pub fn daily_histories_are_alike()
    ensures { DailyHistoriesAreAlike }
{
    setups_stay_in_range();
    rebased_histories_are_alike();
}
