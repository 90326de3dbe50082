//! Laws of stretches in which one task stays and others doze and wake, each the contract of a function that does nothing.

ghost use Rattle.eevdf_dozes.specs.Ahead.{FreshStartIsAheadOfNobody, NobodyEverGains, NobodyIsEverFarAhead};
ghost use Rattle.eevdf_dozes.specs.Apart.{LeastWeightIs15, NobodyGainsLater, NobodyIsEverFarApart};
ghost use Rattle.eevdf_dozes.specs.Bounds.{BoundsAreKept, FreshStartIsWithin};
ghost use Rattle.eevdf_dozes.specs.Calls.{
  CallsAreChanges,
  CallsPutNonePast,
  CallsTouchOne,
  DozesAreSleeps,
  OthersMayBeTouched,
  SleepersAreAtRest,
};
ghost use Rattle.eevdf_dozes.specs.Gains.{FreshStartIsLevel, NobodyGains, NoneRunsFarPast, TogetherNobodyGains};
ghost use Rattle.eevdf_dozes.specs.Histories.{CallsAreStretch, CallsBeginWithPick, NoneIsEverPastDue};
ghost use Rattle.eevdf_dozes.specs.OneCpu.{DeedsAreCalls};
ghost use Rattle.eevdf_dozes.specs.OneCpuHistories.{HistoriesGoOnSo};
ghost use Rattle.eevdf_dozes.specs.OneCpuLater.{
  BoundsAreKeptOnCpu,
  NobodyEverGainsOnCpu,
  NobodyGainsLaterOnCpu,
  NobodyIsEverFarAheadOnCpu,
  NobodyIsEverFarApartOnCpu,
};
ghost use Rattle.eevdf_dozes.specs.OneCpuShares.{WhoSleepsHasNoMoreOnCpu, WhoStaysHasItsShareOnCpu};
ghost use Rattle.eevdf_dozes.specs.OneCpuStretches.{
  NobodyGainsOnCpu,
  NoneRunsFarPastOnCpu,
  OneCpuHasStretch,
  RequestsStayPunctualOnCpu,
  TogetherNobodyGainsOnCpu,
};
ghost use Rattle.eevdf_dozes.specs.PlacesOfSleepers.{OnlyDozesLeavePlaces, PlacesStayOfSleepers};
ghost use Rattle.eevdf_dozes.specs.Punctual.{LightestTurnIsLongest, RequestsStayPunctual};
ghost use Rattle.eevdf_dozes.specs.Shares.{TheyHaveTheCpu, WhoSleepsHasNoMore, WhoStaysHasItsShare};

/// From any state on in which no task is past its own deadline: while one task stays runnable, no other that counts comes further than a
/// turn past the deadline that the first has in the end, however it dozes and wakes, and whatever all others do.
pub fn none_runs_far_past()
    ensures { NoneRunsFarPast }
{
    eevdf_queue::laws::pick_is_first();
    eevdf_queue::laws::pick_of_nobody();
}

/// So nobody gains by sleeping: where no yield has made the request of the task that stays longer, the other is charged for no more than
/// that one, its request, one turn, and what the other was behind it at first.
pub fn nobody_gains()
    ensures { NobodyGains }
{
    eevdf_queue::laws::pick_is_first();
    eevdf_queue::laws::pick_of_nobody();
}

/// And several of them, none of which was behind the one that stays, are together charged likewise for no more than their weight times what
/// that one is charged for and its request, and a turn for each of them.
pub fn together_nobody_gains()
    ensures { TogetherNobodyGains }
{
    eevdf_queue::laws::pick_is_first();
    eevdf_queue::laws::pick_of_nobody();
}

/// A request is never later than one turn of the lightest task that counts, however many tasks doze and wake: where no task is past the
/// deadline of the one that stays by more than the charge of such a turn, and no change puts one past where one of them stood, none ever
/// is, and so the virtual time isn't while all runnable tasks count.
pub fn requests_stay_punctual()
    ensures { RequestsStayPunctual }
{
    eevdf_queue::laws::pick_is_first();
    eevdf_queue::laws::pick_of_nobody();
}

/// The charge of a turn at the least weight is enough for each nice level.
pub fn lightest_turn_is_longest()
    ensures { LightestTurnIsLongest }
{}

/// Calls of a queue, a doze and its wake among them, touch one task alone, and so do two one after the other that touch the same one.
pub fn calls_touch_one()
    ensures { CallsTouchOne }
{}

/// A call that touches a task that doesn't count, and isn't the one that stays, is what a stretch allows.
pub fn others_may_be_touched()
    ensures { OthersMayBeTouched }
{}

/// And so are a doze of any task but the one that stays, and a wake of one that dozes; a yield and another slice of any task; a stop of
/// whoever runs; and a rebase.
pub fn calls_are_changes()
    ensures { CallsAreChanges }
{}

/// Nor does any of these put a task that counts past where one of them stood; of a wake that holds while all runnable tasks count.
pub fn calls_put_none_past()
    ensures { CallsPutNonePast }
{}

/// In every queue a task that sleeps is neither runnable nor does it run.
pub fn sleepers_are_at_rest()
    ensures { SleepersAreAtRest }
{}

/// So calls one after the other are a stretch where those of the tasks that count are dozes, wakes, yields and other slices, and the
/// task that stays neither dozes nor wakes; and while all runnable tasks count, they put none past where one stood.
pub fn calls_are_stretch()
    ensures { CallsAreStretch }
{
    eevdf_queue::laws::pick_is_first();
}

/// And with a pick before them they are what each law of a stretch here asks.
pub fn calls_begin_with_pick()
    ensures { CallsBeginWithPick }
{
    eevdf_queue::laws::pick_is_first();
}

/// A task that stays has its share of the time that it and others run together, whatever these doze, where none of them was behind it at
/// first and no yield has made its request longer: it lacks no more than its request, but for its share of that, and its share of a turn of
/// each of the others, and what rounding takes.
pub fn who_stays_has_its_share()
    ensures { WhoStaysHasItsShare }
{
    eevdf_queue::laws::pick_is_first();
    eevdf_queue::laws::pick_of_nobody();
}

/// And one that dozes beside tasks that stay, whose requests no yield has made longer, and was behind none of them at first, has no more
/// than its share of the time that they run together and of the slices of those, but for what is theirs of a turn and what rounding takes.
pub fn who_sleeps_has_no_more()
    ensures { WhoSleepsHasNoMore }
{
    eevdf_queue::laws::pick_is_first();
    eevdf_queue::laws::pick_of_nobody();
}

/// Whatever is called, of whichever tasks: no runnable task is ever past its own deadline where none was at first, as in an empty queue.
pub fn none_is_ever_past_due()
    ensures { NoneIsEverPastDue }
{}

/// Where all runnable tasks stand at one virtual runtime with fresh requests, none is past its own deadline, and none is behind another.
pub fn fresh_start_is_level()
    ensures { FreshStartIsLevel }
{}

/// But for its place, a doze of a task that owes nothing leaves the queue as a sleep does, and the wake of a task that has no place puts it
/// at its placement.
pub fn dozes_are_sleeps()
    ensures { DozesAreSleeps }
{}

/// A place is kept of tasks that sleep here alone, as in every queue: where it was so before a call it is so afterwards.
pub fn places_stay_of_sleepers()
    ensures { PlacesStayOfSleepers }
{}

/// So a task has no place once it has left, has come, sleeps otherwise than by a doze, begins anew or has woken.
pub fn only_dozes_leave_places()
    ensures { OnlyDozesLeavePlaces }
{}

/// Where whoever runs at a tick stands once in a list, the tasks of the list run together for as long as the CPU does.
pub fn they_have_the_cpu()
    ensures { TheyHaveTheCpu }
{}

/// At any moment of a history in which one task stays, and all others that are ever runnable doze and wake, that task is ahead of no
/// runnable one by more than the longest request, a turn of its own, and a setback of each of the others: two of their slices, charged at
/// their weight and at its own. The history begins with a pick, before which that task is ahead of no runnable one by more than the longest
/// request, no runnable one is past its own deadline, and those that count and sleep doze.
pub fn nobody_is_ever_far_ahead()
    ensures { NobodyIsEverFarAhead }
{
    eevdf_queue::laws::pick_is_first();
    eevdf_queue::laws::pick_of_nobody();
}

/// So from any later moment on, however long the history was until then, each of the others is charged for no more than that task, its
/// request where no yield has made it longer, a turn of the other, and that much.
pub fn nobody_ever_gains()
    ensures { NobodyEverGains }
{
    eevdf_queue::laws::pick_is_first();
    eevdf_queue::laws::pick_of_nobody();
}

/// Calls keep within bounds of requests, slices and credits while nobody yields, no task gets a longer slice than its longest, and no task
/// becomes runnable that doesn't count.
pub fn bounds_are_kept()
    ensures { BoundsAreKept }
{}

/// Where all runnable tasks stand at one virtual runtime with fresh requests, they are within such bounds where their slices are.
pub fn fresh_start_is_within()
    ensures { FreshStartIsWithin }
{}

/// And there no task is ahead of another.
pub fn fresh_start_is_ahead_of_nobody()
    ensures { FreshStartIsAheadOfNobody }
{}

/// At any moment of a history in which all tasks that are ever runnable may doze, and which never leaves the queue empty, no runnable task
/// is ahead of another by more than the longest request, a turn of the lightest task that counts, and a setback of each task beside that
/// one. At first no task that counts stands past a mark, no runnable one is behind the mark by more than the longest request, or past its
/// own deadline, and those that count and sleep doze.
pub fn nobody_is_ever_far_apart()
    ensures { NobodyIsEverFarApart }
{
    eevdf_queue::laws::pick_is_first();
    eevdf_queue::laws::pick_of_nobody();
}

/// Whichever tasks count, none of them weighs less than 15.
pub fn least_weight_is_15()
    ensures { LeastWeightIs15 }
{}

/// So from any pick of it on, and for as long as one task stays then, each of the others is charged for no more than that task, its request
/// where no yield has made it longer, a turn of the other, and a constant: that much, a turn of the task that stays, and the setbacks
/// beside it.
pub fn nobody_gains_later()
    ensures { NobodyGainsLater }
{
    eevdf_queue::laws::pick_is_first();
    eevdf_queue::laws::pick_of_nobody();
}

/// What deeds of a machine do to the queue of one of its CPUs, from any state on, is a list of calls of it, in order: a doze on the CPU
/// that is the task's home is a doze of the queue, a tick of the CPU is a tick, and so with a pick, a wake, a yield and a rebase. Any other
/// deed by which a task comes, leaves or changes there touches that task alone, and so does a doze away from home. What is refused is no
/// call, or one that changes nothing. The calls charge to each task what the CPU's ticks do, and for the time that the lines tell.
pub fn deeds_are_calls()
    ensures { DeedsAreCalls }
{}

/// So from a pick of the CPU on, deeds of all CPUs are a stretch of its queue, of which each law of stretches speaks. One task stays there;
/// those that count come and go there by dozes at home and by wakes alone, and those of them that sleep there at first doze. Tasks that
/// don't count may do anything, and so may all other CPUs, but pull those that count.
pub fn one_cpu_has_stretch()
    ensures { OneCpuHasStretch }
{
    deeds_are_calls();
    calls_begin_with_pick();
}

/// On such a CPU no task that counts comes further than a turn past the deadline that the one that stays has in the end.
pub fn none_runs_far_past_on_cpu()
    ensures { NoneRunsFarPastOnCpu }
{
    one_cpu_has_stretch();
    none_runs_far_past();
}

/// So nobody gains there by sleeping: where no yield has made the request of the task that stays longer, a task that counts is charged for
/// no more there than that one, its request, one turn, and what the task that counts was behind it at first.
pub fn nobody_gains_on_cpu()
    ensures { NobodyGainsOnCpu }
{
    one_cpu_has_stretch();
    nobody_gains();
}

/// And several of them, none of which was behind, are likewise charged together for no more there than their weight times what the one that
/// stays is charged for and its request, and a turn for each of them.
pub fn together_nobody_gains_on_cpu()
    ensures { TogetherNobodyGainsOnCpu }
{
    one_cpu_has_stretch();
    together_nobody_gains();
}

/// While all runnable tasks of the CPU count, the request of the task that stays is never later there than one turn of the lightest, where
/// no task was past its deadline by more at first.
pub fn requests_stay_punctual_on_cpu()
    ensures { RequestsStayPunctualOnCpu }
{
    one_cpu_has_stretch();
    requests_stay_punctual();
}

/// And by the lines of a history a task that stays has its share of the time that it and others run together on the CPU, whatever these
/// doze, where none of them was behind it at first and no yield has made its request longer: but for a constant, and for a part of the time
/// that rounding takes where no tick of the CPU is too short.
pub fn who_stays_has_its_share_on_cpu()
    ensures { WhoStaysHasItsShareOnCpu }
{
    one_cpu_has_stretch();
    who_stays_has_its_share();
}

/// And by the lines of a history a task that dozes beside tasks that stay on the CPU, whose requests no yield has made longer, and was
/// behind none of them at first, has no more there than its share of the time that they run together and of the slices of those: but for
/// what is theirs of a turn, and for a part of its time that rounding takes where no tick of the CPU is too short.
pub fn who_sleeps_has_no_more_on_cpu()
    ensures { WhoSleepsHasNoMoreOnCpu }
{
    one_cpu_has_stretch();
    who_sleeps_has_no_more();
}

/// Deeds of all CPUs keep the queue of one within bounds of requests, slices and credits where the calls do that they come to there.
pub fn bounds_are_kept_on_cpu()
    ensures { BoundsAreKeptOnCpu }
{
    deeds_are_calls();
    bounds_are_kept();
}

/// At any moment of a history in which one task stays on a CPU, and all others that are ever runnable there doze and wake, that task is
/// ahead of no runnable one there by more than the longest request, a turn of its own, and a setback of each of the others.
pub fn nobody_is_ever_far_ahead_on_cpu()
    ensures { NobodyIsEverFarAheadOnCpu }
{
    deeds_are_calls();
    nobody_is_ever_far_ahead();
}

/// So from any later moment on, however long the history was until then, each of the others is charged for no more there than that task,
/// its request where no yield has made it longer, a turn of the other, and that much.
pub fn nobody_ever_gains_on_cpu()
    ensures { NobodyEverGainsOnCpu }
{
    deeds_are_calls();
    nobody_ever_gains();
}

/// At any moment of a history in which all tasks that are ever runnable on a CPU may doze, and which never leaves its queue empty, no
/// runnable task is ahead of another there by more than the longest request, a turn of the lightest task, and a setback of each task.
pub fn nobody_is_ever_far_apart_on_cpu()
    ensures { NobodyIsEverFarApartOnCpu }
{
    deeds_are_calls();
    nobody_is_ever_far_apart();
}

/// So from any pick of the CPU on, and for as long as one task stays there then, each of the others is charged for no more there than that
/// task, its request where no yield has made it longer, a turn of the other, and a constant.
pub fn nobody_gains_later_on_cpu()
    ensures { NobodyGainsLaterOnCpu }
{
    deeds_are_calls();
    nobody_gains_later();
}

/// From each moment of a history of a setup on, as any seat of a fleet has seen one, the deeds are what these laws of a CPU ask, from the
/// machine on that the lines before leave; and the lines from then on are those of which the laws speak.
pub fn histories_go_on_so()
    ensures { HistoriesGoOnSo }
{}
