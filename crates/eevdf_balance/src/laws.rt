//! Laws of pulls and of where tasks are, each the contract of a function that does nothing.
//!
//! Those of idle and crowded CPUs ask nothing of the machine: not that the setup allows the deeds, and nothing of weights, nor of who runs.
//! Ipanema (Lepers and others, EuroSys 2020) proves of balancing in rounds that after some rounds no core is idle while another has two
//! tasks; here it is said of histories, without rounds. Where pulls are counted, each task stands in one place, and deeds are allowed.

ghost use Rattle.std.specs.Prelude.{◌+◌, ◌-◌, ◌*◌};
ghost use Rattle.eevdf_balance.specs.AfterLastPull.{
  BalancedRefusesCandidate,
  HalfAfterLastPull,
  RefusalsStay,
};
ghost use Rattle.eevdf_balance.specs.Crowds.{LinesTellTasks};
ghost use Rattle.eevdf_balance.specs.Excuses.{RefusalIsExcused, RefusalIsExcusedInHistory, StaleLookIsExcused};
ghost use Rattle.eevdf_balance.specs.HalfShare.{BalancedGivesAtLeast, BalancedGivesAtMost};
ghost use Rattle.eevdf_balance.specs.OncePerTurn.{PulledOncePerTurn};
ghost use Rattle.eevdf_balance.specs.Refusals.{IdlePullTakes, LonePullIsRefused};
ghost use Rattle.eevdf_balance.specs.{Runs.PulledRuns, Searches.SearchTells};
ghost use Rattle.eevdf_balance.specs.Squares.{PullLowersSquares, PullsAreFew};
ghost use Rattle.eevdf_balance.specs.Sweeps.{
  NoneIdlesBesideCrowded,
  OneSweepConserves,
  OwnLinesTellIdle,
  TryTells,
};
ghost use Rattle.eevdf_balance.specs.FailedPulls.{FailedPullsCanBeLeftOut};

use eevdf_queue::laws::{pick_is_first, pick_of_nobody};

/// After any deeds a CPU has at most the runnable tasks that it had and those that came by the lines of these deeds, and it had at most
/// those that it has and those that went. A task comes by a wake that is answered *woken* and by a pull of the CPU's own that is answered
/// *pulled*; it goes by a sleep or a doze that is answered *slept*, by an end that is answered *ended*, and by another CPU's pull.
pub fn lines_tell_tasks()
    ensures { LinesTellTasks }
{}

/// A pull by an idle CPU from a crowded one is answered with the task that the source offers, whatever the tasks weigh and whoever runs,
/// or with *range* where that can't be placed.
pub fn idle_pull_takes()
    ensures { IdlePullTakes }
{}

/// A pull from a CPU that has one runnable task or none is answered *nothing* or *balanced*, whoever pulls.
pub fn lone_pull_is_refused()
    ensures { LonePullIsRefused }
{}

/// An idle CPU pulls, and is answered *nothing* or *balanced*. If after some deeds its source is crowded, a task has come there by one of
/// them.
pub fn refusal_is_excused()
    ensures { RefusalIsExcused }
{}

/// The same of a history: a CPU that is crowded at its end has got a task since a CPU that had nothing tried it and was refused.
pub fn refusal_is_excused_in_history()
    ensures { RefusalIsExcusedInHistory }
{}

/// A source is crowded, as a look may show. If after some deeds an idle CPU pulls from it and is refused, a task has gone from there by
/// one of them.
pub fn stale_look_is_excused()
    ensures { StaleLookIsExcused }
{}

/// An idle CPU pulls, and is refused. Its source is crowded never again for as long as tasks come only to CPUs that have nothing: by
/// their own pulls, and by wakes there.
pub fn one_sweep_conserves()
    ensures { OneSweepConserves }
{}

/// In a history a CPU that has nothing has tried each other CPU and was refused. Where no task has come to any of them since it was
/// tried, none is crowded.
pub fn none_idles_beside_crowded()
    ensures { NoneIdlesBesideCrowded }
{}

/// In a history a CPU that had nothing tried another one, and took no task: that one had one task at most then, or the answer was *range*.
pub fn try_tells()
    ensures { TryTells }
{}

/// A CPU that had nothing still has nothing when a history has gone on, if by the lines of its own since then no task has come. So a seat's
/// own log tells it, whatever other CPUs do.
pub fn own_lines_tell_idle()
    ensures { OwnLinesTellIdle }
{}

/// A CPU had nothing at some moment of a history, and its own lines since then are pulls that took no task. Then it tried another one, and
/// took none: that one had one task at most then, or the answer was *range*. So of each CPU of which `find_work` of a fleet tells that it
/// was tried.
pub fn search_tells()
    ensures { SearchTells }
{}

/// An idle CPU pulls a task. A pick there runs that task, if meanwhile no task has come to the CPU, and none has slept or ended there:
/// nobody can pull it away, since a CPU with one task gives none.
pub fn pulled_runs()
    ensures { PulledRuns }
{
    pick_is_first();
    pick_of_nobody();
}

/// Where each pull that takes a task is by a CPU that has nothing, and the next deed of that CPU is a pick, a task is pulled at most once
/// for each time that it is picked, and once more: so it can't be pulled from CPU to CPU without a turn.
pub fn pulled_once_per_turn()
    ensures { PulledOncePerTurn }
{
    pick_is_first();
    pick_of_nobody();
}

/// A pull that takes a task lowers the sum of the squares of all loads by twice the task's weight times what the source is still loaded
/// more than the CPU with the task, so by 30 at least. Loads are sums of weights, and the least weight is 15.
pub fn pull_lowers_squares()
    ensures { PullLowersSquares 30 }
{}

/// In a history of ticks, picks, yields, rebases and pulls, from a machine on which each task stands in one place, 30 times the pulls that
/// take a task, and the sum of the squares of the loads at the end, are at most that sum at first. So while no task comes, goes or changes
/// its weight, pulls that take one come to an end, whoever pulls from whom.
pub fn pulls_are_few()
    ensures { PullsAreFew 30 }
{}

/// Where the least loaded CPU of n would take neither of two tasks of a CPU, since with either it would be loaded no less, each task of
/// that CPU has there at least `(n + 1) / 2n`, which is more than half, of the share that it would have on an ideal machine of n CPUs: one
/// that runs all tasks at once, in proportion to their weights, but none on more than one CPU.
pub fn balanced_gives_half()
    ensures { BalancedGivesAtLeast (λ n. n + 1) (λ n. 2 * n) }
{}

/// And where it would take neither of two tasks of each crowded CPU, no task has more than `(2n - 1) / n`, which is less than twice, of its
/// ideal share.
pub fn balanced_gives_none_twice()
    ensures { BalancedGivesAtMost (λ n. 2 * n - 1) (λ n. n) }
{}

/// A pull that is answered *balanced* refuses the candidate of its source: with it the CPU would be loaded no less than the source is.
pub fn balanced_refuses_candidate()
    ensures { BalancedRefusesCandidate }
{}

/// After the last pull that takes a task, while there are ticks, picks, yields, rebases and pulls alone, what a CPU was refused stays
/// refused: where the least loaded CPU was answered *balanced* by a source while one task was the candidate there, and again while another
/// one was, it would take neither of the two at the end.
pub fn refusals_stay()
    ensures { RefusalsStay }
{}

/// So half of the ideal share along a history: each task of that source has at the end at least `(n + 1) / 2n` of its ideal share.
pub fn half_after_last_pull()
    ensures { HalfAfterLastPull }
{}

/// A pull that takes no task changes nothing. So such pulls can be left out of a history: the other deeds have the same answers without
/// them, and leave the same machine.
pub fn failed_pulls_can_be_left_out()
    ensures { FailedPullsCanBeLeftOut }
{}
