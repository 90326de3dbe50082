//! How the nice level of a task changes.

ghost use Rattle.std.specs.Prelude.{◌≡◌, ◌*◌, ◌≤◌, ◌^◌, unsigned_abs, Some, true};
ghost use Rattle.std.specs.FinMap as map;
ghost use Rattle.eevdf_weight.specs.Limits as limits;
ghost use Rattle.eevdf_queue.specs.{Lag.is_lag, Leaving.leave};
ghost use Rattle.eevdf_queue.specs.Placing as placing;
ghost use Rattle.eevdf_queue.specs.Renice as renices;
ghost use Rattle.eevdf_queue.specs.Sums as sums;

use crate::answers::ReniceAnswer;
use crate::entry::Entry;
use crate::lag::{kept_lag, rescaled_lag};
use crate::queue::Queue;
use crate::queue::placing::placed_entry;
use crate::sleeper::Sleeper;
use crate::task_id::TaskId;
use crate::tree::totals::{Totals, time_over};
use eevdf_weight::Nice;

impl Queue {
    /// Gives a runnable task another nice level. It joins again as if it had left, with the lag that it keeps times its
    /// old weight over its new one, and runs afterwards exactly where it ran before; the virtual runtime that it had is
    /// the time that stands. `NotHere` exactly where the task isn't runnable here; `Range` exactly where its new virtual
    /// runtime or deadline would be out of range. Nothing has changed where the answer isn't `Reniced`.
    pub fn renice(&mut self, task: TaskId, nice: Nice) -> ReniceAnswer
        ensures answer { result ≡ (renices.renice self.old.state task nice).0 }
        ensures after { self.new.state ≡ (renices.renice self.old.state task nice).1 }
        ensures pick_depth { self.new.pick_depth ≡ self.old.pick_depth }
    {
        let Some(entry) = self.runnable.get(task) else {
            return ReniceAnswer::NotHere;
        };
        self.keeps_in_range(task, &entry);
        let Some(reniced) = self.reniced(task, &entry, nice) else {
            return ReniceAnswer::Range;
        };
        self.runnable.set(task, &entry, reniced);
        self.base = entry.v;
        ReniceAnswer::Reniced
    }

    /// The entry of a task that is runnable here under another nice level. `None` exactly where it would be out of range.
    fn reniced(&self, task: TaskId, entry: &Entry, nice: Nice) -> Option<Entry>
        requires here { map.get self.now.state.runnable task ≡ Some entry.now }
        requires in_range { limits.is_in_range entry.now.v ≡ true }
        ensures { result
            ≡ placing.placed_entry (leave self.now.state task)
            (renices.reniced self.now.state entry.now nice) }
    {
        let others = self.runnable.totals_without(task, entry);
        let sleeper = self.as_sleeper(entry, nice);
        placed_entry(time_after(&others, entry), others.weight, &sleeper)
    }

    /// What a task of the queue brings along when it joins again under another nice level.
    fn as_sleeper(&self, entry: &Entry, nice: Nice) -> Sleeper
        requires { limits.is_in_range entry.now.v ≡ true }
        ensures value { result ≡ renices.reniced self.now.state entry.now nice }
        ensures limited { is_lag result.lag result.nice result.slice ≡ true }
    {
        let lag = kept_lag(self.floor_time(), entry);
        Sleeper {
            lag: rescaled_lag(lag, entry, nice),
            nice,
            slice: entry.slice,
        }
    }

    /// Learns that the virtual runtime of a task that is here is in range.
    #[tactic(auto, using(crate::proofs::Bounds::range_v))]
    fn keeps_in_range(&self, task: TaskId, entry: &Entry)
        requires { map.get self.now.state.runnable task ≡ Some entry.now }
        ensures { limits.is_in_range entry.now.v ≡ true }
    {
        self.runnable.keeps();
    }
}

/// The virtual time over tasks with these sums, when the task with this entry has left them.
fn time_after(others: &Totals, entry: &Entry) -> i64
    requires left { limits.is_in_range entry.now.v ≡ true }
    requires few { others.now.weight ≤ 2 ^ 39 }
    requires small { unsigned_abs others.now.moment ≤ 2 ^ 60 * others.now.weight }
    ensures value { result ≡ sums.time_over others.now.weight others.now.moment entry.now.v }
    ensures in_range { limits.is_in_range result ≡ true }
{
    time_over(others, entry.v)
}
