//! What a task lacks of its share of the CPU.

ghost use Rattle.std.specs.Prelude.{◌≡◌, IfSome};
ghost use Rattle.eevdf_fair_queue.specs.Owed.{IsOwed, LacksNoMore, no_share, share_bound, share_mark};

use crate::fair_queue::FairQueue;
use crate::share_clock::ShareMark;
use eevdf_queue::TaskId;
use eevdf_weight::weight;

impl FairQueue {
    /// Marks this moment for a runnable task: from now on it has had nothing of its share of the CPU, and lacks nothing. `None` where the
    /// task isn't runnable here, or the clock has left its range.
    pub fn share_mark(&self, task: TaskId) -> Option<ShareMark>
        ensures value { result ≡ share_mark self.now task }
        ensures owed { IfSome result (λ mark. IsOwed self.now task mark no_share 0) }
    {
        let Some(entry) = self.queue.entry(task) else {
            return None;
        };
        self.clock.mark(entry.v, self.queue.load())
    }

    /// How many nanoseconds a runnable task lacks of its share of the CPU since a mark, at most. Its share of each nanosecond that the CPU
    /// was charged is its weight over the load of then, however short the ticks were. It holds while the task stays runnable here and is
    /// placed anew by no call: after a renice or a set, also to its own level, it is marked again. `None` where it isn't runnable here, or
    /// the clock or the mark is out of its range.
    pub fn share_bound(&self, task: TaskId, mark: ShareMark) -> Option<u128>
        ensures value { result ≡ share_bound self.now task mark }
        ensures owed { IfSome result (LacksNoMore self.now task mark) }
    {
        let Some(entry) = self.queue.entry(task) else {
            return None;
        };
        let load = self.queue.load();
        self.clock
            .lack_since(mark, entry.v, weight(entry.nice), load)
    }
}
