//! What tasks lack of their shares, beside any queue.

ghost use Rattle.std.specs.Prelude.{◌≡◌, ◌≤◌, IfSome};
ghost use Rattle.eevdf_queue.specs.Sums.{total_weight};
ghost use Rattle.eevdf_fair_queue.specs.Beside as beside;
ghost use Rattle.eevdf_fair_queue.specs.Beside.{IsOwedOf, LacksNoMoreOf};
ghost use Rattle.eevdf_fair_queue.specs.Owed.{no_share};

use crate::share_clock::{ShareClock, ShareMark};
use eevdf_queue::{Queue, TaskId};
use eevdf_weight::{Ns, weight};
use std::marker::Model;

/// What is kept beside a queue to tell what its tasks lack of their shares of the CPU. It is told of each tick that charges and of each
/// rebase, and of no other call: whatever else is called of the queue in between, it goes by the load that each tick finds.
#[derive(Drop)]
pub struct Shares {
    clock: ShareClock,
    /// The load that the clock goes by, that of the last tick; 1 before the first.
    load: u64,
}

impl Model for Shares {
    ghost use Rattle.std.specs.Prelude.{◌≤◌};
    ghost use Rattle.eevdf_fair_queue.specs.Beside.{SharesView, shares_view_code};

    ghost Value = { SharesView };

    ghost coded = { shares_view_code };

    ghost view = { λ s. record { clock = s.clock; load = s.load } };

    ghost invariant = { λ s. 1 ≤ s.load };
}

impl Shares {
    /// Those of a queue that was charged for nothing yet.
    pub fn start() -> Shares
        ensures { result ≡ beside.fresh_shares }
    {
        Shares {
            clock: ShareClock::start(),
            load: 1,
        }
    }

    /// Goes on by a tick that charged for so many nanoseconds, at the load that the queue has.
    pub fn charge(&mut self, ns: Ns, queue: &Queue)
        requires { 1 ≤ total_weight queue.now.state.runnable }
        ensures { self.new ≡ beside.charged_at self.old ns (total_weight queue.now.state.runnable) }
    {
        let load = queue.load();
        self.clock.reload(self.load, load);
        self.load = load;
        self.clock.charge(ns, queue);
    }

    /// All virtual times of the queue were lowered by a number.
    pub fn lower(&mut self, by: i64)
        ensures { self.new ≡ beside.shares_lowered self.old by }
    {
        self.clock.lower(by);
    }

    /// Marks this moment for a runnable task: from now on it has had nothing of its share of the CPU, and lacks nothing. `None` where the
    /// task isn't runnable here, or the clock has left its range.
    pub fn share_mark(&self, queue: &Queue, task: TaskId) -> Option<ShareMark>
        ensures value { result ≡ beside.mark_beside self.now queue.now.state task }
        ensures owed { IfSome result (λ mark. IsOwedOf self.now queue.now.state task mark no_share 0) }
    {
        let Some(entry) = queue.entry(task) else {
            return None;
        };
        self.clock.mark(entry.v, self.load)
    }

    /// How many nanoseconds a runnable task lacks of its share of the CPU since a mark, at most, as [`FairQueue::share_bound`]
    /// (crate::FairQueue::share_bound) tells it. `None` where the task isn't runnable here, or the clock or the mark is out of its range.
    pub fn share_bound(&self, queue: &Queue, task: TaskId, mark: ShareMark) -> Option<u128>
        ensures value { result ≡ beside.lack_beside self.now queue.now.state task mark }
        ensures owed { IfSome result (LacksNoMoreOf self.now queue.now.state task mark) }
    {
        let Some(entry) = queue.entry(task) else {
            return None;
        };
        self.clock
            .lack_since(mark, entry.v, weight(entry.nice), self.load)
    }
}
