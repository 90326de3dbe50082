//! How late a request can be.

ghost use Rattle.std.specs.Prelude.{◌≡◌, IfSome};
ghost use Rattle.std.specs.Option.{option_map};
ghost use Rattle.std.specs.FinMap as map;
ghost use Rattle.eevdf_queue.specs.Sums.{total_weight};
ghost use Rattle.eevdf_fair_queue.specs.Bounds as bounds;
ghost use Rattle.eevdf_fair_queue.specs.InTime.{NoneIsLaterInTime, in_time};
ghost use Rattle.eevdf_fair_queue.specs.Lateness.{IsLateBy, NoneIsLaterThan, lateness_bound};

use crate::fair_queue::FairQueue;
use eevdf_queue::TaskId;

impl FairQueue {
    /// By how much the virtual time can be past the deadline of a runnable task, at most: in virtual time, of which a CPU goes through
    /// `1024 * ns / W` in `ns` nanoseconds, where `W` is the load. No less than the longest turn. `None` exactly where the task isn't runnable
    /// here.
    pub fn lateness_bound_of(&self, task: TaskId) -> Option<i64>
        ensures value { result ≡ option_map (λ e. bounds.late_by self.now.bounds e.d)
            (map.get self.now.queue.state.runnable task) }
        ensures late { IfSome result (λ by. IsLateBy self.now.queue.state task by) }
    {
        self.bounds.lateness_bound_of(&self.queue, task)
    }

    /// By how much the virtual time can be past the deadline of any runnable task, at most: in virtual time. It is reckoned at the lesser
    /// one of the virtual time and the pick's deadline, before which no deadline is. 0 where nothing is runnable.
    pub fn lateness_bound(&self) -> i64
        ensures value { result ≡ lateness_bound self.now.queue.state self.now.bounds }
        ensures late { NoneIsLaterThan self.now.queue.state result }
    {
        self.bounds.lateness_bound(&self.queue)
    }

    /// The same in nanoseconds, rounded up: in so many at most the CPU goes through that virtual time, at the load that the queue has now. It
    /// isn't how long a request has been due: the load may have been another one meanwhile, and charges are rounded down.
    pub fn lateness_bound_in_time(&self) -> u128
        ensures value { result ≡ in_time (lateness_bound self.now.queue.state self.now.bounds)
            (total_weight self.now.queue.state.runnable) }
        ensures late { NoneIsLaterInTime self.now.queue.state result }
    {
        self.bounds.lateness_bound_in_time(&self.queue)
    }
}
