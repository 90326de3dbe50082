//! How late a request can be.

ghost use Rattle.std.specs.Prelude.{◌≡◌, IfSome};
ghost use Rattle.std.specs.Option.{option_map};
ghost use Rattle.std.specs.FinMap as map;
ghost use Rattle.eevdf_queue.specs.Sums.{total_weight};
ghost use Rattle.eevdf_fair_queue.specs.Bounds as bounds;
ghost use Rattle.eevdf_fair_queue.specs.Fair.{IsFair};
ghost use Rattle.eevdf_fair_queue.specs.InTime.{NoneIsLaterInTime, in_time};
ghost use Rattle.eevdf_fair_queue.specs.Lateness.{IsLateBy, NoneIsLaterThan, lateness_bound};

use crate::bounds::{Bounds, lesser};
use eevdf_queue::laws::{every_queue, pick_is_first, pick_of_nobody};
use eevdf_queue::{Queue, TaskId};

impl Bounds {
    /// By how much the virtual time can be past the deadline of a runnable task, at most: in virtual time, of which a CPU goes through
    /// `1024 * ns / W` in `ns` nanoseconds, where `W` is the load. No less than the longest turn. `None` exactly where the task isn't runnable
    /// here.
    pub fn lateness_bound_of(&self, queue: &Queue, task: TaskId) -> Option<i64>
        ensures value { result ≡ option_map (λ e. bounds.late_by self.now e.d)
            (map.get queue.now.state.runnable task) }
        ensures late { IsFair queue.now.state self.now → IfSome result (λ by. IsLateBy queue.now.state task by) }
    {
        every_queue(queue);
        let entry = queue.entry(task)?;
        Some(self.late_by(entry.d))
    }

    /// By how much the virtual time can be past the deadline of any runnable task, at most: in virtual time. It is reckoned at the lesser
    /// one of the virtual time and the pick's deadline, before which no deadline is. 0 where nothing is runnable.
    pub fn lateness_bound(&self, queue: &Queue) -> i64
        ensures value { result ≡ lateness_bound queue.now.state self.now }
        ensures late { IsFair queue.now.state self.now → NoneIsLaterThan queue.now.state result }
    {
        pick_is_first();
        pick_of_nobody();
        every_queue(queue);
        let Some(first) = queue.peek() else {
            return 0;
        };
        let Some(entry) = queue.entry(first) else {
            return 0;
        };
        let time = queue.floor_time();
        self.late_by(lesser(time, entry.d))
    }

    /// The same in nanoseconds, rounded up: in so many at most the CPU goes through that virtual time, at the load that the queue has now. It
    /// isn't how long a request has been due: the load may have been another one meanwhile, and charges are rounded down.
    pub fn lateness_bound_in_time(&self, queue: &Queue) -> u128
        ensures value { result ≡ in_time (lateness_bound queue.now.state self.now)
            (total_weight queue.now.state.runnable) }
        ensures late { IsFair queue.now.state self.now → NoneIsLaterInTime queue.now.state result }
    {
        in_time(self.lateness_bound(queue), queue.load())
    }
}

/// The nanoseconds that take the virtual time so far, at a load, rounded up: 0 for a negative number.
fn in_time(by: i64, load: u64) -> u128
    ensures { result ≡ in_time by load }
{
    let Ok(by) = u64::try_from(by) else {
        return 0;
    };
    (u128::from(by) * u128::from(load) + 1023) / 1024
}
