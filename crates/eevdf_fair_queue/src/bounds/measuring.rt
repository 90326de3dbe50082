//! How far tasks are past one another's deadlines in a queue as it stands, whatever was called on it before.

ghost use Rattle.std.specs.Prelude.{◌≡◌, ◌≤ℤ◌};
ghost use Rattle.eevdf_fair_queue.specs.Bounds as bounds;
ghost use Rattle.eevdf_fair_queue.specs.Fair.{IsFair};
ghost use Rattle.eevdf_fair_queue.specs.Lateness.{lateness_bound};
ghost use Rattle.eevdf_fair_queue.specs.Measured.{beside, extremes, measured, within};

use crate::bounds::{Bounds, Mark, greater, lesser};
use eevdf_queue::laws::{every_queue, pick_is_first};
use eevdf_queue::{Entry, Queue, TaskId};

impl Bounds {
    /// Those of a queue as it stands, however it came to be so. Goes over its runnable tasks.
    pub fn of(queue: &Queue) -> Bounds
        ensures value { result ≡ measured bounds.fresh queue.now.state }
        ensures fair { IsFair queue.now.state result }
    {
        every_queue(queue);
        Bounds::fresh().within(extremes(queue))
    }

    /// Makes them those of the queue as it stands, so that a long turn of before counts for no more than is still to be seen of it. The bound
    /// of all requests is no greater then. A turn goes on. Goes over the runnable tasks.
    pub fn measure(&mut self, queue: &Queue)
        ensures bounds { self.new ≡ measured self.old queue.now.state }
        ensures fair { IsFair queue.now.state self.old → IsFair queue.now.state self.new }
        ensures no_later { IsFair queue.now.state self.old
            → lateness_bound queue.now.state self.new ≤ℤ lateness_bound queue.now.state self.old }
    {
        pick_is_first();
        every_queue(queue);
        *self = self.within(extremes(queue));
    }

    /// Those of tasks of which these are the latest virtual runtime and the earliest deadline. A turn goes on.
    fn within(self, extremes: Option<Mark>) -> Bounds
        ensures { result ≡ within self extremes }
    {
        let (furthest, longest) = match extremes {
            None => (i64::MIN, 0),
            Some(mark) => (mark.v, greater(0, mark.v.saturating_sub(mark.d))),
        };
        Bounds {
            front: i64::MIN,
            furthest,
            longest,
            turn: self.turn,
        }
    }
}

/// The latest virtual runtime of the runnable tasks, and the earliest deadline.
fn extremes(queue: &Queue) -> Option<Mark>
    ensures { result ≡ extremes queue.now.state.runnable }
{
    let mut extremes = None;
    for task in queue.runnable_tasks() {
        extremes = Some(beside(extremes, task));
    }
    extremes
}

/// The later virtual runtime and the earlier deadline.
fn beside(extremes: Option<Mark>, task: (TaskId, Entry)) -> Mark
    ensures { Some result ≡ beside extremes task }
{
    let (_, entry) = task;
    match extremes {
        None => Mark {
            v: entry.v,
            d: entry.d,
        },
        Some(mark) => Mark {
            v: greater(mark.v, entry.v),
            d: lesser(mark.d, entry.d),
        },
    }
}
