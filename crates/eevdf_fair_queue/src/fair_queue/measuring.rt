//! A fair queue of any queue, and bounds that fall again.

ghost use Rattle.std.specs.Prelude.{◌≡◌, ◌≤ℤ◌};
ghost use Rattle.eevdf_fair_queue.specs.Bounds as bounds;
ghost use Rattle.eevdf_fair_queue.specs.Lateness.{lateness_bound};
ghost use Rattle.eevdf_fair_queue.specs.Measured.{measured};
ghost use Rattle.eevdf_fair_queue.specs.ShareClock as clock;

use crate::bounds::Bounds;
use crate::fair_queue::FairQueue;
use crate::share_clock::ShareClock;
use eevdf_queue::Queue;

impl FairQueue {
    /// A fair queue of any queue, with its bounds as it stands. Goes over the runnable tasks.
    pub fn of(queue: Queue) -> FairQueue
        ensures queue { result.queue ≡ queue }
        ensures bounds { result.bounds ≡ measured bounds.fresh queue.state }
        ensures clock { result.clock ≡ clock.begun }
    {
        let bounds = Bounds::of(&queue);
        let clock = ShareClock::start();
        FairQueue {
            queue,
            bounds,
            clock,
        }
    }

    /// Makes the bounds those of the queue as it stands, so that a long turn of before counts for no more than is still to be seen of it. The
    /// bound of all requests is no greater then. Goes over the runnable tasks.
    pub fn measure(&mut self)
        ensures queue { self.new.queue ≡ self.old.queue }
        ensures bounds { self.new.bounds ≡ measured self.old.bounds self.old.queue.state }
        ensures clock { self.new.clock ≡ self.old.clock }
        ensures no_later { lateness_bound self.new.queue.state self.new.bounds
            ≤ℤ lateness_bound self.old.queue.state self.old.bounds }
    {
        self.bounds.measure(&self.queue);
    }
}
