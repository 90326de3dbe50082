ghost use Rattle.std.specs.Prelude.{◌≡◌};
ghost use Rattle.std.specs.FinMap as map;
ghost use Rattle.eevdf_queue.specs.State.{empty_state};
ghost use Rattle.eevdf_fair_queue.specs.Bounds as bounds;
ghost use Rattle.eevdf_fair_queue.specs.Fair.{IsFair};
ghost use Rattle.eevdf_fair_queue.specs.ShareClock as clock;

mod carrying;
mod changes;
mod lateness;
mod leavings;
mod measuring;
mod shares;
mod turns;

use crate::bounds::Bounds;
use crate::share_clock::ShareClock;
use eevdf_queue::Queue;
use std::marker::Model;

/// A run queue with the bounds that its calls keep. It is a [`Queue`], and each of its calls answers and leaves what that one's call
/// of the same name does; what it lends can be read and not changed.
#[derive(Drop)]
pub struct FairQueue {
    queue: Queue,
    bounds: Bounds,
    clock: ShareClock,
}

impl Model for FairQueue {
    ghost use Rattle.eevdf_fair_queue.specs.Fair.{FairView, IsFair, fair_view_code};

    ghost Value = { FairView };

    ghost coded = { fair_view_code };

    ghost view = { λ f. record { queue = f.queue; bounds = f.bounds; clock = f.clock } };

    ghost invariant = { λ f. IsFair f.queue.state f.bounds };
}

impl FairQueue {
    /// A queue without tasks, at the virtual time 0. Takes no memory.
    pub fn open() -> FairQueue
        ensures queue { result.queue ≡ record { state = empty_state; pick_depth = 0; depths = map.empty } }
        ensures bounds { result.bounds ≡ bounds.fresh }
        ensures clock { result.clock ≡ clock.begun }
    {
        FairQueue {
            queue: Queue::open(),
            bounds: Bounds::fresh(),
            clock: ShareClock::start(),
        }
    }

    /// The queue, to be read.
    pub fn queue(&self) -> &Queue
        ensures { result.now ≡ self.now.queue }
    {
        &self.queue
    }

    /// What is kept of how far tasks can be past one another's deadlines.
    pub fn bounds(&self) -> Bounds
        ensures value { result ≡ self.now.bounds }
        ensures fair { IsFair self.now.queue.state result }
    {
        self.bounds
    }
}
