//! The drain that names the wakes, and says whether the task that runs is to be preempted after them.

ghost use Rattle.std.specs.Prelude.{◌≡◌, ◌≢◌, ◌≤◌, ◌↔◌, ◌+◌, length, vec_capacity, IsTrue};
ghost use Rattle.eevdf_ops.specs.{Machine.queue_at, Setup.cpus_of};
ghost use Rattle.eevdf_fleet.specs.Claims.{told};
ghost use Rattle.eevdf_fleet.specs.Drains.{AreListed, ArePartsDrained, IsPickedAnew};
ghost use Rattle.eevdf_fleet.specs.Fleets.{AreKnown, IsRoomFor, setup_of};

use crate::drains::Drained;
use crate::locks::LockLeave;
use crate::names::Names;
use crate::run_queues::RunQueues;
use crate::seat_parts::SeatParts;
use crate::wake_list::DrainedWake;
use std::sync::Wait;

/// What a drain did that named its wakes.
#[derive(Clone, Copy, PartialEq, Eq, Debug, Drop)]
pub struct ListedDrain {
    /// How many requests were taken, and how many of these woke their task.
    pub drained: Drained,
    /// Whether a pick after the last wake would let another task run than the one that runs. Where nobody runs: whether it would find a
    /// task.
    pub resched: bool,
}

impl<N: Names> RunQueues<N> {
    /// The drain of a seat's CPU, with each wake put into a list. At the end, with the queue still locked, the seat learns the history
    /// that leaves it.
    pub(crate) fn drain_into<R: Wait>(
        &self,
        rt: &R,
        seat: &mut SeatParts<N>,
        held: &mut LockLeave,
        wakes: &mut Vec<DrainedWake>,
    ) -> ListedDrain
        requires room { IsRoomFor N.kit.terms.quota (cpus_of (setup_of N.kit)) seat.old.seat.room }
        requires list { length wakes.old.items + cpus_of (setup_of N.kit) ≤ vec_capacity wakes.old }
        ensures drained { ArePartsDrained seat.old seat.new result.drained }
        ensures few { result.drained.taken ≤ cpus_of (setup_of N.kit) }
        ensures listed { AreListed seat.old.seat seat.new.seat wakes.old.items wakes.new.items }
        ensures capacity { vec_capacity wakes.new ≡ vec_capacity wakes.old }
        ensures known { AreKnown N.kit.terms seat.new }
        ensures resched { IsTrue result.resched
            ↔ IsPickedAnew (queue_at (told N.kit.terms seat.new.seen) seat.old.seat.cpu) }
    {
        let (mut guard, mut leave) = self.hold(rt, held, seat.cpu());
        let drained = self.drain_all(rt, seat, &mut guard, &mut leave, wakes);
        self.see(seat, &mut guard);
        let resched = guard.queue.peek() != guard.queue.running();
        ListedDrain { drained, resched }
    }
}
