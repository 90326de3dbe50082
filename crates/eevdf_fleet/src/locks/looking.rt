//! How a seat comes to know more of the history than its own operations show it.

ghost use Rattle.std.specs.Prelude.{◌≡◌, ◌<◌};
ghost use Rattle.std.specs.Fn.{FnOnceReturnsAt};
ghost use mathlib.Core.List.{IsPrefix};
ghost use Rattle.eevdf_ops.specs.{Machine.queue_at, Setup.cpus_of};
ghost use Rattle.eevdf_fleet.specs.{Claims.told, Endless.HasShown};
ghost use Rattle.eevdf_fleet.specs.Fleets.{AreKnown, PartsSeeMore, setup_of};

use crate::locks::lock_leave::LockLeave;
use crate::names::Names;
use crate::run_queues::RunQueues;
use crate::seat_parts::SeatParts;
use crate::seen::Seen;
use crate::slot::Slot;
use atomic_table::Badge;
use eevdf_ops::CpuId;
use eevdf_queue::Queue;
use std::mem;
use std::sync::Wait;

impl<N: Names> RunQueues<N> {
    /// Takes the lock of a CPU's queue, learns the history that leaves it, and gives what `observe` gives of it.
    pub(crate) fn look<R: Wait, T, F: FnOnce(&Queue) -> T>(
        &self,
        rt: &R,
        seat: &mut SeatParts<N>,
        held: &mut LockLeave,
        cpu: CpuId,
        observe: F,
    ) -> T
        requires cpu { cpu < cpus_of (setup_of N.kit) }
        requires callable { F.IsAlwaysCallable observe }
        ensures seat { PartsSeeMore seat.old seat.new }
        ensures known { AreKnown N.kit.terms seat.new }
        ensures shown { HasShown (setup_of N.kit) seat.new.seen cpu
            (λ queue. FnOnceReturnsAt F.FnOnce observe queue result) }
    {
        let (mut guard, _leave) = self.hold(rt, held, cpu);
        self.see(seat, &mut guard);
        observe(&guard.queue)
    }

    /// Learns the history that leaves a queue whose lock is held.
    pub(crate) fn see(&self, seat: &mut SeatParts<N>, slot: &mut Slot<N>)
        ensures seat { PartsSeeMore seat.old seat.new }
        ensures known { AreKnown N.kit.terms seat.new }
        ensures queue { queue_at (told N.kit.terms seat.new.seen) slot.old.number
            ≡ slot.old.queue.state }
        ensures slot { slot.new ≡ slot.old }
    {
        let own = mem::replace(&mut seat.log.token, Badge::blank());
        let kept = mem::replace(&mut slot.token, Badge::blank());
        let token = self.board.look(self.board.join(kept, own));
        let (own, kept) = self.board.split_two(token);
        seat.log.token = own;
        slot.token = kept;
    }

    /// Makes what two seats have seen one history, that goes on from what each of them had seen.
    pub(crate) fn meet(&self, seat: &mut SeatParts<N>, other: &mut SeatParts<N>)
        ensures seat { PartsSeeMore seat.old seat.new }
        ensures other { PartsSeeMore other.old other.new }
        ensures same { seat.new.seen ≡ other.new.seen }
        ensures seat_known { AreKnown N.kit.terms seat.new }
        ensures other_known { AreKnown N.kit.terms other.new }
    {
        let own = mem::replace(&mut seat.log.token, Badge::blank());
        let others = mem::replace(&mut other.log.token, Badge::blank());
        let token = self.board.look(self.board.join(others, own));
        let (own, others) = self.board.split_shared(token);
        seat.log.token = own;
        other.log.token = others;
    }

    /// Makes what a seat has seen go on from what another has seen, too.
    pub(crate) fn learn(&self, seat: &mut SeatParts<N>, seen: &mut Seen<N>)
        ensures seat { PartsSeeMore seat.old seat.new }
        ensures known { AreKnown N.kit.terms seat.new }
        ensures seen { seen.new ≡ seen.old }
        ensures after { IsPrefix seen.old seat.new.seen }
    {
        let Seen {
            token: others,
            names: _,
        } = self.copy(seen);
        let own = mem::replace(&mut seat.log.token, Badge::blank());
        seat.log.token = self.board.look(self.board.join(others, own));
    }
}
