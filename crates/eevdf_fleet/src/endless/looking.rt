//! How a seat comes to know more of the history than its own operations show it.

ghost use Rattle.std.specs.{Prelude.◌≡◌, Prelude.◌<◌, Fn.FnOnceReturnsAt};
ghost use mathlib.Core.List.{IsPrefix};
ghost use Rattle.eevdf_ops.specs.{Programs.lines_by, Setup.cpus_of};
ghost use Rattle.eevdf_fleet.specs.{Endless.HasSeenMore, Endless.HasShown, Fleets.setup_of};

use crate::endless::fleet::Fleet;
use crate::endless::seat::Seat;
use crate::names::Names;
use crate::seen::Seen;
use eevdf_ops::CpuId;
use eevdf_queue::Queue;
use std::sync::Wait;

impl<N: Names> Fleet<N> {
    /// Locks a CPU's queue, learns the history that leaves it as it is, calls `observe` on it, and gives what that gives. So a seat can
    /// choose from whom to pull. While `observe` runs no operation on that CPU goes on, and none of the seat, which is lent. A call of
    /// another seat in it would wait for good where it needs the queue's lock, and may do so where it needs the lock of a CPU of a lower
    /// number: another thread may hold that one and wait for this one. `seen` gives the history as a value.
    pub fn look<R: Wait, T, F: FnOnce(&Queue) -> T>(
        &self,
        rt: &R,
        seat: &mut Seat<N>,
        cpu: CpuId,
        observe: F,
    ) -> T
        requires cpu { cpu < cpus_of (setup_of N.kit) }
        requires callable { F.IsAlwaysCallable observe }
        ensures seat { HasSeenMore (setup_of N.kit) seat.old seat.new }
        ensures shown { HasShown (setup_of N.kit) seat.new.seen cpu
            (λ queue. FnOnceReturnsAt F.FnOnce observe queue result) }
    {
        self.queues
            .look(rt, &mut seat.parts, &mut seat.held, cpu, observe)
    }

    /// Makes what two seats have seen one history, that goes on from what each of them had seen. At run time it does nothing.
    pub fn meet(&self, seat: &mut Seat<N>, other: &mut Seat<N>)
        ensures seat { HasSeenMore (setup_of N.kit) seat.old seat.new }
        ensures other { HasSeenMore (setup_of N.kit) other.old other.new }
        ensures same { seat.new.seen ≡ other.new.seen }
    {
        self.queues.meet(&mut seat.parts, &mut other.parts);
    }

    /// Makes what a seat has seen go on from what another has seen, too. So whatever another has seen has no line of the seat's CPU but of
    /// those that the seat has done by now. It neither waits nor takes memory, and at run time it does nothing.
    pub fn learn(&self, seat: &mut Seat<N>, seen: &mut Seen<N>)
        ensures seat { HasSeenMore (setup_of N.kit) seat.old seat.new }
        ensures seen { seen.new ≡ seen.old }
        ensures after { IsPrefix seen.old seat.new.seen }
        ensures own { IsPrefix (lines_by seat.old.cpu seen.old) seat.old.log }
    {
        self.queues.learn(&mut seat.parts, seen);
    }
}
