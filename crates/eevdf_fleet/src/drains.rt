//! How the requests that were posted to a CPU are decided.

ghost use Rattle.std.specs.Prelude.{◌≡◌, ◌≤◌, ◌<◌, IfNone, IfSome, None};
ghost use Rattle.eevdf_ops.specs.Numbers.{most_cpus};
ghost use Rattle.eevdf_ops.specs.Setup.{cpus_of};
ghost use Rattle.eevdf_fleet.specs.Drains.{ArePartsDrained, AreTakenBy, PartsTaken, counted, oldest_own};
ghost use Rattle.eevdf_fleet.specs.Fleets.{IsRoomFor, PartsLooked, setup_of};

use crate::call::Call;
use crate::gate::Gate;
use crate::locks::{JournalLeave, LockLeave};
use crate::names::Names;
use crate::rings::Request;
use crate::run_queues::RunQueues;
use crate::seat_parts::SeatParts;
use crate::slot::Slot;
use crate::wake_list::{DrainedWake, Unlisted, WakeList};
use eevdf_ops::{Answer, CpuId};
use std::sync::Wait;

/// What a drain did: how many requests it took, and how many of these woke their task.
#[derive(Clone, Copy, PartialEq, Eq, Debug, Drop)]
pub struct Drained {
    /// How many requests were taken.
    pub taken: usize,
    /// How many of these have the answer `Woken`.
    pub woken: usize,
}

impl<N: Names> RunQueues<N> {
    /// The drain of a seat's CPU.
    pub(crate) fn drain<R: Wait, G: Gate>(
        &self,
        call: &Call<'_, R, G>,
        seat: &mut SeatParts<N>,
        held: &mut LockLeave,
    ) -> Drained
        requires { IsRoomFor N.kit.terms.quota (cpus_of (setup_of N.kit)) seat.old.seat.room }
        ensures drained { ArePartsDrained seat.old seat.new result }
        ensures few { result.taken ≤ cpus_of (setup_of N.kit) }
    {
        let (mut guard, mut leave) = self.hold(call.rt, held, seat.cpu());
        call.gate.inside(seat.cpu(), call.number);
        // How many CPUs there may be is said by the type's invariant, of which a function knows that reads a field.
        let _cpus = self.locks.len();
        self.drain_all(call.rt, seat, &mut guard, &mut leave, &mut Unlisted)
    }

    /// Goes through the senders in ascending order, and decides one request of each that is seen to have any. What it decided goes into
    /// the list.
    pub(crate) fn drain_all<R: Wait, L: WakeList>(
        &self,
        rt: &R,
        seat: &mut SeatParts<N>,
        slot: &mut Slot<N>,
        leave: &mut JournalLeave<'_>,
        wakes: &mut L,
    ) -> Drained
        requires number { slot.old.number ≡ seat.old.seat.cpu }
        requires cpu { seat.old.seat.cpu < cpus_of (setup_of N.kit) }
        requires room { IsRoomFor N.kit.terms.quota (cpus_of (setup_of N.kit)) seat.old.seat.room }
        requires list { cpus_of (setup_of N.kit) ≤ L.room wakes.old }
        ensures drained { ArePartsDrained seat.old seat.new result }
        ensures few { result.taken ≤ cpus_of (setup_of N.kit) }
        ensures listed { AreTakenBy (λ wakes_of. L.has_taken wakes.old wakes_of wakes.new) seat.old.seat seat.new.seat }
        ensures number { slot.new.number ≡ slot.old.number }
    {
        let mut drained = Drained { taken: 0, woken: 0 };
        for sender in 0..self.locks.len() {
            if let Some(wake) = self.drain_one(rt, seat, slot, leave, CpuId::numbered(sender)) {
                drained = counted(drained, wake.answer);
                wakes.take(wake);
            }
        }
        drained
    }

    /// Takes the oldest request of a sender, if there is one, and decides it.
    fn drain_one<R: Wait>(
        &self,
        rt: &R,
        seat: &mut SeatParts<N>,
        slot: &mut Slot<N>,
        leave: &mut JournalLeave<'_>,
        sender: CpuId,
    ) -> Option<DrainedWake>
        requires number { slot.old.number ≡ seat.old.seat.cpu }
        requires sender { sender < cpus_of (setup_of N.kit) }
        requires room { IsRoomFor N.kit.terms.quota 1 seat.old.seat.room }
        ensures some { IfSome result (λ wake. PartsTaken seat.old seat.new sender wake) }
        ensures none { IfNone result (PartsLooked seat.old seat.new) }
        ensures none_own { IfNone result (sender ≡ seat.old.seat.cpu → oldest_own seat.old.seat ≡ None) }
        ensures number { slot.new.number ≡ slot.old.number }
    {
        let request = seat.consumers.take(&mut seat.producers, sender.index())?;
        let Request {
            task,
            token,
            lead: _,
        } = request;
        let answer = self.wake_on_one(rt, &mut seat.log, slot, leave, task, sender, token);
        Some(DrainedWake {
            task,
            sender,
            answer,
        })
    }
}

/// What a drain did, with one request more that was answered so.
fn counted(drained: Drained, answer: Answer) -> Drained
    requires taken { drained.taken < most_cpus }
    requires woken { drained.woken < most_cpus }
    ensures { result ≡ counted drained answer }
{
    let woken = match answer {
        Answer::Woken => drained.woken + 1,
        _ => drained.woken,
    };
    Drained {
        taken: drained.taken + 1,
        woken,
    }
}
