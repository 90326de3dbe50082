//! How a deed is done on the queues whose locks are held, and its line committed before they are given back.

ghost use Rattle.std.specs.Prelude.{◌≡◌, ◌≢◌, ◌<◌, [], true};
ghost use Rattle.eevdf_ops.specs.{Parts.decider};
ghost use Rattle.eevdf_ops.specs.Setup.{allows, cpus_of, homes_of};
ghost use Rattle.eevdf_fleet.specs.Fleets.{HasCommitted, HasWritten, IsRoomFor, setup_of};
ghost use Rattle.eevdf_fleet.specs.{Board.IsToken, Board.claims_of, Board.posts_of, PostClaims.IsAsked};
ghost use Rattle.eevdf_fleet.specs.TouchedQueues.{IsAcross, IsLocal, IsNoWake};

use crate::board::Token;
use crate::call::Call;
use crate::gate::Gate;
use crate::line_commits::{change, said_both};
use crate::locks::{JournalLeave, LockLeave};
use crate::names::Names;
use crate::run_queues::RunQueues;
use crate::seat_log::SeatLog;
use crate::seat_parts::SeatParts;
use crate::slot::Slot;
use atomic_table::Badge;
use eevdf_ops::{Answer, CpuId, Deed, Line, LocalAct, Transfer};
use eevdf_queue::TaskId;
use std::mem;
use std::sync::Wait;

impl<N: Names> RunQueues<N> {
    /// Does a deed of the seat's CPU that isn't a wake, by its act, which touches the CPU's queue alone.
    #[inline(always)]
    pub(crate) fn own<R: Wait, G: Gate>(
        &self,
        call: &Call<'_, R, G>,
        seat: &mut SeatParts<N>,
        held: &mut LockLeave,
        deed: &Deed,
        act: LocalAct,
    ) -> Answer
        requires local { IsLocal (homes_of (setup_of N.kit)) deed.now act }
        requires own { decider deed.now ≡ seat.old.seat.cpu }
        requires no_wake { IsNoWake deed.now }
        requires allowed { allows (setup_of N.kit) deed.now ≡ true }
        requires room { IsRoomFor N.kit.terms.quota 1 seat.old.seat.room }
        ensures { HasCommitted seat.old seat.new (record { deed = deed.now; answer = result }) }
    {
        let (mut guard, mut leave) = self.hold(call.rt, held, seat.cpu());
        call.gate.inside(seat.cpu(), call.number);
        self.done_on_one(call, &mut seat.log, &mut guard, &mut leave, deed, act)
    }

    /// Does a deed of the seat's CPU by its act, which touches the CPU's queue and that of another CPU.
    pub(crate) fn across<R: Wait, G: Gate>(
        &self,
        call: &Call<'_, R, G>,
        seat: &mut SeatParts<N>,
        held: &mut LockLeave,
        deed: &Deed,
        other: CpuId,
        transfer: Transfer,
    ) -> Answer
        requires across { IsAcross (homes_of (setup_of N.kit)) deed.now other transfer }
        requires own { decider deed.now ≡ seat.old.seat.cpu }
        requires no_wake { IsNoWake deed.now }
        requires apart { other ≢ seat.old.seat.cpu }
        requires there { other < cpus_of (setup_of N.kit) }
        requires allowed { allows (setup_of N.kit) deed.now ≡ true }
        requires room { IsRoomFor N.kit.terms.quota 1 seat.old.seat.room }
        ensures { HasCommitted seat.old seat.new (record { deed = deed.now; answer = result }) }
    {
        let (mut guard, mut away, mut leave) = self.hold_both(call.rt, held, seat.cpu(), other);
        call.gate.inside(seat.cpu(), call.number);
        self.done_on_two(
            call,
            &mut seat.log,
            &mut guard,
            &mut away,
            &mut leave,
            deed,
            transfer,
        )
    }

    /// Does a deed by its act on the one queue that this touches, whose lock is held, and commits its line.
    #[inline(always)]
    fn done_on_one<R: Wait, G: Gate>(
        &self,
        call: &Call<'_, R, G>,
        log: &mut SeatLog<N>,
        slot: &mut Slot<N>,
        leave: &mut JournalLeave<'_>,
        deed: &Deed,
        act: LocalAct,
    ) -> Answer
        requires number { slot.old.number ≡ log.old.cpu }
        requires local { IsLocal (homes_of (setup_of N.kit)) deed.now act }
        requires own { decider deed.now ≡ log.old.cpu }
        requires no_wake { IsNoWake deed.now }
        requires allowed { allows (setup_of N.kit) deed.now ≡ true }
        requires room { IsRoomFor N.kit.terms.quota 1 log.old.room }
        ensures log { HasWritten log.old log.new (record { deed = deed.now; answer = result }) }
        ensures number { slot.new.number ≡ slot.old.number }
    {
        let answer = act.apply(&mut slot.queue);
        call.gate.acted(log.cpu(), call.number);
        let deed = *deed;
        let line = Line { deed, answer };
        let token = mem::replace(&mut slot.token, Badge::blank());
        slot.token = self.commit_one(call.rt, leave, log, token, &slot.queue, &line);
        line.answer
    }

    /// Wakes a task whose request has this token, on the queue whose lock is held, and commits its line.
    #[inline(always)]
    pub(crate) fn wake_on_one<R: Wait>(
        &self,
        rt: &R,
        log: &mut SeatLog<N>,
        slot: &mut Slot<N>,
        leave: &mut JournalLeave<'_>,
        task: TaskId,
        sender: CpuId,
        request: Token,
    ) -> Answer
        requires number { slot.old.number ≡ log.old.cpu }
        requires allowed { allows (setup_of N.kit) (Deed.Wake log.old.cpu task sender) ≡ true }
        requires room { IsRoomFor N.kit.terms.quota 1 log.old.room }
        requires request { IsToken N.kit.board N.kit.terms request }
        requires alone { claims_of request ≡ [] }
        requires asked { IsAsked log.old.lines (posts_of request)
            (Deed.Wake log.old.cpu task sender) }
        ensures log { HasWritten log.old log.new
            (record { deed = Deed.Wake log.old.cpu task sender; answer = result }) }
        ensures number { slot.new.number ≡ slot.old.number }
    {
        let cpu = log.cpu();
        let deed = Deed::Wake { cpu, task, sender };
        let answer = LocalAct::Wake { task, sender }.apply(&mut slot.queue);
        let line = Line { deed, answer };
        let own = mem::replace(&mut slot.token, Badge::blank());
        let token = self.board.join(own, request);
        let kept = self.commit_one(rt, leave, log, token, &slot.queue, &line);
        slot.token = kept;
        line.answer
    }

    /// Does a deed by its act on the two queues that this touches, whose locks are held, and commits its line. The first is that
    /// of the log's CPU.
    fn done_on_two<R: Wait, G: Gate>(
        &self,
        call: &Call<'_, R, G>,
        log: &mut SeatLog<N>,
        slot: &mut Slot<N>,
        away: &mut Slot<N>,
        leave: &mut JournalLeave<'_>,
        deed: &Deed,
        transfer: Transfer,
    ) -> Answer
        requires number { slot.old.number ≡ log.old.cpu }
        requires across { IsAcross (homes_of (setup_of N.kit)) deed.now away.old.number transfer }
        requires own { decider deed.now ≡ log.old.cpu }
        requires no_wake { IsNoWake deed.now }
        requires apart { away.old.number ≢ log.old.cpu }
        requires allowed { allows (setup_of N.kit) deed.now ≡ true }
        requires room { IsRoomFor N.kit.terms.quota 1 log.old.room }
        ensures log { HasWritten log.old log.new (record { deed = deed.now; answer = result }) }
    {
        let own = mem::replace(&mut slot.token, Badge::blank());
        let others = mem::replace(&mut away.token, Badge::blank());
        let token = self.board.look(self.board.join(others, own));
        let (_past, token) = self.board.split(token);
        let answer = transfer.apply(&mut slot.queue, &mut away.queue);
        call.gate.acted(log.cpu(), call.number);
        let deed = *deed;
        let line = Line { deed, answer };
        let own_change = change(log.cpu(), &slot.queue);
        let said = said_both(&line, own_change, change(away.number, &away.queue));
        let (own, others) = self.commit_two(call.rt, leave, log, token, said);
        slot.token = own;
        away.token = others;
        line.answer
    }
}
