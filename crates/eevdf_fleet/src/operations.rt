//! How an operation that is a deed of its CPU finds the locks that it needs.

ghost use Rattle.std.specs.Prelude.{◌≡◌, IsSome, IsSomeAnd, true};
ghost use Rattle.eevdf_ops.specs.{Programs.deed_of};
ghost use Rattle.eevdf_fleet.specs.Fleets.{HasCommitted, IsRoomFor, setup_of};
ghost use Rattle.eevdf_fleet.specs.{Tried.has_what};

use crate::call::Call;
use crate::gate::Gate;
use crate::locks::LockLeave;
use crate::names::Names;
use crate::run_queues::RunQueues;
use crate::seat_parts::SeatParts;
use eevdf_ops::{Act, Answer, Op, parted};
use std::sync::Wait;

impl<N: Names> RunQueues<N> {
    /// Does an operation of the seat's CPU that is a deed. All calls of both fleets do theirs by this one, but for posts and drains.
    #[inline(always)]
    pub(crate) fn operate<R: Wait, G: Gate>(
        &self,
        call: &Call<'_, R, G>,
        seat: &mut SeatParts<N>,
        held: &mut LockLeave,
        op: Op,
    ) -> Answer
        requires deed { IsSome (deed_of seat.old.seat.cpu op) }
        requires named { has_what (setup_of N.kit) seat.old.seat.cpu op ≡ true }
        requires room { IsRoomFor N.kit.terms.quota 1 seat.old.seat.room }
        ensures { IsSomeAnd (deed_of seat.old.seat.cpu op)
            (λ deed. HasCommitted seat.old seat.new (record { deed = deed; answer = result })) }
    {
        let Some(deed) = op.on(seat.cpu()) else {
            unreachable!()
        };
        let (_cpu, act) = parted(&self.homes, deed);
        match act {
            Act::Local(act) => self.own(call, seat, held, &deed, act),
            Act::Transfer(other, transfer) => self.across(call, seat, held, &deed, other, transfer),
        }
    }
}
