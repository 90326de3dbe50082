//! How what was seen at different moments, by whatever threads, is told to be of one history.

ghost use Rattle.std.specs.Prelude.{◌≡◌};
ghost use Rattle.eevdf_fleet.specs.{Claims.IsOnTerms, Endless.Agree};
ghost use Rattle.eevdf_fleet.specs.Fleets.{setup_of};

use crate::names::Names;
use crate::run_queues::RunQueues;
use crate::seat_parts::SeatParts;
use crate::seen::Seen;
use std::marker::PhantomData;

impl<N: Names> RunQueues<N> {
    /// What a seat has seen.
    pub(crate) fn seen(&self, seat: &mut SeatParts<N>) -> Seen<N>
        ensures seat { seat.new ≡ seat.old }
        ensures seen { result ≡ seat.old.seen }
        ensures kept { IsOnTerms N.kit.terms result }
    {
        seat.know();
        let token = self.board.recall(&mut seat.log.token);
        Seen {
            token,
            names: PhantomData,
        }
    }

    /// A copy of what was seen.
    pub(crate) fn copy(&self, seen: &mut Seen<N>) -> Seen<N>
        ensures seen { seen.new ≡ seen.old }
        ensures copy { result ≡ seen.old }
    {
        let token = self.board.recall(&mut seen.token);
        Seen {
            token,
            names: PhantomData,
        }
    }

    /// Learns that what was seen at two moments is of one history.
    pub(crate) fn agree(&self, seen: &mut Seen<N>, other: &mut Seen<N>)
        ensures seen { seen.new ≡ seen.old }
        ensures other { other.new ≡ other.old }
        ensures agree { Agree (setup_of N.kit) seen.old other.old }
    {
        let Seen { token, names: _ } = self.copy(seen);
        let Seen {
            token: others,
            names: _,
        } = self.copy(other);
        self.board.look(self.board.join(others, token));
    }
}
