use crate::board::Token;
use crate::names::Names;
use eevdf_ops::{CpuId, Line};
use std::marker::{Model, PhantomData};

/// What a seat knows of its CPU's lines: contracts see them by the token. Where a journal is kept, the lines are there at run time too, in
/// order, and how many more there may be; elsewhere the list is empty, and the room is 0.
#[derive(Drop)]
pub(crate) struct SeatLog<N: Names> {
    pub(crate) cpu: CpuId,
    pub(crate) lines: Vec<Line>,
    pub(crate) room: usize,
    pub(crate) token: Token,
    pub(crate) names: PhantomData<N>,
}

impl<N: Names> Model for SeatLog<N> {
    ghost use Rattle.eevdf_fleet.specs.Fleets.{SeatLog};
    ghost use Rattle.eevdf_fleet.specs.Board.{claims_of};
    ghost use Rattle.eevdf_fleet.specs.SeatLogs.{own_in, seen_in};

    ghost Value = { SeatLog };

    ghost view = { λ s. record {
      cpu = s.cpu;
      lines = own_in (claims_of s.token);
      room = s.room;
      seen = seen_in (claims_of s.token);
    } };

    ghost use Rattle.std.specs.Prelude.{◌<◌};
    ghost use Rattle.eevdf_ops.specs.Setup.{cpus_of};
    ghost use Rattle.eevdf_fleet.specs.{Board.IsToken, Fleets.setup_of};
    ghost use Rattle.eevdf_fleet.specs.SeatLogs.{IsRecord, KnowsOwn};

    ghost invariant = { λ s. IsToken N.kit.board N.kit.terms s.token
        × KnowsOwn N.kit.terms s.cpu (claims_of s.token)
        × IsRecord N.kit.terms.quota (own_in (claims_of s.token)) s.lines s.room
        × (s.cpu < cpus_of (setup_of N.kit)) };
}

impl<N: Names> SeatLog<N> {
    ghost use Rattle.std.specs.Prelude.{◌≡◌, ◌+◌, ◌<◌, is_some, length, true};
    ghost use Rattle.eevdf_ops.specs.Setup.{cpus_of};
    ghost use Rattle.eevdf_fleet.specs.Fleets.{quota_of, setup_of};
    ghost use Rattle.eevdf_fleet.specs.Claims.{IsOnTerms};
    ghost use Rattle.eevdf_ops.specs.Programs.{lines_by};

    pub(crate) fn cpu(&self) -> CpuId
        ensures cpu { result ≡ self.now.cpu }
        ensures below { result < cpus_of (setup_of N.kit) }
    {
        self.cpu
    }

    /// How many more lines the CPU may have, where a journal is kept.
    pub(crate) fn room(&self) -> usize
        ensures room { result ≡ self.now.room }
        ensures quota { is_some N.kit.terms.quota ≡ true → length self.now.lines + result ≡ quota_of N.kit }
    {
        self.room
    }

    /// The lines, where a journal is kept.
    pub(crate) fn lines(&self) -> &[Line]
        requires { is_some N.kit.terms.quota ≡ true }
        ensures { result.now ≡ self.now.lines }
    {
        &self.lines
    }

    /// What it has seen is a history, in which its CPU has its lines. It does nothing.
    pub(crate) fn know(&self)
        ensures kept { IsOnTerms N.kit.terms self.now.seen }
        ensures own { lines_by self.now.cpu self.now.seen ≡ self.now.lines }
    {
        // The type's invariant says it, of which a function knows that reads a field.
        let _cpu = self.cpu;
    }
}
