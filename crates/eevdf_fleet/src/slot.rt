ghost use Rattle.std.specs.Prelude.{◌≡◌};

use crate::board::Token;
use crate::names::Names;
use eevdf_ops::CpuId;
use eevdf_queue::Queue;
use std::marker::{Model, PhantomData};

/// What stands in a CPU's lock: its number and its queue, which is the one that the history leaves of it.
#[derive(Drop)]
pub(crate) struct Slot<N: Names> {
    pub(crate) number: CpuId,
    pub(crate) queue: Queue,
    pub(crate) token: Token,
    pub(crate) names: PhantomData<N>,
}

impl<N: Names> Model for Slot<N> {
    ghost use Rattle.std.specs.Coded.{codes};
    ghost use Rattle.eevdf_queue.specs.Codes.{view_code};
    ghost use Rattle.eevdf_fleet.specs.Fleets.{Slot};

    ghost Value = { Slot };

    ghost coded = { Prim.hlevel (codes, view_code) };

    ghost view = { λ s. record { number = s.number; queue = s.queue } };

    ghost use Rattle.std.specs.Prelude.{◌≡◌, ◌<◌, [], ◌∷◌};
    ghost use Rattle.eevdf_ops.specs.Setup.{cpus_of};
    ghost use Rattle.eevdf_fleet.specs.declared.board.claims.Claim.TheVariants as claim;
    ghost use Rattle.eevdf_fleet.specs.{Board.IsToken, Board.claims_of, Fleets.setup_of};

    ghost invariant = { λ s. IsToken N.kit.board N.kit.terms s.token
        × (claims_of s.token ≡ claim.Queue s.number s.queue.state ∷ [])
        × (s.number < cpus_of (setup_of N.kit)) };
}

impl<N: Names> Slot<N> {
    pub(crate) fn number(&self) -> CpuId
        ensures { result ≡ self.now.number }
    {
        self.number
    }
}
