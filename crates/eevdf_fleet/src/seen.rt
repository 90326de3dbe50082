use crate::board::Token;
use crate::names::Names;
use std::marker::{Model, PhantomData};

/// What had been seen of the history at some moment: contracts see its first lines. It has no bytes, may go to other threads, and stays
/// true whatever they do. A fleet gives it of a seat, copies it, and tells that any two are of one history.
#[derive(Drop)]
pub struct Seen<N: Names> {
    pub(crate) token: Token,
    pub(crate) names: PhantomData<N>,
}

impl<N: Names> Model for Seen<N> {
    ghost use Rattle.std.specs.Prelude.{List};
    ghost use Rattle.eevdf_ops.specs.declared.deeds.Line.{Line};
    ghost use Rattle.eevdf_fleet.specs.{Board.claims_of, SeatLogs.seen_in};

    ghost Value = { List Line };

    ghost view = { λ s. seen_in (claims_of s.token) };

    ghost use Rattle.std.specs.Prelude.{◌≡◌, [], ◌∷◌};
    ghost use Rattle.eevdf_fleet.specs.declared.board.claims.Claim.TheVariants as claim;
    ghost use Rattle.eevdf_fleet.specs.{Board.IsToken, Claims.IsOnTerms};

    ghost invariant = { λ s. IsToken N.kit.board N.kit.terms s.token
        × (claims_of s.token ≡ claim.Past (seen_in (claims_of s.token)) ∷ [])
        × IsOnTerms N.kit.terms (seen_in (claims_of s.token)) };
}
