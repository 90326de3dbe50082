use crate::board::Token;
use crate::names::Names;
use std::marker::{Model, PhantomData};

/// What a CPU had posted at some moment: contracts see the CPU, and the tasks of its requests in order, by homes. It has no bytes, may go
/// to other threads, and stays true whatever they do. A seat gives it; a fleet copies it, and tells how it fits what was seen of the
/// history.
#[derive(Drop)]
pub struct Posted<N: Names> {
    pub(crate) token: Token,
    pub(crate) names: PhantomData<N>,
}

impl<N: Names> Model for Posted<N> {
    ghost use Rattle.eevdf_fleet.specs.{Board.posts_of, PostClaims.lists_in, PostClaims.sender_in};
    ghost use Rattle.eevdf_fleet.specs.Rings as rings;

    ghost Value = { rings.Posted };

    ghost view = { λ p. record {
      sender = sender_in (posts_of p.token);
      posted = lists_in (posts_of p.token);
    } };

    ghost use Rattle.std.specs.Prelude.{◌≡◌, [], ◌∷◌};
    ghost use Rattle.eevdf_fleet.specs.declared.board.claims.PostClaim.TheVariants as claim;
    ghost use Rattle.eevdf_fleet.specs.{Board.IsToken, Board.claims_of};

    ghost invariant = { λ p. IsToken N.kit.board N.kit.terms p.token
        × (claims_of p.token ≡ [])
        × (posts_of p.token ≡ claim.Sent (sender_in (posts_of p.token)) (lists_in (posts_of p.token)) ∷ []) };
}
