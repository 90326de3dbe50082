use crate::board::Token;
use crate::names::Names;
use eevdf_ops::Line;
use std::marker::{Model, PhantomData};

/// The lines of what was done, in the order in which it was committed.
#[derive(Drop)]
pub(crate) struct Journal<N: Names> {
    pub(crate) lines: Vec<Line>,
    pub(crate) token: Token,
    pub(crate) names: PhantomData<N>,
}

impl<N: Names> Model for Journal<N> {
    ghost use Rattle.std.specs.Prelude.{List};
    ghost use Rattle.eevdf_ops.specs.declared.deeds.Line.{Line};

    ghost Value = { List Line };

    ghost view = { λ j. j.lines.items };

    ghost use Rattle.std.specs.Prelude.{◌≡◌, [], ◌∷◌, vec_capacity};
    ghost use Rattle.eevdf_ops.specs.Setup.{cpus_of};
    ghost use Rattle.eevdf_fleet.specs.declared.board.claims.Claim.TheVariants as claim;
    ghost use Rattle.eevdf_fleet.specs.{Board.IsToken, Board.claims_of, Fleets.setup_of};
    ghost use Rattle.eevdf_fleet.specs.Claims.{HasAllRoom};

    ghost invariant = { λ j. IsToken N.kit.board N.kit.terms j.token
        × (claims_of j.token ≡ claim.Journal j.lines.items ∷ [])
        × HasAllRoom N.kit.terms.quota (cpus_of (setup_of N.kit)) (vec_capacity j.lines) };
}
