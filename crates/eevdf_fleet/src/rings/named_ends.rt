//! The ends of the rings, by the CPUs that keep them.

ghost use Rattle.std.specs.Prelude.{◌≡◌, [], ◌∷◌, length, map, take, drop, IfOk, Some};
ghost use Rattle.eevdf_fleet.specs.{Board.IsToken, Board.posts_of, PostClaims.posts_from};
ghost use Rattle.eevdf_fleet.specs.Rings as rings;
ghost use Rattle.eevdf_fleet.specs.{OpenedRings.AreNewRows, OpenedRings.AreNewColumns};
ghost use Rattle.eevdf_fleet.specs.RingEnds.{AreProducers, lists_of, posted_into, posts};
ghost use Rattle.eevdf_fleet.specs.declared.board.claims.PostClaim.TheVariants as claim;

use crate::board::{NamedBoard, Token};
use crate::names::Names;
use crate::rings::consumer_ends::Consumers;
use crate::rings::producer_ends::Producers;
use crate::rings::request::{PopEnd, PushEnd};
use std::alloc::{AllocError, Global};
use std::sync::Arc;

/// Each sender's row of ends, with the token of its posts.
pub(super) fn producers_by_sender<N: Names>(
    alloc: Global,
    capacity: usize,
    rows: Vec<Vec<PushEnd>>,
    board: &Arc<NamedBoard<N>>,
    mut token: Token,
) -> Result<Vec<Producers<N>>, AllocError>
    requires capacity { capacity ≡ N.kit.rings.capacity }
    requires rows { AreNewRows N.kit.rings (lists_of rows.items) }
    requires board { N.kit.rings.board ≡ N.kit.board }
    requires terms { N.kit.rings.terms ≡ Some N.kit.terms }
    requires token { IsToken N.kit.board N.kit.terms token }
    requires posts { posts_of token ≡ posts_from (length rows.items) 0 (length rows.items) }
    ensures { IfOk result (λ all. all.items ≡ rings.all_no_posts capacity (length rows.items)) }
{
    let mut all = Vec::with_capacity(alloc, rows.len())?;
    for ends in rows {
        let (own, others) = with_token(all.len(), capacity, ends, board, token)?;
        token = others;
        all.push(own)?;
    }
    Ok(all)
}

/// The ends of a sender, with the token of its posts, which the given one claims first, and a token of the others.
fn with_token<N: Names>(
    sender: usize,
    capacity: usize,
    ends: Vec<PushEnd>,
    board: &Arc<NamedBoard<N>>,
    token: Token,
) -> Result<(Producers<N>, Token), AllocError>
    requires ends { AreProducers N.kit.rings sender ends.items }
    requires capacity { capacity ≡ N.kit.rings.capacity }
    requires board { N.kit.rings.board ≡ N.kit.board }
    requires terms { N.kit.rings.terms ≡ Some N.kit.terms }
    requires token { IsToken N.kit.board N.kit.terms token }
    requires first { take 1 (posts_of token) ≡ claim.Posts sender (map posted_into ends.items) ∷ [] }
    ensures ends { IfOk result (λ r. r.0 ≡ posts capacity sender ends.items) }
    ensures token { IfOk result (λ r. IsToken N.kit.board N.kit.terms r.1) }
    ensures others { IfOk result (λ r. posts_of r.1 ≡ drop 1 (posts_of token)) }
{
    let (own, others) = board.split_posts(token);
    let board = Arc::try_clone(board)?;
    Ok((Producers::new(sender, capacity, ends, board, own), others))
}

/// Each home's column of ends.
pub(super) fn consumers_by_home<N: Names>(
    alloc: Global,
    columns: Vec<Vec<PopEnd>>,
) -> Result<Vec<Consumers<N>>, AllocError>
    requires { AreNewColumns N.kit.rings (lists_of columns.items) }
    ensures { IfOk result (λ all. all.items ≡ rings.all_no_takes (length columns.items)) }
{
    let mut all = Vec::with_capacity(alloc, columns.len())?;
    for ends in columns {
        all.push(Consumers::new(all.len(), ends))?;
    }
    Ok(all)
}
