//! How a line is committed: its seat, the queues that it changes and the journal, where there is one, know it from one moment on.

ghost use Rattle.std.specs.Prelude.{◌≡◌, ◌≤◌, ◌++◌, ◌∷◌, [], is_some, map, true};
ghost use Rattle.eevdf_ops.specs.Parts.{decider};
ghost use Rattle.eevdf_fleet.specs.Claims.{OwesQueues, advanced, journal, times};
ghost use Rattle.eevdf_fleet.specs.Board.{IsToken, Known, claims_of, held, posts_of};
ghost use Rattle.eevdf_fleet.specs.PostClaims.{IsAsked};
ghost use Rattle.eevdf_fleet.specs.Fleets.{HasWritten, IsRoomFor};

use crate::board::{NamedBoard, Said, Token};
use crate::journal::Journal;
use crate::names::Names;
use crate::seat_log::SeatLog;
use atomic_table::Badge;
use std::mem;

/// Commits a line of the log's CPU. The token claims the queues that it changes, and the journal where there is one.
#[inline(always)]
pub(crate) fn commit<N: Names>(
    board: &NamedBoard<N>,
    log: &mut SeatLog<N>,
    token: Token,
    said: &Said,
) -> Token
    requires token { IsToken N.kit.board N.kit.terms token }
    requires room { IsRoomFor N.kit.terms.quota 1 log.old.room }
    requires own { decider said.now.line.deed ≡ log.old.cpu }
    requires owed { OwesQueues N.kit.terms (claims_of token) said.now }
    requires asked { IsAsked log.old.lines (posts_of token) said.now.line.deed }
    requires journal { is_some N.kit.terms.quota ≡ true → 1 ≤ times journal (claims_of token) }
    ensures token { IsToken N.kit.board N.kit.terms result }
    ensures claims { claims_of result ≡ held (map (advanced said.now) (claims_of token)) }
    ensures log { HasWritten log.old log.new said.now.line }
    ensures known { Known N.kit.terms log.new.seen (claims_of result) }
{
    let own = mem::replace(&mut log.token, Badge::blank());
    let token = board.append(board.join(token, own), said);
    let (own, token) = board.split_two(token);
    log.token = own;
    if log.room > 0 {
        log.lines.push_reserved(said.line);
        log.room -= 1;
    }
    token
}

/// Commits a line of the log's CPU in the journal too. The token claims the queues that it changes.
pub(crate) fn commit_in_journal<N: Names>(
    board: &NamedBoard<N>,
    journal: &mut Journal<N>,
    log: &mut SeatLog<N>,
    queues: Token,
    said: Said,
) -> Token
    requires token { IsToken N.kit.board N.kit.terms queues }
    requires room { IsRoomFor N.kit.terms.quota 1 log.old.room }
    requires own { decider said.line.deed ≡ log.old.cpu }
    requires owed { OwesQueues N.kit.terms (claims_of queues) said }
    requires asked { IsAsked log.old.lines (posts_of queues) said.line.deed }
    ensures token { IsToken N.kit.board N.kit.terms result }
    ensures claims { claims_of result ≡ held (map (advanced said) (claims_of queues)) }
    ensures journal { journal.new ≡ journal.old ++ said.line ∷ [] }
    ensures log { HasWritten log.old log.new said.line }
{
    let all = mem::replace(&mut journal.token, Badge::blank());
    let token = board.join(queues, all);
    let token = commit(board, log, token, &said);
    let (all, token) = board.split(token);
    journal.token = all;
    journal.lines.push_reserved(said.line);
    token
}
