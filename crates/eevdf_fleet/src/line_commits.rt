//! How a line is committed, by the queues that it has changed.

ghost use Rattle.std.specs.Prelude.{◌≡◌, ◌≢◌, [], ◌∷◌, map, true};
ghost use Rattle.eevdf_ops.specs.{Parts.decider, Setup.allows, Setup.homes_of};
ghost use Rattle.eevdf_fleet.specs.declared.board.claims.Claim.TheVariants as claim;
ghost use Rattle.eevdf_fleet.specs.{Board.IsToken, Board.claims_of, Board.held, Board.posts_of};
ghost use Rattle.eevdf_fleet.specs.PostClaims.{IsAsked};
ghost use Rattle.eevdf_fleet.specs.Claims.{OwesQueues, advanced};
ghost use Rattle.eevdf_fleet.specs.Fleets.{HasWritten, IsRoomFor, setup_of};
ghost use Rattle.eevdf_fleet.specs.TouchedQueues.{AreDoneFrom, IsDoneFrom, IsNoWake};

use crate::board::{Change, Said, Token};
use crate::commit::{commit, commit_in_journal};
use crate::locks::JournalLeave;
use crate::names::Names;
use crate::run_queues::RunQueues;
use crate::seat_log::SeatLog;
use eevdf_ops::{CpuId, Line};
use eevdf_queue::Queue;
use std::snapshot::Snapshot;
use std::sync::Wait;

impl<N: Names> RunQueues<N> {
    /// Commits a line that has changed the queue of the log's CPU alone, which the token claims as it was.
    #[inline(always)]
    pub(crate) fn commit_one<R: Wait>(
        &self,
        rt: &R,
        leave: &mut JournalLeave<'_>,
        log: &mut SeatLog<N>,
        token: Token,
        queue: &Queue,
        line: &Line,
    ) -> Token
        requires token { IsToken N.kit.board N.kit.terms token }
        requires own { decider line.now.deed ≡ log.old.cpu }
        requires allowed { allows (setup_of N.kit) line.now.deed ≡ true }
        requires room { IsRoomFor N.kit.terms.quota 1 log.old.room }
        requires done { IsDoneFrom (homes_of (setup_of N.kit)) (claims_of token)
            log.old.cpu queue.now.state line.now }
        requires asked { IsAsked log.old.lines (posts_of token) line.now.deed }
        ensures token { IsToken N.kit.board N.kit.terms result }
        ensures claims { claims_of result ≡ claim.Queue log.old.cpu queue.now.state ∷ [] }
        ensures log { HasWritten log.old log.new line.now }
    {
        let said = said(line, log.cpu(), queue);
        self.commit_line(rt, leave, log, token, said)
    }

    /// Commits a line that has changed the queues of the log's CPU and of another one, which the token claims as they
    /// were.
    pub(crate) fn commit_two<R: Wait>(
        &self,
        rt: &R,
        leave: &mut JournalLeave<'_>,
        log: &mut SeatLog<N>,
        token: Token,
        said: Said,
    ) -> (Token, Token)
        requires token { IsToken N.kit.board N.kit.terms token }
        requires own { decider said.line.deed ≡ log.old.cpu }
        requires own_queue { said.first.cpu ≡ log.old.cpu }
        requires apart { said.second.cpu ≢ log.old.cpu }
        requires allowed { allows (setup_of N.kit) said.line.deed ≡ true }
        requires no_wake { IsNoWake said.line.deed }
        requires room { IsRoomFor N.kit.terms.quota 1 log.old.room }
        requires done { AreDoneFrom (homes_of (setup_of N.kit)) (claims_of token) said }
        ensures first { IsToken N.kit.board N.kit.terms result.0 }
        ensures second { IsToken N.kit.board N.kit.terms result.1 }
        ensures first_claim { claims_of result.0
            ≡ claim.Queue said.first.cpu said.first.queue.value.state ∷ [] }
        ensures second_claim { claims_of result.1
            ≡ claim.Queue said.second.cpu said.second.queue.value.state ∷ [] }
        ensures log { HasWritten log.old log.new said.line }
    {
        let token = self.commit_line(rt, leave, log, token, said);
        self.board.split(token)
    }

    /// Commits a line of the log's CPU, in the journal too where there is one. The token claims the queues that it changes.
    #[inline(always)]
    fn commit_line<R: Wait>(
        &self,
        rt: &R,
        leave: &mut JournalLeave<'_>,
        log: &mut SeatLog<N>,
        queues: Token,
        said: Said,
    ) -> Token
        requires token { IsToken N.kit.board N.kit.terms queues }
        requires room { IsRoomFor N.kit.terms.quota 1 log.old.room }
        requires own { decider said.line.deed ≡ log.old.cpu }
        requires owed { OwesQueues N.kit.terms (claims_of queues) said }
        requires asked { IsAsked log.old.lines (posts_of queues) said.line.deed }
        ensures token { IsToken N.kit.board N.kit.terms result }
        ensures claims { claims_of result ≡ held (map (advanced said) (claims_of queues)) }
        ensures log { HasWritten log.old log.new said.line }
    {
        match &self.journal {
            None => commit(&self.board, log, queues, &said),
            Some(journal) => {
                let mut journal = journal.lock(rt, leave);
                commit_in_journal(&self.board, &mut journal, log, queues, said)
            }
        }
    }
}

/// A line, and the queue that it has changed.
#[inline(always)]
fn said(line: &Line, cpu: CpuId, queue: &Queue) -> Said
    ensures line { result.line ≡ line.now }
    ensures cpu { result.second.cpu ≡ cpu }
    ensures queue { result.second.queue.value ≡ queue.now }
{
    Said {
        line: *line,
        first: change(cpu, queue),
        second: change(cpu, queue),
    }
}

/// The queue of a CPU as it is now.
#[inline(always)]
pub(crate) fn change(cpu: CpuId, queue: &Queue) -> Change
    ensures cpu { result.cpu ≡ cpu }
    ensures queue { result.queue.value ≡ queue.now }
{
    Change {
        cpu,
        queue: Snapshot::of(queue),
    }
}

/// A line, and the two queues that it has changed.
pub(crate) fn said_both(line: &Line, first: Change, second: Change) -> Said
    ensures { result ≡ record { line = line.now; first = first; second = second } }
{
    Said {
        line: *line,
        first,
        second,
    }
}
