//! How run queues are closed: what the seats and the locks kept is brought together, and all of it is of one history.

ghost use Rattle.std.specs.Prelude.{◌≡◌, ◌<◌, ◌≤◌, List, [], ◌∷◌, All, is_some, length, vec_capacity, vec_len};
ghost use Rattle.eevdf_ops.specs.{declared.deeds.Line.Line, Setup.cpus_of};
ghost use Rattle.eevdf_fleet.specs.declared.board.claims.Claim.TheVariants as claim;
ghost use Rattle.eevdf_fleet.specs.{Board.IsToken, Board.Known, Board.claims_of, Claims.AllTell};
ghost use Rattle.eevdf_fleet.specs.Closings.{AllPut, AreClosed, IsOfLines, queue_count, with_journal};
ghost use Rattle.eevdf_fleet.specs.Fleets.{AreSeats, given_back, returned, seats_in, setup_of};

use crate::board::{NamedBoard, Token};
use crate::journal::Journal;
use crate::locks::{JournalLock, QueueLock};
use crate::names::Names;
use crate::reserve::Reserve;
use crate::rings::ReturnedEnds;
use crate::run_queues::RunQueues;
use crate::seat_log::SeatLog;
use crate::seat_parts::SeatParts;
use crate::slot::Slot;
use eevdf_ops::Line;
use eevdf_queue::{Queue, TaskId};
use std::marker::Model;
use std::sync::Arc;

/// Run queues that no thread shares any more, and room for what they are closed to. The token claims nothing.
#[derive(Drop)]
pub(crate) struct Closing<N: Names> {
    pub(crate) board: Arc<NamedBoard<N>>,
    pub(crate) locks: Vec<QueueLock<N>>,
    pub(crate) journal: Option<JournalLock<N>>,
    pub(crate) queues: Vec<Queue>,
    pub(crate) ends: ReturnedEnds<N>,
    pub(crate) token: Token,
}

impl<N: Names> Model for Closing<N> {
    ghost use Rattle.std.specs.Prelude.{◌≡◌, [], is_some, vec_len};
    ghost use Rattle.eevdf_ops.specs.Setup.{cpus_of};
    ghost use Rattle.eevdf_fleet.specs.{Board.IsToken, Board.claims_of, Fleets.setup_of};

    ghost Value = { Unit {0} };

    ghost view = { λ c. tt };

    ghost invariant = { λ c. (vec_len c.locks ≡ cpus_of (setup_of N.kit))
        × (is_some c.journal ≡ is_some N.kit.terms.quota)
        × (vec_len c.queues ≡ cpus_of (setup_of N.kit))
        × (c.ends ≡ record { cpus = cpus_of (setup_of N.kit); posts = []; takes = [] })
        × IsToken N.kit.board N.kit.terms c.token
        × (claims_of c.token ≡ []) };
}

/// What run queues are closed to: the lines in order, where a journal was kept, the queues, and the requests that were posted and not
/// drained.
#[derive(Drop)]
pub struct ClosedQueues {
    pub lines: Option<Vec<Line>>,
    pub queues: Vec<Queue>,
    pub left: Vec<Vec<TaskId>>,
}

impl<N: Names> RunQueues<N> {
    /// Ends what threads share, and gives room for the parts of all seats, with which the queues are then closed.
    pub(crate) fn into_closing(self) -> (Closing<N>, Vec<SeatParts<N>>)
        ensures none { result.1.items ≡ [] }
        ensures room { cpus_of (setup_of N.kit) ≤ vec_capacity result.1 }
    {
        let RunQueues {
            board,
            homes: _,
            locks,
            journal,
            reserve,
            thread_was_refused: _,
        } = self;
        let Reserve {
            queues,
            seats,
            ends,
            token,
        } = reserve.into_inner();
        let closing = Closing {
            board,
            locks,
            journal,
            queues,
            ends,
            token,
        };
        (closing, seats)
    }
}

impl<N: Names> Closing<N> {
    /// Closes the queues with the parts of all seats. It neither waits nor takes memory.
    pub(crate) fn close(self, seats: Vec<SeatParts<N>>) -> ClosedQueues
        requires { AreSeats (cpus_of (setup_of N.kit)) (seats_in seats.items) }
        ensures { AreClosed N.kit.terms seats.items result }
    {
        let Closing {
            board,
            locks,
            journal,
            queues,
            ends,
            token,
        } = self;
        let (token, ends) = close_seats(&board, token, ends, seats);
        let (token, queues) = close_locks(&board, token, locks, queues);
        let (token, lines) = close_journal(&board, token, journal);
        board.look(token);
        ClosedQueues {
            lines,
            queues,
            left: ends.into_left(),
        }
    }
}

/// Takes in the seats. The lines of each are those of its CPU, and the ends of the rings are put together.
fn close_seats<N: Names>(
    board: &NamedBoard<N>,
    mut token: Token,
    mut ends: ReturnedEnds<N>,
    seats: Vec<SeatParts<N>>,
) -> (Token, ReturnedEnds<N>)
    requires token { IsToken N.kit.board N.kit.terms token }
    requires claims { claims_of token ≡ [] }
    requires seats { AreSeats (cpus_of (setup_of N.kit)) (seats_in seats.items) }
    requires ends { ends ≡ returned (cpus_of (setup_of N.kit)) [] }
    ensures token { IsToken N.kit.board N.kit.terms result.0 }
    ensures tell { (lines : List Line) → AllTell N.kit.terms lines (claims_of result.0)
        → All (IsOfLines lines) seats.items }
    ensures none { queue_count (claims_of result.0) ≡ 0 }
    ensures posted { All (λ p. length p.seat.posted ≡ cpus_of (setup_of N.kit)) seats.items }
    ensures ends { result.1 ≡ returned (cpus_of (setup_of N.kit)) (seats_in seats.items) }
{
    for seat in seats {
        token = close_seat(board, token, &mut ends, seat);
    }
    (token, ends)
}

/// Takes in a seat.
fn close_seat<N: Names>(
    board: &NamedBoard<N>,
    token: Token,
    ends: &mut ReturnedEnds<N>,
    seat: SeatParts<N>,
) -> Token
    requires token { IsToken N.kit.board N.kit.terms token }
    requires posts { length ends.old.posts < ends.old.cpus }
    requires takes { length ends.old.takes < ends.old.cpus }
    ensures token { IsToken N.kit.board N.kit.terms result }
    ensures claims { claims_of result
        ≡ claim.Past seat.seen ∷ claim.Seat seat.seat.cpu seat.seat.log ∷ claims_of token }
    ensures posted { length seat.seat.posted ≡ cpus_of (setup_of N.kit) }
    ensures ends { ends.new ≡ given_back (cpus_of (setup_of N.kit)) ends.old seat.seat }
{
    let SeatParts {
        unused_before: _,
        log,
        producers,
        consumers,
        homes: _,
        unused_after: _,
    } = seat;
    ends.give_back(producers, consumers);
    let SeatLog {
        cpu: _,
        lines: _,
        room: _,
        token: own,
        names: _,
    } = log;
    board.join(token, own)
}

/// Takes the queues out of the locks, and puts each at its number.
fn close_locks<N: Names>(
    board: &NamedBoard<N>,
    mut token: Token,
    mut locks: Vec<QueueLock<N>>,
    mut queues: Vec<Queue>,
) -> (Token, Vec<Queue>)
    requires token { IsToken N.kit.board N.kit.terms token }
    requires none { queue_count (claims_of token) ≡ 0 }
    requires locks { vec_len locks ≡ cpus_of (setup_of N.kit) }
    requires queues { vec_len queues ≡ cpus_of (setup_of N.kit) }
    ensures token { IsToken N.kit.board N.kit.terms result.0 }
    ensures tell { (lines : List Line) → AllTell N.kit.terms lines (claims_of result.0)
        → AllTell N.kit.terms lines (claims_of token) }
    ensures put { (lines : List Line) → Known N.kit.terms lines (claims_of result.0)
        → AllPut (cpus_of (setup_of N.kit)) result.1.items (claims_of result.0) }
    ensures all { queue_count (claims_of result.0) ≡ cpus_of (setup_of N.kit) }
    ensures cpus { vec_len result.1 ≡ cpus_of (setup_of N.kit) }
{
    while let Some(lock) = locks.pop() {
        let Slot {
            number,
            queue,
            token: own,
            names: _,
        } = lock.into_slot();
        token = board.join(token, own);
        queues[number.index()] = queue;
    }
    (token, queues)
}

/// Takes the lines out of the journal, if there is one.
fn close_journal<N: Names>(
    board: &NamedBoard<N>,
    token: Token,
    journal: Option<JournalLock<N>>,
) -> (Token, Option<Vec<Line>>)
    requires { IsToken N.kit.board N.kit.terms token }
    ensures token { IsToken N.kit.board N.kit.terms result.0 }
    ensures claims { claims_of result.0 ≡ with_journal result.1 (claims_of token) }
    ensures kept { is_some result.1 ≡ is_some journal }
{
    match journal {
        None => (token, None),
        Some(journal) => {
            let Journal {
                lines,
                token: all,
                names: _,
            } = journal.into_journal();
            (board.join(token, all), Some(lines))
        }
    }
}
