use crate::board::{NamedBoard, Token};
use crate::names::Names;
use crate::rings::request::PushEnd;
use crate::rings::ring_ends::{free, push};
use crate::seen::Seen;
use atomic_table::Badge;
use eevdf_queue::TaskId;
use std::marker::Model;
use std::mem;
use std::sync::Arc;

/// The answer to a post that was refused. It comes only where the seat has posted at least as many requests to the task's
/// home, over all, as a ring has room for.
#[derive(Clone, Copy, PartialEq, Eq, Debug)]
pub struct RingFull {
    /// The task whose request comes back.
    pub task: TaskId,
}

/// The ends at which a CPU posts requests, one for each home. Contracts see what was posted to each home, and how many
/// requests more are known to fit.
#[derive(Drop)]
pub(crate) struct Producers<N: Names> {
    pub(super) sender: usize,
    pub(super) capacity: usize,
    pub(super) ends: Vec<PushEnd>,
    board: Arc<NamedBoard<N>>,
    // It claims what was posted.
    token: Token,
}

impl<N: Names> Model for Producers<N> {
    ghost use Rattle.eevdf_fleet.specs.RingEnds.{posts, ArePosting};
    ghost use Rattle.eevdf_fleet.specs.Rings as rings;

    ghost Value = { rings.Posts };

    ghost view = { λ p. posts p.capacity p.sender p.ends.items };

    ghost invariant = { λ p. ArePosting N.kit p.capacity p.sender p.ends.items p.token };
}

impl<N: Names> Producers<N> {
    ghost use Rattle.std.specs.Prelude.{◌≡◌, ℕ, ◌<◌, ◌+◌, ◌↔◌, [], ◌∷◌, length, map, true, OnOk, OnErr, IfErr, IsOk, IsTrue, Some};
    ghost use mathlib.Core.List.{IsPrefix};
    ghost use Rattle.eevdf_ops.specs.{Programs.lines_by, Programs.wakes_from, Setup.is_at_home};
    ghost use Rattle.eevdf_fleet.specs.Rings as rings;
    ghost use Rattle.eevdf_fleet.specs.RingEnds.{posted_into, posts, AreProducers};
    ghost use Rattle.eevdf_fleet.specs.{Board.IsToken, Board.claims_of, Board.posts_of};
    ghost use Rattle.eevdf_fleet.specs.declared.board.claims.PostClaim.TheVariants as claim;

    /// The ends of a sender's rings, each with room for so many requests, and the token of what was posted.
    pub(super) fn new(
        sender: usize,
        capacity: usize,
        ends: Vec<PushEnd>,
        board: Arc<NamedBoard<N>>,
        token: Token,
    ) -> Producers<N>
        requires ends { AreProducers N.kit.rings sender ends.items }
        requires capacity { capacity ≡ N.kit.rings.capacity }
        requires token { IsToken N.kit.board N.kit.terms token }
        requires posts { posts_of token ≡ claim.Posts sender (map posted_into ends.items) ∷ [] }
        requires board { N.kit.rings.board ≡ N.kit.board }
        requires terms { N.kit.rings.terms ≡ Some N.kit.terms }
        ensures { result ≡ posts capacity sender ends.items }
    {
        Producers {
            sender,
            capacity,
            ends,
            board,
            token,
        }
    }

    /// Posts a request to the home of its task. It takes no memory. Where the rings have room for no request, none is
    /// taken, though each has a slot.
    pub(crate) fn post(&mut self, home: usize, task: TaskId) -> Result<(), RingFull>
        requires home { home < length self.old.posted }
        requires at_home { is_at_home N.kit.rings.homes task home ≡ true }
        ensures accepted { OnOk result (rings.HasPosted home task self.old self.new) }
        ensures refused { OnErr result (self.new ≡ self.old) }
        ensures full { OnErr result (rings.free_to self.new home ≡ 0) }
        ensures given_back { IfErr result (λ full. full.task ≡ task) }
        ensures free { 0 < rings.free_to self.old home → IsOk result }
        ensures has_room { OnOk result (0 < N.kit.rings.capacity) }
        ensures room { length (rings.posted_to self.old home) < N.kit.rings.capacity → IsOk result }
    {
        if self.capacity == 0 {
            return Err(RingFull { task });
        }
        push(
            &mut self.ends[home],
            &self.board,
            &mut self.token,
            home,
            task,
        )
    }

    /// A token of what was posted so far.
    pub(crate) fn sent(&mut self) -> Token
        ensures producers { self.new ≡ self.old }
        ensures token { IsToken N.kit.board N.kit.terms result }
        ensures claims { claims_of result ≡ [] }
        ensures sent { posts_of result ≡ claim.Sent self.old.sender self.old.posted ∷ [] }
    {
        self.board.sent(&mut self.token)
    }

    /// Learns that what was seen tells of no other wakes that the sender asked for than of those that it has posted, in their order.
    pub(crate) fn agree(&mut self, seen: &mut Seen<N>)
        ensures producers { self.new ≡ self.old }
        ensures seen { seen.new ≡ seen.old }
        ensures agree { (home : ℕ) → IsPrefix (wakes_from self.old.sender (lines_by home seen.old))
            (rings.posted_to self.old home) }
    {
        let past = self.board.recall(&mut seen.token);
        let all = mem::replace(&mut self.token, Badge::blank());
        self.token = self.board.compare(self.board.join(all, past));
    }

    /// Looks whether exactly one request to a home is in its ring.
    pub(crate) fn has_one(&mut self, home: usize) -> bool
        requires { home < length self.old.posted }
        ensures looked { rings.HasLooked home self.old self.new }
        ensures one { IsTrue result ↔ (rings.free_to self.new home + 1 ≡ N.kit.rings.capacity) }
    {
        let free = self.free(home);
        free < self.capacity && self.capacity - free == 1
    }

    /// Looks how many requests to a home certainly fit now. `Consumers::free_own` knows it of the sender's own.
    pub(crate) fn free(&mut self, home: usize) -> usize
        requires { home < length self.old.posted }
        ensures looked { rings.HasLooked home self.old self.new }
        ensures free { result ≡ rings.free_to self.new home }
    {
        free(&mut self.ends[home], self.capacity)
    }
}
