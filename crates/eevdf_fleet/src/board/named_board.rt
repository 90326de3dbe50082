ghost use Rattle.std.specs.Prelude.{◌≡◌, ◌++◌, [], take, drop, Some};
ghost use Rattle.eevdf_fleet.specs.Claims.{Owes, OwesAsked};
ghost use Rattle.eevdf_fleet.specs.Board.{HasAppended, HasCompared, HasLooked, IsToken, claims_of, first_past};
ghost use Rattle.eevdf_fleet.specs.Board.{posts_of, shared};
ghost use Rattle.eevdf_fleet.specs.PostClaims.{sent_in, with_post, AreOnePosts};

use crate::board::claims::{Said, Terms, View};
use crate::board::rule::{
    Append, Both, Compare, First, FirstPast, FirstPosts, FirstTwo, Look, OneHistory, Post, Posting,
    PostsAlone, Saying, SentByNow, SharedFirst,
};
use crate::board::{Board, Token};
use crate::names::Names;
use atomic_table::{Badge, Table};
use eevdf_queue::TaskId;
use std::alloc::Global;
use std::marker::{Brand, Model, PhantomData};
use std::mem;

/// The board of the fleet of this name. All threads read where its table lies, so the unused bytes keep it off the cache lines of what
/// stands beside it, which a thread may write to.
#[derive(Drop)]
#[repr(C)]
pub(crate) struct NamedBoard<N: Names> {
    unused_before: [u64; 8],
    table: Table<(), View, Terms, OneHistory, Global>,
    names: PhantomData<N>,
    unused_after: [u64; 8],
}

impl<N: Names> Model for NamedBoard<N> {
    ghost use Rattle.std.specs.Prelude.{◌≡◌};

    ghost Value = { Unit {0} };

    ghost view = { λ b. tt };

    ghost invariant = { λ b. (b.table.shared.table_id ≡ N.kit.board)
        × (b.table.shared.key ≡ N.kit.terms)
        × (b.table.shared.table_id.words ≡ 1) };
}

impl<N: Names> NamedBoard<N> {
    pub(crate) fn new(board: Board) -> NamedBoard<N>
        requires { (board.table.shared.table_id ≡ N.kit.board)
            × (board.table.shared.key ≡ N.kit.terms) }
    {
        let Board { table } = board;
        NamedBoard {
            unused_before: [0; 8],
            table,
            names: PhantomData,
            unused_after: [0; 8],
        }
    }

    /// A token that has the claims of two, those of the second in front.
    pub(crate) fn join(&self, token: Token, other: Token) -> Token
        requires token { IsToken N.kit.board N.kit.terms token }
        requires other { IsToken N.kit.board N.kit.terms other }
        ensures token { IsToken N.kit.board N.kit.terms result }
        ensures claims { claims_of result ≡ claims_of other ++ claims_of token }
        ensures posts { posts_of result ≡ posts_of other ++ posts_of token }
    {
        let mut seat = token.into_seat();
        self.table
            .shared
            .join_seat::<Both>(&mut seat, other.into_seat());
        seat.into_badge()
    }

    /// A token of the first claim alone, and one of the others.
    pub(crate) fn split(&self, token: Token) -> (Token, Token)
        requires { IsToken N.kit.board N.kit.terms token }
        ensures first { IsToken N.kit.board N.kit.terms result.0 }
        ensures others { IsToken N.kit.board N.kit.terms result.1 }
        ensures first_claim { claims_of result.0 ≡ take 1 (claims_of token) }
        ensures other_claims { claims_of result.1 ≡ drop 1 (claims_of token) }
    {
        let mut seat = token.into_seat();
        let first = self.table.shared.split_seat::<First>(&mut seat);
        (first.into_badge(), seat.into_badge())
    }

    /// A token of the claims of posts, and one of the others.
    pub(crate) fn split_all_posts(&self, token: Token) -> (Token, Token)
        requires { IsToken N.kit.board N.kit.terms token }
        ensures posts { IsToken N.kit.board N.kit.terms result.0 }
        ensures others { IsToken N.kit.board N.kit.terms result.1 }
        ensures post_claims { posts_of result.0 ≡ posts_of token }
        ensures claims { claims_of result.1 ≡ claims_of token }
    {
        let mut seat = token.into_seat();
        let posts = self.table.shared.split_seat::<PostsAlone>(&mut seat);
        (posts.into_badge(), seat.into_badge())
    }

    /// A token of the first claim of posts alone, and one of all else.
    pub(crate) fn split_posts(&self, token: Token) -> (Token, Token)
        requires { IsToken N.kit.board N.kit.terms token }
        ensures first { IsToken N.kit.board N.kit.terms result.0 }
        ensures others { IsToken N.kit.board N.kit.terms result.1 }
        ensures first_posts { posts_of result.0 ≡ take 1 (posts_of token) }
        ensures other_posts { posts_of result.1 ≡ drop 1 (posts_of token) }
        ensures claims { claims_of result.1 ≡ claims_of token }
    {
        let mut seat = token.into_seat();
        let first = self.table.shared.split_seat::<FirstPosts>(&mut seat);
        (first.into_badge(), seat.into_badge())
    }

    /// Posts a request: gives a token of what its sender has posted by then, and that of all its posts.
    pub(crate) fn post(&self, token: Token, home: usize, task: TaskId) -> (Token, Token)
        requires token { IsToken N.kit.board N.kit.terms token }
        requires posts { AreOnePosts (posts_of token) }
        ensures sent { IsToken N.kit.board N.kit.terms result.0 }
        ensures token { IsToken N.kit.board N.kit.terms result.1 }
        ensures sent_claims { claims_of result.0 ≡ [] }
        ensures sent_posts { posts_of result.0 ≡ sent_in (with_post (posts_of token) home task) }
        ensures posts { posts_of result.1 ≡ with_post (posts_of token) home task }
    {
        self.post_as::<Brand>(token, home, task)
    }

    /// Posts the request that the type says.
    fn post_as<P: Posting>(&self, token: Token, home: usize, task: TaskId) -> (Token, Token)
        requires token { IsToken N.kit.board N.kit.terms token }
        requires posts { AreOnePosts (posts_of token) }
        requires home { P.home ≡ home }
        requires task { P.task ≡ task }
        ensures sent { IsToken N.kit.board N.kit.terms result.0 }
        ensures token { IsToken N.kit.board N.kit.terms result.1 }
        ensures sent_claims { claims_of result.0 ≡ [] }
        ensures sent_posts { posts_of result.0 ≡ sent_in (with_post (posts_of token) home task) }
        ensures posts { posts_of result.1 ≡ with_post (posts_of token) home task }
    {
        let mut seat = token.into_seat();
        let sent = self.table.shared.split_seat::<Post<P>>(&mut seat);
        (sent.into_badge(), seat.into_badge())
    }

    /// Gives a token of what a sender has posted by now, beside that of its posts or of what it had posted.
    pub(crate) fn sent(&self, token: &mut Token) -> Token
        requires { IsToken N.kit.board N.kit.terms token.old }
        ensures sent { IsToken N.kit.board N.kit.terms result }
        ensures token { IsToken N.kit.board N.kit.terms token.new }
        ensures sent_claims { claims_of result ≡ [] }
        ensures sent_posts { posts_of result ≡ sent_in (posts_of token.old) }
        ensures posts { posts_of token.new ≡ posts_of token.old }
        ensures claims { claims_of token.new ≡ claims_of token.old }
    {
        let mut seat = mem::replace(token, Badge::blank()).into_seat();
        let sent = self.table.shared.split_seat::<SentByNow>(&mut seat);
        *token = seat.into_badge();
        sent.into_badge()
    }

    /// A token of the first two claims, and one of the others.
    pub(crate) fn split_two(&self, token: Token) -> (Token, Token)
        requires { IsToken N.kit.board N.kit.terms token }
        ensures first { IsToken N.kit.board N.kit.terms result.0 }
        ensures others { IsToken N.kit.board N.kit.terms result.1 }
        ensures first_claims { claims_of result.0 ≡ take 2 (claims_of token) }
        ensures other_claims { claims_of result.1 ≡ drop 2 (claims_of token) }
    {
        let mut seat = token.into_seat();
        let first = self.table.shared.split_seat::<FirstTwo>(&mut seat);
        (first.into_badge(), seat.into_badge())
    }

    /// A token of the first two claims, and one of the others. Both have the first, where it is of the past.
    pub(crate) fn split_shared(&self, token: Token) -> (Token, Token)
        requires { IsToken N.kit.board N.kit.terms token }
        ensures first { IsToken N.kit.board N.kit.terms result.0 }
        ensures others { IsToken N.kit.board N.kit.terms result.1 }
        ensures first_claims { claims_of result.0 ≡ take 2 (claims_of token) }
        ensures other_claims { claims_of result.1 ≡ shared (claims_of token) }
    {
        let mut seat = token.into_seat();
        let first = self.table.shared.split_seat::<SharedFirst>(&mut seat);
        (first.into_badge(), seat.into_badge())
    }

    /// Gives a token of the first claim alone, where that is of the past, beside that of all claims.
    pub(crate) fn recall(&self, token: &mut Token) -> Token
        requires { IsToken N.kit.board N.kit.terms token.old }
        ensures token { IsToken N.kit.board N.kit.terms token.new }
        ensures past { IsToken N.kit.board N.kit.terms result }
        ensures claims { claims_of token.new ≡ claims_of token.old }
        ensures past_claims { claims_of result ≡ first_past (claims_of token.old) }
        ensures past_posts { posts_of result ≡ [] }
    {
        let mut seat = mem::replace(token, Badge::blank()).into_seat();
        let past = self.table.shared.split_seat::<FirstPast>(&mut seat);
        *token = seat.into_badge();
        past.into_badge()
    }

    /// Commits a line, and learns the lines up to it. The token claims all that it changes.
    pub(crate) fn append(&self, token: Token, said: &Said) -> Token
        requires token { IsToken N.kit.board N.kit.terms token }
        requires owed { Owes N.kit.terms (claims_of token) said.now }
        requires asked { OwesAsked N.kit.terms (claims_of token) (posts_of token) said.now }
        ensures token { IsToken N.kit.board N.kit.terms result }
        ensures appended { HasAppended N.kit.terms said.now (claims_of token) (claims_of result) }
    {
        self.append_as::<Brand>(token, said)
    }

    /// Commits the line that the type says.
    fn append_as<S: Saying>(&self, token: Token, said: &Said) -> Token
        requires token { IsToken N.kit.board N.kit.terms token }
        requires owed { Owes N.kit.terms (claims_of token) said.now }
        requires asked { OwesAsked N.kit.terms (claims_of token) (posts_of token) said.now }
        requires same { S.said ≡ Some said.now }
        ensures token { IsToken N.kit.board N.kit.terms result }
        ensures appended { HasAppended N.kit.terms said.now (claims_of token) (claims_of result) }
    {
        let mut seat = token.into_seat();
        self.table.shared.load::<Append<S>>(&mut seat, 0);
        seat.into_badge()
    }

    /// Learns the lines so far, which the claims of a token hold of, and that none of these stands twice.
    pub(crate) fn look(&self, token: Token) -> Token
        requires { IsToken N.kit.board N.kit.terms token }
        ensures token { IsToken N.kit.board N.kit.terms result }
        ensures looked { HasLooked N.kit.terms (claims_of token) (claims_of result) }
    {
        let mut seat = token.into_seat();
        self.table.shared.load::<Look>(&mut seat, 0);
        seat.into_badge()
    }

    /// Compares what a token claims of posts with the lines so far, which its other claims hold of.
    pub(crate) fn compare(&self, token: Token) -> Token
        requires { IsToken N.kit.board N.kit.terms token }
        ensures token { IsToken N.kit.board N.kit.terms result }
        ensures claims { claims_of result ≡ claims_of token }
        ensures posts { posts_of result ≡ posts_of token }
        ensures compared { HasCompared N.kit.terms (claims_of token) (posts_of token) }
    {
        let mut seat = token.into_seat();
        self.table.shared.load::<Compare>(&mut seat, 0);
        seat.into_badge()
    }
}
