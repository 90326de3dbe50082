ghost use Rattle.eevdf_fleet.specs.Board.{Rule, Appended, Compared, Looked, first_claims, other_claims};
ghost use Rattle.eevdf_fleet.specs.Board.{claims_alone, first_posts, joined, other_posts, posted_more, same_view};
ghost use Rattle.eevdf_fleet.specs.Board.{past_claims, posts_alone, sent_by, shared_claims};
ghost use Rattle.eevdf_fleet.specs.Claims.{knowing, no_posts, nothing, opening};
ghost use Rattle.eevdf_fleet.specs.declared.board.claims.Said.{Said};
ghost use Rattle.std.specs.Prelude.{None, Option, ℕ};

use crate::board::claims::{Terms, View};
use atomic_table::{Join, Play, Split, TableRule};
use std::marker::{Brand, PhantomData};

/// All claims are of one history, and of nothing that others could change is there more than one claim.
pub struct OneHistory;

impl TableRule<(), View, Terms> for OneHistory {
    ghost holds = { Rule };

    ghost first = { λ t. knowing t (opening t) (no_posts t) };
}

/// Says in contracts what is told where a line is committed. It has no functions. A step that had it as an operand would
/// write a word, for which the threads would wait.
pub trait Saying {
    ghost said: { Option Said };
}

impl Saying for Brand {
    ghost said = { None };
}

/// Says in contracts which task is posted to which home. It has no functions.
pub trait Posting {
    ghost home: { ℕ };

    ghost task: { ℕ };
}

impl Posting for Brand {
    ghost home = { 0 };

    ghost task = { 0 };
}

/// A line is committed, and the lines up to it are known.
pub struct Append<S: Saying> {
    saying: PhantomData<S>,
}

impl<S: Saying> Play<(), View> for Append<S> {
    ghost then = { Appended S.said };
}

/// The lines so far are known.
pub struct Look;

impl Play<(), View> for Look {
    ghost then = { Looked };
}

/// What is claimed of posts is compared with the lines so far.
pub struct Compare;

impl Play<(), View> for Compare {
    ghost then = { Compared };
}

/// The first claim gets a token of its own.
pub struct First;

impl Split<View> for First {
    ghost left = { other_claims 1 };

    ghost right = { first_claims 1 };
}

/// The first two claims get a token of their own.
pub struct FirstTwo;

impl Split<View> for FirstTwo {
    ghost left = { other_claims 2 };

    ghost right = { first_claims 2 };
}

/// The first two claims get a token of their own, and the first, which is of the past, stays beside the others too.
pub struct SharedFirst;

impl Split<View> for SharedFirst {
    ghost left = { shared_claims };

    ghost right = { first_claims 2 };
}

/// The first claim, where it is of the past, gets a token of its own, and all claims stay too.
pub struct FirstPast;

impl Split<View> for FirstPast {
    ghost left = { λ v. v };

    ghost right = { past_claims };
}

/// The claims of posts get a token of their own.
pub struct PostsAlone;

impl Split<View> for PostsAlone {
    ghost left = { claims_alone };

    ghost right = { posts_alone };
}

/// The first claim of posts gets a token of its own.
pub struct FirstPosts;

impl Split<View> for FirstPosts {
    ghost left = { other_posts };

    ghost right = { first_posts };
}

/// A request is posted, and what was posted by then gets a token of its own.
pub struct Post<P: Posting> {
    posting: PhantomData<P>,
}

impl<P: Posting> Split<View> for Post<P> {
    ghost left = { posted_more P.home P.task };

    ghost right = { λ v. sent_by (posted_more P.home P.task v) };
}

/// What was posted by now gets a token of its own.
pub struct SentByNow;

impl Split<View> for SentByNow {
    ghost left = { same_view };

    ghost right = { sent_by };
}

/// The claims of two tokens are one token's.
pub struct Both;

impl Join<View> for Both {
    ghost both = { joined };

    ghost spent = { nothing };
}
