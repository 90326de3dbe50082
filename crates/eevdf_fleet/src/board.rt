//! What is known of the one history, by tokens that take no memory.
//!
//! A token claims the lines of a CPU, the queue that the history leaves of a CPU, all its lines, or its first lines; or what a CPU has
//! posted, or had posted by some moment. All claims are of one history, and of nothing that others could change is there more than one
//! claim. So who holds the claims of all that a line changes may commit it, and who holds several claims learns that they fit together.
//! A step writes nothing that other threads read.

ghost use Rattle.std.specs.Prelude.{◌≡◌, [], IfOk};
ghost use Rattle.eevdf_fleet.specs.Claims.{IsOnTerms, no_posts, opening};
ghost use Rattle.eevdf_fleet.specs.Board.{IsToken, claims_of, posts_of};

mod claims;
mod named_board;
mod rule;

use atomic_table::{Badge, Table};
pub(crate) use claims::{Change, Claim, Said, Terms, View};
pub(crate) use named_board::NamedBoard;
use rule::OneHistory;
use std::alloc::{AllocError, Global};

/// The right to some claims.
pub(crate) type Token = Badge<View>;

/// What the tokens of one history step on, once it has a name.
#[derive(Drop)]
pub(crate) struct Board {
    table: Table<(), View, Terms, OneHistory, Global>,
    ghost one_word: { table.shared.table_id.words ≡ 1 },
}

impl Board {
    /// A board for the history that nothing stands in yet, with the token of all claims.
    pub(crate) fn open(alloc: Global, terms: &Terms) -> Result<(Board, Token), AllocError>
        requires { IsOnTerms terms.now [] }
        ensures terms { IfOk result (λ r. r.0.table.shared.key ≡ terms.now) }
        ensures token { IfOk result (λ r. IsToken r.0.table.shared.table_id terms.now r.1) }
        ensures claims { IfOk result (λ r. claims_of r.1 ≡ opening terms.now) }
        ensures posts { IfOk result (λ r. posts_of r.1 ≡ no_posts terms.now) }
    {
        let (table, seat) = Table::of_words(alloc, &[0], terms)?;
        Ok((Board { table }, seat.into_badge()))
    }
}
