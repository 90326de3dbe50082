//! How the callers of an order are chosen.

ghost use Rattle.std.specs.Prelude.{◌≡◌, ◌<◌, ◌+◌, ◌%◌};
ghost use Rattle.eevdf_orders.specs.CallerChoice as choices;

use rand_core::SeedableRng;
use rand_core::utils::NextWord;
use rand_pcg::Pcg32;

/// With which caller the search for the next one begins, at each place of an order.
#[derive(Drop)]
pub enum Choice {
    /// The one after the caller at the place before, around.
    InTurn,
    /// One that is drawn at random: each place takes a word of the generator.
    Drawn(Pcg32),
}

impl Choice {
    /// At random from a seed, and in turn where there is none.
    pub fn of_seed(seed: Option<u64>) -> Choice
        ensures { result ≡ choices.choice_of seed }
    {
        match seed {
            Some(seed) => Choice::Drawn(Pcg32::seed_from_u64(seed)),
            None => Choice::InTurn,
        }
    }

    /// The caller, of so many, with whom the search for the next one begins, after a step of the last.
    pub fn first(&mut self, callers: usize, last: usize) -> usize
        requires some { 0 < callers }
        requires last { last < callers }
        ensures below { result < callers }
        ensures first { result ≡ choices.first_of self.old callers last }
        ensures next { self.new ≡ choices.next_of self.old }
    {
        match self {
            Choice::InTurn => (last + 1) % callers,
            Choice::Drawn(words) => words.next_word() as usize % callers,
        }
    }
}
