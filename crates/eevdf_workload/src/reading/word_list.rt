ghost use Rattle.std.specs.Prelude.{◌≡◌, ◌∷◌, [], Some, None, drop, MatchOption};
ghost use Rattle.eevdf_workload.specs.Words.{first_number, words};

use crate::reading::number_text::split_number;
use std::marker::Model;

/// The words of a text that are still to be read. Single spaces part them.
#[derive(Drop)]
pub(crate) struct Words<'a> {
    rest: Option<&'a [u8]>,
}

impl<'a> Model for Words<'a> {
    ghost use Rattle.std.specs.Prelude.{List, ℕ};
    ghost use Rattle.eevdf_workload.specs.Words.{words_left};

    ghost Value = { List (List ℕ) };

    ghost view = { λ w. words_left w.rest };
}

impl<'a> Words<'a> {
    /// The words of a text.
    pub(crate) fn new(text: &'a [u8]) -> Words<'a>
        ensures { result ≡ words text.now }
    {
        Words { rest: Some(text) }
    }

    /// The next word, or `None` where there is none.
    pub(crate) fn next(&mut self) -> Option<&'a [u8]>
        ensures { MatchOption result ((self.old ≡ []) × (self.new ≡ []))
            (λ word. self.old ≡ word.now ∷ self.new) }
    {
        let rest = self.rest.take()?;
        match rest.iter().position(|byte| *byte == b' ') {
            Some(end) => {
                self.rest = Some(&rest[end + 1..]);
                Some(&rest[..end])
            }
            None => Some(rest),
        }
    }

    /// The number that the next word writes. `None` where there is no word, or where it writes none of 64 bits; no
    /// word is left then.
    pub(crate) fn next_number(&mut self) -> Option<u64>
        ensures { MatchOption result ((first_number self.old ≡ None) × (self.new ≡ []))
            (λ number. (first_number self.old ≡ Some number) × (self.new ≡ drop 1 self.old)) }
    {
        let (number, rest) = split_number(self.rest.take()?)?;
        self.rest = rest;
        Some(number)
    }
}
