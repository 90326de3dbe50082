//! The history, with room for all that it will have.

ghost use Rattle.std.specs.Prelude.{◌≡◌, ◌<◌, [], length, IfOk};
ghost use Rattle.eevdf_steps.specs.Journals as journal;

use eevdf_ops::{Answer, Deed, Line};
use std::alloc::{AllocError, Global};
use std::marker::Model;

/// The deeds that were done with their answers, in order.
#[derive(Drop)]
pub(crate) struct Journal {
    lines: Vec<Line>,
    room: usize,
}

impl Model for Journal {
    ghost use Rattle.std.specs.Prelude.{◌≤◌, vec_capacity};
    ghost use Rattle.eevdf_steps.specs.Journals as journal;

    ghost Value = { journal.Journal };

    ghost view = { λ j. record { lines = j.lines.items; room = j.room } };

    ghost invariant = { λ j. j.room ≤ vec_capacity j.lines };
}

impl Journal {
    /// A journal with room for so many lines.
    pub(crate) fn open(alloc: Global, room: usize) -> Result<Journal, AllocError>
        ensures { IfOk result (λ j. j ≡ record { lines = []; room = room }) }
    {
        let lines = Vec::with_capacity(alloc, room)?;
        Ok(Journal { lines, room })
    }

    /// Adds a deed with its answer. It takes no memory.
    pub(crate) fn add(&mut self, deed: Deed, answer: Answer)
        requires { length self.old.lines < self.old.room }
        ensures { self.new ≡ journal.added self.old deed answer }
    {
        self.lines.push_reserved(Line { deed, answer });
    }

    /// The lines, in the order in which they were added.
    pub(crate) fn lines(&self) -> &[Line]
        ensures { result.now ≡ self.now.lines }
    {
        &self.lines
    }

    /// The lines alone.
    pub(crate) fn into_lines(self) -> Vec<Line>
        ensures { result.items ≡ self.lines }
    {
        let Journal { lines, room: _ } = self;
        lines
    }
}
