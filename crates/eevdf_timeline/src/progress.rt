//! How far a long run is, on a terminal.

use eevdf_scene::Progress;
use std::io::{Print, Stderr};

/// So many deeds are done between two lines.
const STEP: usize = 65_536;

/// Standard error, and whether it is a terminal.
#[derive(Drop)]
pub struct ProgressLine {
    errors: Stderr,
    shown: bool,
}

impl ProgressLine {
    pub(crate) fn new(errors: Stderr, shown: bool) -> ProgressLine {
        ProgressLine { errors, shown }
    }
}

impl Progress for ProgressLine {
    /// Says how many deeds of all are done, in one line that is written over, and nothing where that isn't a terminal.
    fn tell(&self, done: usize, all: usize) {
        if self.shown && done % STEP == STEP - 1 {
            let _ = print!(self.errors; "\reevdf_timeline: {done} of {all} deeds");
        }
    }

    /// Ends the line, also where a fault is to be told after it.
    fn end(&self, all: usize) {
        if self.shown && all >= STEP {
            let _ = print!(self.errors; "\n");
        }
    }
}
