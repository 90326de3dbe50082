//! What a terminal is told while a machine is driven.

use eevdf_bench::tell;
use eevdf_closed_loop::ClosedLoop;

/// It is told once in so many deeds.
const DEEDS: u64 = 100_000;

/// Tells a terminal how far a machine is driven, in a line that is written over and removed in the end.
#[derive(Drop)]
pub(crate) struct Progress<'a, P> {
    errors: &'a P,
    is_watched: bool,
    deeds: u64,
}

impl<'a, P: Print> Progress<'a, P> {
    /// Nothing is told where nobody watches.
    pub fn new(errors: &'a P, is_watched: bool) -> Progress<'a, P> {
        Progress {
            errors,
            is_watched,
            deeds: 0,
        }
    }

    /// A machine has done a deed.
    pub fn count(&mut self, machine: &ClosedLoop) {
        self.deeds = self.deeds.saturating_add(1);
        if self.is_watched && self.deeds.checked_rem(DEEDS) == Some(0) {
            let done = part_of(machine.now, machine.plan().lasts);
            let _ = print!(self.errors; "\reevdf_phases: {done} % of the time is over");
        }
    }

    /// Removes the line, where one was told.
    pub fn clear(&self) {
        if self.is_watched && self.deeds >= DEEDS {
            tell(self.errors, b"\r\x1b[K");
        }
    }
}

/// The per cent that a time is of another one, rounded down.
fn part_of(now: u64, lasts: u64) -> u64 {
    now.saturating_mul(100).checked_div(lasts).unwrap_or(100)
}
