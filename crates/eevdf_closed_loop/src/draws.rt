//! Lengths of time drawn from a seed, by the words of splitmix64.

use crate::phase::Span;
use eevdf_queue::TaskId;
use rand_core::{Rng, SeedableRng};
use rand_xoshiro::SplitMix64;

/// From what the lengths of time of a task are drawn.
#[derive(Drop)]
pub(crate) struct Draws {
    words: SplitMix64,
}

impl Draws {
    /// The words of a task: they begin at the seed, changed by the first of the words that begin at the task's number.
    pub fn of_task(seed: u64, number: u64) -> Draws {
        let first = SplitMix64::seed_from_u64(number).next_u64();
        Draws {
            words: SplitMix64::seed_from_u64(seed ^ first),
        }
    }

    /// The words of the arrivals of the group at a place: those of a task of a number that no task has.
    pub fn of_arrivals(seed: u64, place: usize) -> Draws {
        Draws::of_task(seed, (place as u64).saturating_add(TaskId::COUNT as u64))
    }

    /// A length of time within a span. A span of one length takes no word.
    pub fn length(&mut self, span: Span) -> u64 {
        let room = span.most.saturating_sub(span.least);
        if room == 0 {
            return span.least;
        }
        match self.words.next_u64().checked_rem(room.saturating_add(1)) {
            Some(more) => span.least.saturating_add(more),
            None => span.least,
        }
    }
}
