//! The tasks of a group that arrive, and its free numbers.

use crate::draws::Draws;
use crate::places::Places;
use crate::plan::{Arrivals, Group};
use crate::processor::NEVER;

/// What is known of the arrivals of a group. A task that finds no number free waits until one is. The next arrival is that of the task that
/// has waited for longest, so the others take no memory.
#[derive(Drop)]
pub(crate) struct Comers {
    /// How they come, where they do.
    arrivals: Option<Arrivals>,
    /// How many are still to begin.
    left: u64,
    /// The moment at which the next of these arrives.
    arrives: u64,
    /// The tasks whose numbers are free.
    pub free: Places,
    draws: Draws,
}

impl Comers {
    /// The group at a place, at the start.
    pub fn at_start(group: &Group, place: usize, seed: u64) -> Comers {
        Comers {
            arrivals: group.arrivals,
            left: match group.arrivals {
                Some(arrivals) => arrivals.number,
                None => 0,
            },
            arrives: group.begins,
            free: Places::of(group.count),
            draws: Draws::of_arrivals(seed, place),
        }
    }

    /// When the next one begins: never, where none is left or no number is free.
    pub fn begins_at(&self) -> u64 {
        if self.left == 0 || self.free.first().is_none() {
            NEVER
        } else {
            self.arrives
        }
    }

    /// The next one begins, as the task at a place, the first whose number is free. Gives the moment at which it arrived.
    pub fn begins(&mut self, place: usize) -> u64 {
        let arrived = self.arrives;
        self.left = self.left.saturating_sub(1);
        self.free.loses_first(place);
        if let Some(arrivals) = self.arrivals {
            self.arrives = arrived.saturating_add(self.draws.length(arrivals.every));
        }
        arrived
    }
}
