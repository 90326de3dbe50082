//! Where a phase stands among those of its task.

use eevdf_closed_loop::Phase;

/// A phase stands in so many lists at most, one in the other.
const MOST_LISTS: usize = Phase::DEPTHS + 1;

/// Where a phase stands: its place in the list of its task, or that of the loop in which it stands, and then its place in the list of each
/// loop around it, from the outermost on. Places count from 0.
#[derive(Clone, Copy, PartialEq, Eq, Debug)]
pub struct PhasePath {
    /// The place in the list of the task.
    pub outermost: usize,
    /// The places within loops, of which so many are used.
    inner: [usize; MOST_LISTS],
    depth: usize,
}

impl PhasePath {
    /// A phase in the list of a task.
    pub fn of(place: usize) -> PhasePath {
        PhasePath {
            outermost: place,
            inner: [0; MOST_LISTS],
            depth: 0,
        }
    }

    /// A phase at a place in the list of this one, which is a loop. No path is longer than `Phase::DEPTHS` loops and one more are deep.
    pub fn within(self, place: usize) -> PhasePath {
        let mut path = self;
        if let Some(last) = path.inner.get_mut(self.depth) {
            *last = place;
            path.depth = self.depth.saturating_add(1);
        }
        path
    }

    /// The places in the lists of the loops around it, from the outermost on.
    pub fn inner(&self) -> &[usize] {
        self.inner.get(..self.depth).unwrap_or(&[])
    }
}
