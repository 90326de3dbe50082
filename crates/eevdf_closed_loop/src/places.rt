//! Some of the tasks of a group, of which the one of least number is looked for.

/// How many tasks of a group are so, and from where on they stand: enough to say at once that there is none.
#[derive(Drop)]
pub(crate) struct Places {
    number: usize,
    /// None of them stands before this place.
    first: usize,
}

impl Places {
    /// So many, wherever they stand.
    pub fn of(number: usize) -> Places {
        Places { number, first: 0 }
    }

    /// How many they are.
    pub fn count(&self) -> usize {
        self.number
    }

    /// One more, at a place.
    pub fn adds(&mut self, place: usize) {
        if self.number == 0 || place < self.first {
            self.first = place;
        }
        self.number = self.number.saturating_add(1);
    }

    /// The first of them, at this place, is no longer so.
    pub fn loses_first(&mut self, place: usize) {
        self.number = self.number.saturating_sub(1);
        self.first = place.saturating_add(1);
    }

    /// From which place on one is to be looked for. `None` where there is none.
    pub fn first(&self) -> Option<usize> {
        if self.number == 0 {
            None
        } else {
            Some(self.first)
        }
    }
}
