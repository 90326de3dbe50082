//! Where the arrows of pulls and wakes begin.

use eevdf_scene::Tenths;

/// Arrows that end at one place begin in so many places beside one another.
const SHIFTS: u64 = 4;

/// How far these places are apart, in tenths.
const SHIFT: u64 = 50;

/// Where the last arrow ended, and how many ended there one after the other before it.
#[derive(Clone, Copy)]
pub(crate) struct Shifts {
    place: Option<Tenths>,
    count: u64,
}

impl Shifts {
    pub(crate) const NONE: Shifts = Shifts {
        place: None,
        count: 0,
    };

    /// How far beside its place the next arrow begins, in tenths.
    pub(crate) fn next(&mut self, place: Tenths) -> u64 {
        self.count = if self.place == Some(place) {
            self.count.saturating_add(1)
        } else {
            0
        };
        self.place = Some(place);
        (self.count % SHIFTS).saturating_mul(SHIFT)
    }
}
