//! The marks of a lane: each deed but a tick that charged somebody, where there is room.

use eevdf_scene::{Tenths, part};

/// At most so many rows of marks are below the boxes of a lane.
pub(crate) const MOST_ROWS: usize = 8;

/// Of more deeds the marks have two rows, since most have no room anyway.
const MANY_DEEDS: usize = 2000;

/// The rows of marks of so many deeds at most.
const FEW_ROWS: usize = 2;

/// All lanes have so many rows together, where they have more than `FEW_ROWS` each.
const ROWS_OF_ALL: u64 = 24;

/// How far a mark is at least from the next one in its row, in tenths.
const LEAST_GAP: u64 = 115;

/// How far it is for each row of all lanes, in tenths: so all rows have about 1100 marks together.
const GAP_OF_ROW: u64 = 8;

/// The rows of marks of a lane, by the place at which each is free again.
#[derive(Clone, Copy)]
pub(crate) struct Rows {
    free: [u64; MOST_ROWS],
    /// How many of them may be used.
    most: usize,
    /// How far a mark is from the next one in its row.
    gap: u64,
}

impl Rows {
    /// The rows of one of so many lanes that are shown, where so many deeds are: fewer ones, and wider gaps, where there are many of
    /// either, so that a picture has about 1100 marks at most.
    pub(crate) fn new(lanes: usize, deeds: usize) -> Rows {
        let lanes = (lanes as u64).max(1);
        let most = if deeds > MANY_DEEDS {
            FEW_ROWS as u64
        } else {
            part(ROWS_OF_ALL, 1, lanes).clamp(FEW_ROWS as u64, MOST_ROWS as u64)
        };
        let gap = lanes
            .saturating_mul(most)
            .saturating_mul(GAP_OF_ROW)
            .max(LEAST_GAP);
        Rows {
            free: [0; MOST_ROWS],
            most: most as usize,
            gap,
        }
    }

    /// The first row that is free at a place, which it isn't from then on.
    pub(crate) fn take(&mut self, place: Tenths) -> Option<usize> {
        for row in 0..MOST_ROWS {
            if row < self.most && self.free[row] <= place.0 {
                self.free[row] = place.0.saturating_add(self.gap);
                return Some(row);
            }
        }
        None
    }
}
