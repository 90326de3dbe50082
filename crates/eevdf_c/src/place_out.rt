ghost use Rattle.std.specs.Prelude.{◌≡◌};
ghost use Rattle.eevdf_c.specs.PlaceOut as places;

use std::mem::{align_of, size_of};

/// How many numbers the lower half has.
const UNIT: i128 = 1 << 64;

/// The place of a task that dozes, or a mark of its share, as C sees it: a number of 128 bits in two halves.
#[repr(C)]
#[derive(Clone, Copy)]
pub struct PlaceOut {
    /// How often 2^64 goes into it, rounded down.
    pub high: i64,
    /// What is left above that.
    pub low: u64,
}

impl PlaceOut {
    /// A place in halves.
    pub fn of(place: i128) -> PlaceOut
        ensures halves { result ≡ places.in_halves place }
        ensures whole { places.value result ≡ place }
    {
        PlaceOut {
            high: place.div_euclid(UNIT) as i64,
            low: place.rem_euclid(UNIT) as u64,
        }
    }

    /// The number that the halves make.
    pub fn value(&self) -> i128
        ensures { result ≡ places.value self.now }
    {
        i128::from(self.high) * UNIT + i128::from(self.low)
    }
}

// the bytes that the header for C gives it
const _: () = prove!(size_of::<PlaceOut>() == 16 && align_of::<PlaceOut>() == 8);
