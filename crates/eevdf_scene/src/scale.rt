//! From times to places in the picture.

ghost use Rattle.std.specs.Prelude.{◌≡◌};
ghost use Rattle.eevdf_scene.specs.Windows as spec;

use std::fmt;

/// A length or a place in tenths of a unit of the picture.
#[derive(Clone, Copy, PartialEq, Eq, PartialOrd, Ord)]
pub struct Tenths(pub u64);

/// With one digit behind the point, where that isn't 0.
impl fmt::Display for Tenths {
    fn fmt<W: fmt::Write>(&self, f: &mut fmt::Formatter<W>) -> fmt::Result {
        let (units, tenths) = (self.0 / 10, self.0 % 10);
        if tenths == 0 {
            write!(f, "{units}")
        } else {
            write!(f, "{units}.{tenths}")
        }
    }
}

/// The times that are drawn, in nanoseconds, from the left edge of the lanes to the right one.
#[derive(Clone, Copy)]
pub struct Scale {
    /// The first one.
    pub from: u64,
    /// The last one, no earlier than the first, which who makes a scale sees to.
    pub to: u64,
    /// How wide the picture is, in units, of which each is a pixel where it isn't scaled.
    pub page: u64,
}

impl Scale {
    /// The left edge of the lanes, in units of the picture.
    pub const LEFT: u64 = 90;
    /// What is to the right of the lanes, in units.
    pub const MARGIN: u64 = 20;

    /// The right edge of the lanes, in units.
    pub fn right(&self) -> u64 {
        self.page.saturating_sub(Scale::MARGIN)
    }

    /// How wide the lanes are, in units.
    pub fn width(&self) -> u64 {
        self.right().saturating_sub(Scale::LEFT)
    }

    /// How many nanoseconds are between the edges.
    pub fn length(&self) -> u64 {
        self.to.saturating_sub(self.from)
    }

    /// Whether a moment is drawn, as those at the edges are.
    pub fn has(&self, time: u64) -> bool
        ensures { result ≡ spec.has self.now time }
    {
        self.from <= time && time <= self.to
    }

    /// Whether something that lasts from one moment to another is drawn: it shares time with what is drawn, or is itself a moment of it.
    pub fn shows(&self, begin: u64, end: u64) -> bool
        ensures { result ≡ spec.shows self.now begin end }
    {
        if begin < end {
            begin < self.to && self.from < end
        } else {
            self.has(begin)
        }
    }

    /// How much of the time from one moment to another is drawn, in nanoseconds.
    pub fn shared(&self, begin: u64, end: u64) -> u64
        ensures { result ≡ spec.shared self.now begin end }
    {
        end.min(self.to).saturating_sub(begin.max(self.from))
    }

    /// The place of a time, at an edge where it isn't drawn.
    pub fn place(&self, time: u64) -> Tenths {
        let since = time.min(self.to).saturating_sub(self.from);
        let tenths = part(since, self.width().saturating_mul(10), self.length());
        Tenths(tenths.saturating_add(10 * Scale::LEFT))
    }
}

/// So much of a whole as a share is of all, rounded down, and 0 of nothing. A product from 2^64 on is cut to 2^64 - 1.
pub fn part(share: u64, whole: u64, all: u64) -> u64 {
    if all == 0 {
        0
    } else {
        share.saturating_mul(whole) / all
    }
}
