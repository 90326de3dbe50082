ghost use Rattle.std.specs.Prelude.{◌≡◌, true};
ghost use Rattle.eevdf_weight.specs.Limits.{is_slice, checked_slice};

use std::error::Error;
use std::fmt;
use std::marker::Model;

/// The length of a request in nanoseconds, from 100000 to 100000000: a shorter one gives an earlier
/// virtual deadline. Slices are ordered as their lengths.
#[derive(Clone, Copy, PartialEq, Eq, PartialOrd, Ord, Hash, Debug)]
pub struct Slice {
    length: u32,
}

impl Model for Slice {
    ghost use Rattle.std.specs.Prelude.{◌≡◌, ℕ, true};
    ghost use Rattle.eevdf_weight.specs.Limits.{is_slice};

    ghost Value = { ℕ };

    ghost view = { λ s. s.length };

    ghost invariant = { λ s. is_slice s.length ≡ true };

    ghost inverse = { λ n. record { length = n } };
}

impl Slice {
    /// The shortest slice, 100000 nanoseconds.
    pub const MIN: Slice = Slice { length: 100_000 };

    /// The longest slice, 100000000 nanoseconds.
    pub const MAX: Slice = Slice {
        length: 100_000_000,
    };

    /// The slice, or `None` exactly outside the limits.
    pub fn new(ns: u64) -> Option<Slice>
        ensures { result ≡ checked_slice ns }
    {
        if Slice::MIN.get() <= ns && ns <= Slice::MAX.get() {
            Some(Slice { length: ns as u32 })
        } else {
            None
        }
    }

    /// The slice in nanoseconds.
    pub fn get(self) -> u64
        ensures length { result ≡ self }
        ensures within { is_slice self ≡ true }
    {
        u64::from(self.length)
    }
}

/// The slice of 3000000 nanoseconds, which a task has where a workload names none.
impl Default for Slice {
    ghost use Rattle.std.specs.Prelude.{◌≡◌};

    ghost is_default = { λ slice. slice ≡ 3000000 };

    fn default() -> Slice {
        Slice { length: 3_000_000 }
    }
}

impl From<Slice> for u64 {
    ghost from_gives = { λ slice ns. ns ≡ slice };

    fn from(slice: Slice) -> u64 {
        slice.get()
    }
}

/// A number of nanoseconds that no slice has.
#[derive(Clone, Copy, PartialEq, Eq, Hash, Debug)]
pub struct BadSlice(pub u64);

impl TryFrom<u64> for Slice {
    type Error = BadSlice;

    ghost use Rattle.std.specs.Prelude.{◌≡◌, ok_or};
    ghost use Rattle.eevdf_weight.specs.Limits.{checked_slice};

    ghost try_from_gives = { λ ns r. r ≡ ok_or (checked_slice ns) (record { 0 = ns }) };

    fn try_from(ns: u64) -> Result<Slice, BadSlice> {
        Slice::new(ns).ok_or(BadSlice(ns))
    }
}

/// The slice in nanoseconds, as a decimal number.
impl fmt::Display for Slice {
    ghost use Rattle.std.specs.{Prelude.Some, Prelude.decimal, Fmt.styled_decimal};

    ghost output = { λ slice. Some (decimal slice) };

    ghost styled_output = { λ slice style. Some (styled_decimal style slice) };

    fn fmt<W: fmt::Write>(&self, f: &mut fmt::Formatter<W>) -> fmt::Result {
        fmt::Display::fmt(&self.length, f)
    }
}

impl fmt::Display for BadSlice {
    ghost use Rattle.std.specs.Prelude.{Some, ◌++◌, codes, decimal};

    ghost output = { λ bad. Some (decimal bad.0 ++ codes " nanoseconds is no slice") };

    fn fmt<W: fmt::Write>(&self, f: &mut fmt::Formatter<W>) -> fmt::Result {
        write!(f, "{} nanoseconds is no slice", self.0)
    }
}

impl Error for BadSlice {}
