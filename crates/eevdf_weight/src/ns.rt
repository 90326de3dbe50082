ghost use Rattle.std.specs.Prelude.{◌≡◌, true};
ghost use Rattle.eevdf_weight.specs.Limits.{is_tick, checked_tick};

use std::error::Error;
use std::fmt;
use std::marker::Model;

/// The time that a tick charges, in nanoseconds, from 1 to 1000000000. Times are ordered as their lengths.
#[derive(Clone, Copy, PartialEq, Eq, PartialOrd, Ord, Hash, Debug)]
pub struct Ns {
    length: u64,
}

impl Model for Ns {
    ghost use Rattle.std.specs.Prelude.{◌≡◌, ℕ, true};
    ghost use Rattle.eevdf_weight.specs.Limits.{is_tick};

    ghost Value = { ℕ };

    ghost view = { λ t. t.length };

    ghost invariant = { λ t. is_tick t.length ≡ true };

    ghost inverse = { λ n. record { length = n } };
}

impl Ns {
    /// The shortest time, one nanosecond.
    pub const MIN: Ns = Ns { length: 1 };

    /// The longest time, 1000000000 nanoseconds.
    pub const MAX: Ns = Ns {
        length: 1_000_000_000,
    };

    /// The time, or `None` exactly outside the limits.
    pub fn new(ns: u64) -> Option<Ns>
        ensures { result ≡ checked_tick ns }
    {
        if Ns::MIN.get() <= ns && ns <= Ns::MAX.get() {
            Some(Ns { length: ns })
        } else {
            None
        }
    }

    /// The time in nanoseconds.
    pub fn get(self) -> u64
        ensures length { result ≡ self }
        ensures within { is_tick self ≡ true }
    {
        self.length
    }
}

impl From<Ns> for u64 {
    ghost from_gives = { λ time ns. ns ≡ time };

    fn from(time: Ns) -> u64 {
        time.get()
    }
}

/// A number of nanoseconds that no tick charges.
#[derive(Clone, Copy, PartialEq, Eq, Hash, Debug)]
pub struct BadNs(pub u64);

impl TryFrom<u64> for Ns {
    type Error = BadNs;

    ghost use Rattle.std.specs.Prelude.{◌≡◌, ok_or};
    ghost use Rattle.eevdf_weight.specs.Limits.{checked_tick};

    ghost try_from_gives = { λ ns r. r ≡ ok_or (checked_tick ns) (record { 0 = ns }) };

    fn try_from(ns: u64) -> Result<Ns, BadNs> {
        Ns::new(ns).ok_or(BadNs(ns))
    }
}

/// The time in nanoseconds, as a decimal number.
impl fmt::Display for Ns {
    ghost use Rattle.std.specs.{Prelude.Some, Prelude.decimal, Fmt.styled_decimal};

    ghost output = { λ time. Some (decimal time) };

    ghost styled_output = { λ time style. Some (styled_decimal style time) };

    fn fmt<W: fmt::Write>(&self, f: &mut fmt::Formatter<W>) -> fmt::Result {
        fmt::Display::fmt(&self.length, f)
    }
}

impl fmt::Display for BadNs {
    ghost use Rattle.std.specs.Prelude.{Some, ◌++◌, codes, decimal};

    ghost output = { λ bad. Some (decimal bad.0 ++ codes " nanoseconds is no tick") };

    fn fmt<W: fmt::Write>(&self, f: &mut fmt::Formatter<W>) -> fmt::Result {
        write!(f, "{} nanoseconds is no tick", self.0)
    }
}

impl Error for BadNs {}
