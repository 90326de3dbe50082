ghost use Rattle.std.specs.Prelude.{◌≡◌, true};
ghost use Rattle.eevdf_weight.specs.Limits.{is_nice_level, checked_level};

use std::error::Error;
use std::fmt;
use std::marker::Model;

/// A nice level, from -20, the heaviest, to 19, the lightest. Levels are ordered as their numbers.
#[derive(Clone, Copy, PartialEq, Eq, PartialOrd, Ord, Hash, Debug)]
pub struct Nice {
    level: i32,
}

impl Model for Nice {
    ghost use Rattle.std.specs.Prelude.{◌≡◌, ℤ, true};
    ghost use Rattle.eevdf_weight.specs.Limits.{is_nice_level};

    ghost Value = { ℤ };

    ghost view = { λ n. n.level };

    ghost invariant = { λ n. is_nice_level n.level ≡ true };

    ghost inverse = { λ z. record { level = z } };
}

impl Nice {
    /// The heaviest level, -20.
    pub const MIN: Nice = Nice { level: -20 };

    /// The lightest level, 19.
    pub const MAX: Nice = Nice { level: 19 };

    /// The level, or `None` exactly outside -20 to 19.
    pub fn new(level: i64) -> Option<Nice>
        ensures { result ≡ checked_level level }
    {
        if Nice::MIN.get() <= level && level <= Nice::MAX.get() {
            Some(Nice {
                level: level as i32,
            })
        } else {
            None
        }
    }

    /// The level as a number from -20 to 19.
    pub fn get(self) -> i64
        ensures level { result ≡ self }
        ensures within { is_nice_level self ≡ true }
    {
        i64::from(self.level)
    }
}

/// The level 0, of weight 1024.
impl Default for Nice {
    ghost use Rattle.std.specs.Prelude.{◌≡◌, pos};

    ghost is_default = { λ nice. nice ≡ pos 0 };

    fn default() -> Nice {
        Nice { level: 0 }
    }
}

impl From<Nice> for i64 {
    ghost from_gives = { λ nice level. level ≡ nice };

    fn from(nice: Nice) -> i64 {
        nice.get()
    }
}

/// A number that is no nice level.
#[derive(Clone, Copy, PartialEq, Eq, Hash, Debug)]
pub struct BadNice(pub i64);

impl TryFrom<i64> for Nice {
    type Error = BadNice;

    ghost use Rattle.std.specs.Prelude.{◌≡◌, ok_or};
    ghost use Rattle.eevdf_weight.specs.Limits.{checked_level};

    ghost try_from_gives = { λ level r. r ≡ ok_or (checked_level level) (record { 0 = level }) };

    fn try_from(level: i64) -> Result<Nice, BadNice> {
        Nice::new(level).ok_or(BadNice(level))
    }
}

/// The level as a decimal number.
impl fmt::Display for Nice {
    ghost use Rattle.std.specs.{Prelude.Some, Fmt.signed_decimal, Fmt.styled_signed_decimal};

    ghost output = { λ nice. Some (signed_decimal nice) };

    ghost styled_output = { λ nice style. Some (styled_signed_decimal style nice) };

    fn fmt<W: fmt::Write>(&self, f: &mut fmt::Formatter<W>) -> fmt::Result {
        fmt::Display::fmt(&self.level, f)
    }
}

impl fmt::Display for BadNice {
    ghost use Rattle.std.specs.Prelude.{Some, ◌++◌, codes};
    ghost use Rattle.std.specs.Fmt.{signed_decimal};

    ghost output = { λ bad. Some (signed_decimal bad.0 ++ codes " is no nice level") };

    fn fmt<W: fmt::Write>(&self, f: &mut fmt::Formatter<W>) -> fmt::Result {
        write!(f, "{} is no nice level", self.0)
    }
}

impl Error for BadNice {}
