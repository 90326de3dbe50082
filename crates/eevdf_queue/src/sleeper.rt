ghost use Rattle.std.specs.Prelude.{◌≡◌, true};
ghost use Rattle.eevdf_queue.specs.{Lag.is_lag, Attributes.sleeper_with, SliceChange.sleeper_with_slice};

use crate::lag::{limited_lag, reweighed_lag};
use eevdf_weight::{Nice, Slice};
use std::fmt;

/// What a queue keeps of a sleeping task, and what a task brings along when it joins a queue.
#[derive(Clone, Copy, PartialEq, Eq, Debug)]
pub struct Sleeper {
    /// The lag, in virtual time.
    pub lag: i64,
    /// The nice level, from which the weight comes.
    pub nice: Nice,
    /// The length of each of its requests.
    pub slice: Slice,
}

impl Sleeper {
    /// The same with another slice, and with the lag cut to the limit that the task then has.
    pub(crate) fn with_slice(&self, slice: Slice) -> Sleeper
        ensures value { result ≡ sleeper_with_slice self.now slice }
        ensures limited { is_lag result.lag result.nice result.slice ≡ true }
    {
        Sleeper {
            lag: limited_lag(self.lag, self.nice, slice),
            nice: self.nice,
            slice,
        }
    }

    /// The same under another nice level and slice.
    pub(crate) fn with(&self, nice: Nice, slice: Slice) -> Sleeper
        requires { is_lag self.now.lag self.now.nice self.now.slice ≡ true }
        ensures value { result ≡ sleeper_with self.now nice slice }
        ensures limited { is_lag result.lag result.nice result.slice ≡ true }
    {
        let lag = reweighed_lag(self.lag, self.nice, self.slice, nice);
        Sleeper {
            lag: limited_lag(lag, nice, slice),
            nice,
            slice,
        }
    }
}

/// The lag, the nice level and the slice, each after its noun.
impl fmt::Display for Sleeper {
    ghost use Rattle.std.specs.Prelude.{Some};
    ghost use Rattle.eevdf_queue.specs.Texts.{sleeper_text};

    ghost output = { λ sleeper. Some (sleeper_text sleeper) };

    fn fmt<W: fmt::Write>(&self, f: &mut fmt::Formatter<W>) -> fmt::Result {
        write!(
            f,
            "lag {} nice {} slice {}",
            self.lag, self.nice, self.slice
        )
    }
}
