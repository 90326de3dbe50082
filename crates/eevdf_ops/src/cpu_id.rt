ghost use Rattle.std.specs.Prelude.{◌≡◌, ◌<◌};
ghost use Rattle.eevdf_ops.specs.Numbers.{checked_cpu, cpu_limit};

use std::error::Error;
use std::fmt;
use std::marker::Model;

/// The number of a CPU, from 0 to 63.
#[derive(Clone, Copy, PartialEq, Eq, PartialOrd, Ord, Hash, Debug)]
pub struct CpuId {
    number: u8,
}

impl Model for CpuId {
    ghost use Rattle.std.specs.Prelude.{ℕ, ◌<◌};
    ghost use Rattle.eevdf_ops.specs.Numbers.{cpu_limit};

    ghost Value = { ℕ };

    ghost view = { λ c. c.number };

    ghost invariant = { λ c. c.number < cpu_limit };

    ghost inverse = { λ n. record { number = n } };
}

impl CpuId {
    /// How many numbers there are for CPUs: 64, from 0 on.
    pub const COUNT: usize = 64;

    /// The number as that of a CPU, or `None` exactly from 64 on.
    pub fn new(number: u64) -> Option<CpuId>
        ensures { result ≡ checked_cpu number }
    {
        if number < CpuId::COUNT as u64 {
            Some(CpuId {
                number: number as u8,
            })
        } else {
            None
        }
    }

    /// The CPU at a place in a list that has one for each CPU.
    pub fn numbered(place: usize) -> CpuId
        requires { place < cpu_limit }
        ensures { result ≡ place }
    {
        CpuId {
            number: place as u8,
        }
    }

    /// The number, below 64.
    pub fn get(self) -> u64
        ensures number { result ≡ self }
        ensures below { result < cpu_limit }
    {
        u64::from(self.number)
    }

    /// The number as a place in a list that has one for each CPU, below 64.
    pub fn index(self) -> usize
        ensures number { result ≡ self }
        ensures below { result < cpu_limit }
    {
        usize::from(self.number)
    }
}

impl From<CpuId> for u64 {
    ghost from_gives = { λ cpu number. number ≡ cpu };

    fn from(cpu: CpuId) -> u64 {
        cpu.get()
    }
}

/// A number that no CPU has.
#[derive(Clone, Copy, PartialEq, Eq, Hash, Debug)]
pub struct BadCpuId(pub u64);

impl TryFrom<u64> for CpuId {
    type Error = BadCpuId;

    ghost use Rattle.std.specs.Prelude.{◌≡◌, ok_or};
    ghost use Rattle.eevdf_ops.specs.Numbers.{checked_cpu};

    ghost try_from_gives = { λ number r. r ≡ ok_or (checked_cpu number) (record { 0 = number }) };

    fn try_from(number: u64) -> Result<CpuId, BadCpuId> {
        CpuId::new(number).ok_or(BadCpuId(number))
    }
}

/// The number in decimal.
impl fmt::Display for CpuId {
    ghost use Rattle.std.specs.{Prelude.Some, Prelude.decimal, Fmt.styled_decimal};

    ghost output = { λ cpu. Some (decimal cpu) };

    ghost styled_output = { λ cpu style. Some (styled_decimal style cpu) };

    fn fmt<W: fmt::Write>(&self, f: &mut fmt::Formatter<W>) -> fmt::Result {
        fmt::Display::fmt(&self.number, f)
    }
}

impl fmt::Display for BadCpuId {
    ghost use Rattle.std.specs.Prelude.{Some, ◌++◌, codes, decimal};

    ghost output = { λ bad. Some (decimal bad.0 ++ codes " is no number of a CPU") };

    fn fmt<W: fmt::Write>(&self, f: &mut fmt::Formatter<W>) -> fmt::Result {
        write!(f, "{} is no number of a CPU", self.0)
    }
}

impl Error for BadCpuId {}
