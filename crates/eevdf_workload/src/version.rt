ghost use Rattle.std.specs.Prelude.{◌≡◌, Some};
ghost use Rattle.eevdf_workload.specs.Versions.{cpu_within, limits_of, version_text};

use crate::workload::Workload;
use eevdf_ops::CpuId;
use std::fmt;

/// The version of a workload's format.
#[derive(Clone, Copy, PartialEq, Eq, Debug)]
pub enum Version {
    One,
    Two,
    Three,
    Four,
}

/// The version's number, as a workload gives it.
impl fmt::Display for Version {
    ghost output = { λ version. Some (version_text version) };

    fn fmt<W: fmt::Write>(&self, f: &mut fmt::Formatter<W>) -> fmt::Result {
        f.write_str(match self {
            Version::One => "1",
            Version::Two => "2",
            Version::Three => "3",
            Version::Four => "4",
        })
    }
}

/// What a workload of a version may hold.
#[derive(Clone, Copy)]
pub struct Limits {
    /// There are at most so many programs, and the numbers of CPUs are below this.
    pub cpus: u64,
    /// A script has at most so many deeds.
    pub deeds: usize,
    /// Whether the word `renice` is known.
    pub renice: bool,
    /// Whether the word `begin` is known, and with it `end`, `set` and `rebase`.
    pub begin: bool,
    /// Whether the word `doze` is known.
    pub doze: bool,
}

impl Version {
    /// What a workload of this version may hold.
    pub fn limits(self) -> Limits
        ensures { result ≡ limits_of self }
    {
        match self {
            Version::One => Limits {
                cpus: Workload::MOST_CPUS_IN_VERSION_ONE,
                deeds: Workload::MOST_DEEDS_IN_VERSION_ONE,
                renice: false,
                begin: false,
                doze: false,
            },
            Version::Two => Limits {
                cpus: CpuId::COUNT as u64,
                deeds: Workload::MOST_DEEDS,
                renice: true,
                begin: false,
                doze: false,
            },
            Version::Three => Limits {
                cpus: CpuId::COUNT as u64,
                deeds: Workload::MOST_DEEDS,
                renice: true,
                begin: true,
                doze: false,
            },
            Version::Four => Limits {
                cpus: CpuId::COUNT as u64,
                deeds: Workload::MOST_DEEDS,
                renice: true,
                begin: true,
                doze: true,
            },
        }
    }
}

impl Limits {
    /// The CPU of this number, or `None` where the number isn't within the limits.
    pub(crate) fn cpu(self, number: u64) -> Option<CpuId>
        ensures { result ≡ cpu_within self number }
    {
        if number < self.cpus {
            CpuId::new(number)
        } else {
            None
        }
    }
}
