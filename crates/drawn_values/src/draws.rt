ghost use Rattle.std.specs.Prelude.{◌<◌, ◌≤◌};

use eevdf_queue::TaskId;
use eevdf_weight::{Nice, Ns, Slice};
use rand_core::Rng;
use rand_pcg::Pcg32;

/// A sequence of drawn values. No clause says which values are drawn.
#[derive(Drop)]
pub struct Draws {
    words: Pcg32,
}

impl Draws {
    /// The sequence of this number that belongs to a seed.
    pub fn new(seed: u64, sequence: u64) -> Draws {
        Draws {
            words: Pcg32::new(seed, sequence),
        }
    }

    /// One of so many numbers, from 0 on.
    pub fn below(&mut self, numbers: u64) -> u64
        requires { 0 < numbers }
        ensures { result < numbers }
    {
        u64::from(self.words.next_u32()) % numbers
    }

    /// One of so many tasks.
    pub fn task(&mut self, tasks: u64) -> TaskId
        requires some { 0 < tasks }
        requires few { tasks ≤ 1024 }
        ensures { result < tasks }
    {
        TaskId::new(self.below(tasks)).unwrap()
    }

    /// A nice level.
    pub fn nice(&mut self) -> Nice {
        Nice::new(self.below(40) as i64 - 20).unwrap()
    }

    /// A slice of 0.1 to 8.5 milliseconds.
    pub fn slice(&mut self) -> Slice {
        Slice::new(100_000 + self.below(0x80_0000)).unwrap()
    }

    /// A virtual runtime of less than 4.2 milliseconds.
    pub fn start(&mut self) -> i64 {
        self.below(0x40_0000) as i64
    }

    /// The length of a tick, up to 4.2 milliseconds.
    pub fn tick(&mut self) -> Ns {
        Ns::new(1 + self.below(0x40_0000)).unwrap()
    }
}
