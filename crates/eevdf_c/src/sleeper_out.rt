ghost use Rattle.std.specs.Prelude.{◌≡◌};

use eevdf_queue::Sleeper;
use std::mem::{align_of, size_of};

/// What is kept of a sleeping task, as C sees it.
#[repr(C)]
#[derive(Clone, Copy)]
pub struct SleeperOut {
    /// The lag, in virtual time.
    pub lag: i64,
    /// The nice level, from -20 to 19.
    pub nice: i64,
    /// The length of each of its requests, in nanoseconds.
    pub slice_ns: u64,
}

impl SleeperOut {
    /// What is kept of a sleeping task, in numbers.
    pub fn of(sleeper: &Sleeper) -> SleeperOut
        ensures lag { result.lag ≡ sleeper.now.lag }
        ensures nice { result.nice ≡ sleeper.now.nice }
        ensures slice { result.slice_ns ≡ sleeper.now.slice }
    {
        SleeperOut {
            lag: sleeper.lag,
            nice: sleeper.nice.get(),
            slice_ns: sleeper.slice.get(),
        }
    }
}

// the bytes that the header for C gives it
const _: () = prove!(size_of::<SleeperOut>() == 24 && align_of::<SleeperOut>() == 8);
