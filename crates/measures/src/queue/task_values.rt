//! The tasks of a run, drawn from a seed.

ghost use Rattle.std.specs.Prelude.{◌<◌};

use crate::refused_parcels::end_if_refused;
use eevdf_queue::{Parcel, Queue, TaskId};
use eevdf_weight::{Nice, Slice};
use rand_core::{Rng, SeedableRng};
use rand_xoshiro::SplitMix64;
use std::alloc::{AllocError, Global};

/// The lengths of slices, of which each task has one.
const SLICES: [u64; 12] = [
    100_000,
    300_000,
    700_000,
    1_000_000,
    2_000_000,
    3_000_000,
    3_000_000,
    3_000_000,
    6_000_000,
    10_000_000,
    20_000_000,
    100_000_000,
];

/// The words of a run on so many tasks.
pub fn words_for(tasks: u64) -> SplitMix64 {
    SplitMix64::seed_from_u64(0x4545_5644_462d_3031_u64.wrapping_add(tasks))
}

/// The task of a number, one of so many. Nice level, slice and start are drawn; a task that is alone has level 0 and 3 ms.
pub fn drawn_task(
    alloc: Global,
    words: &mut SplitMix64,
    number: u64,
    tasks: u64,
) -> Result<Parcel, AllocError>
    requires { number < 1024 }
{
    let nice = drawn_nice(words);
    let slice = drawn_slice(words);
    let start = (words.next_u64() % 10_000_000) as i64;
    let task = TaskId::new(number).unwrap();
    if tasks == 1 {
        Parcel::make(alloc, task, zero(), Slice::new(3_000_000).unwrap(), start)
    } else {
        Parcel::make(alloc, task, nice, slice, start)
    }
}

/// Puts a task into a queue, where it has room.
pub fn admit(queue: &mut Queue, parcel: Parcel) {
    end_if_refused(queue.try_admit(parcel));
}

/// A nice level from -10 to 10.
pub fn near_level(words: &mut SplitMix64) -> Nice {
    Nice::new((words.next_u64() % 21) as i64 - 10).unwrap()
}

/// Level 0 for seven tasks of sixteen, one from -20 to 19 for one of them, and one from -10 to 10 for the others.
fn drawn_nice(words: &mut SplitMix64) -> Nice {
    let kind = words.next_u64() % 16;
    if kind < 7 {
        zero()
    } else if kind < 15 {
        near_level(words)
    } else {
        Nice::new((words.next_u64() % 40) as i64 - 20).unwrap()
    }
}

fn drawn_slice(words: &mut SplitMix64) -> Slice {
    match Slice::new(SLICES[(words.next_u64() % 12) as usize]) {
        Some(slice) => slice,
        None => Slice::MAX,
    }
}

fn zero() -> Nice {
    Nice::new(0).unwrap()
}
