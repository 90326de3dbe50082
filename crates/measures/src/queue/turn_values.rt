ghost use Rattle.std.specs.Prelude.{◌<◌, ◌≤◌};

use crate::queue::task_values::near_level;
use eevdf_queue::TaskId;
use eevdf_weight::{Nice, Ns};
use rand_core::Rng;
use rand_xoshiro::SplitMix64;

/// How many values are drawn of each sort. Turns take them in order, over and over.
const COUNT: usize = 16_384;

/// What turns take: the lengths of ticks, and tasks with the nice levels that they get.
#[derive(Drop)]
pub struct TurnValues {
    lengths: [Ns; COUNT],
    tasks: [TaskId; COUNT],
    levels: [Nice; COUNT],
    at: usize,
}

impl TurnValues {
    /// Values for turns on so many tasks.
    pub fn draw(words: &mut SplitMix64, tasks: u64) -> TurnValues
        requires some { 0 < tasks }
        requires few { tasks ≤ 1024 }
    {
        let mut values = TurnValues {
            lengths: [Ns::MIN; COUNT],
            tasks: [TaskId::new(0).unwrap(); COUNT],
            levels: [Nice::MIN; COUNT],
            at: 0,
        };
        for place in 0..COUNT {
            values.lengths[place] = Ns::new(1 + words.next_u64() % 2_000_000).unwrap();
            values.tasks[place] = TaskId::new(words.next_u64() % tasks).unwrap();
            values.levels[place] = near_level(words);
        }
        values
    }

    /// The length of the tick of this place, of the first `COUNT`.
    pub fn length_at(&self, place: usize) -> Ns
        requires { place < 16384 }
    {
        self.lengths[place]
    }

    /// The length of the next tick, up to 2 ms.
    #[inline(always)]
    pub fn length(&mut self) -> Ns {
        let place = self.next();
        self.lengths[place]
    }

    /// The next task with its nice level.
    #[inline(always)]
    pub fn task_and_level(&mut self) -> (TaskId, Nice) {
        let place = self.next();
        (self.tasks[place], self.levels[place])
    }

    #[inline(always)]
    fn next(&mut self) -> usize
        ensures { result < 16384 }
    {
        let place = self.at % COUNT;
        self.at = self.at.wrapping_add(1);
        place
    }
}
