use eevdf_queue::TaskId;

/// The numbers of the sleeping tasks in the order in which they fell asleep, with room for 2048.
#[derive(Drop)]
pub struct SleepRing {
    places: [TaskId; 2048],
    first: u32,
    end: u32,
}

impl SleepRing {
    pub fn new() -> SleepRing {
        SleepRing {
            places: [TaskId::new(0).unwrap(); 2048],
            first: 0,
            end: 0,
        }
    }

    /// Takes in the task that has fallen asleep last.
    #[inline(always)]
    pub fn push(&mut self, task: TaskId) {
        self.places[(self.end % 2048) as usize] = task;
        self.end = self.end.wrapping_add(1);
    }

    /// Gives the task that has slept longest.
    #[inline(always)]
    pub fn pop(&mut self) -> TaskId {
        let task = self.places[(self.first % 2048) as usize];
        self.first = self.first.wrapping_add(1);
        task
    }
}
