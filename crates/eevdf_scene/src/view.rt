//! What of a history is to be shown.

use eevdf_queue::TaskId;

/// The numbers that are chosen of CPUs or of tasks.
#[derive(Drop)]
pub struct Choice {
    // whether a number is chosen, by number; all are where none is named
    chosen: Option<Vec<bool>>,
}

impl Choice {
    /// The numbers at whose places there is `true`, or all of them.
    pub fn of(chosen: Option<Vec<bool>>) -> Choice {
        Choice { chosen }
    }

    /// Whether the number is chosen.
    pub fn has(&self, number: usize) -> bool {
        match &self.chosen {
            None => true,
            Some(chosen) => chosen.get(number).copied().unwrap_or(false),
        }
    }

    /// The first number that is named of those from a count on.
    pub fn beyond(&self, count: usize) -> Option<usize> {
        let Some(chosen) = &self.chosen else {
            return None;
        };
        for number in count..chosen.len() {
            if chosen[number] {
                return Some(number);
            }
        }
        None
    }

    /// How many of the numbers below a count are chosen.
    pub fn count(&self, all: usize) -> usize {
        let mut count = 0usize;
        for number in 0..all {
            if self.has(number) {
                count = count.saturating_add(1);
            }
        }
        count
    }

    /// Whether what concerns this task is chosen. What concerns none is so only where no numbers are named.
    pub fn has_task(&self, task: Option<TaskId>) -> bool {
        match task {
            None => self.chosen.is_none(),
            Some(task) => self.has(task.index()),
        }
    }
}

/// What is chosen of a history, and how a picture has it.
#[derive(Drop)]
pub struct View {
    /// The CPUs that are shown.
    pub cpus: Choice,
    /// The tasks that are shown.
    pub tasks: Choice,
    /// Whether a picture has a row for each task, and not a lane for each CPU.
    pub by_task: bool,
    /// The first nanosecond that is drawn, or of a race the first place.
    pub from: u64,
    /// The nanosecond, or the place, after the last one that is drawn, where one is named.
    pub to: Option<u64>,
}
