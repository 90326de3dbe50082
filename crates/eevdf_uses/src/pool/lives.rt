use eevdf_queue::TaskId;
use std::alloc::{AllocError, Global};
use std::sync::atomic::{AtomicU64, Ordering};

/// How many requests come.
pub const REQUESTS: u64 = 1_050_000;

/// The requests that came, and the tasks that serve them, by their numbers.
#[derive(Drop)]
pub struct Lives {
    requests: AtomicU64,
    /// How many steps were taken under numbers that no task had.
    steps_of_nobody: AtomicU64,
    lives: Vec<Life>,
}

/// The tasks that have had a number, one after the other.
#[derive(Drop)]
struct Life {
    /// How many of them came, and how many went.
    came: AtomicU64,
    gone: AtomicU64,
    /// How many steps the one that has it is still to take. Only the CPU on which it runs counts them down.
    steps: AtomicU64,
}

/// What a task does after a step.
pub enum Next {
    GoOn,
    Sleep,
    End,
}

impl Lives {
    /// No task yet under any of so many numbers.
    pub fn new(alloc: Global, numbers: usize) -> Result<Lives, AllocError> {
        let mut lives = Vec::new(alloc);
        for _number in 0..numbers {
            lives.push(Life {
                came: AtomicU64::new(0),
                gone: AtomicU64::new(0),
                steps: AtomicU64::new(0),
            })?;
        }
        Ok(Lives {
            requests: AtomicU64::new(0),
            steps_of_nobody: AtomicU64::new(0),
            lives,
        })
    }

    /// The number of the next request, if there is another one.
    pub fn next_request(&self) -> Option<u64> {
        let request = self.requests.fetch_add(1, Ordering::SeqCst);
        if request < REQUESTS {
            Some(request)
        } else {
            None
        }
    }

    /// How many requests have come.
    pub fn requests(&self) -> u64 {
        self.requests.load(Ordering::SeqCst)
    }

    /// Whether all requests have come.
    pub fn have_all_come(&self) -> bool {
        self.requests() >= REQUESTS
    }

    /// A task comes, with one step to take, or for every fourth request three.
    pub fn come(&self, task: TaskId, request: u64) {
        let steps = if request % 4 == 3 { 3 } else { 1 };
        if let Some(life) = self.lives.get(task.index()) {
            life.steps.store(steps, Ordering::SeqCst);
            life.came.fetch_add(1, Ordering::SeqCst);
        }
    }

    /// A task goes.
    pub fn go(&self, task: TaskId) {
        if let Some(life) = self.lives.get(task.index()) {
            life.gone.fetch_add(1, Ordering::SeqCst);
        }
    }

    /// A task has taken a step. With two steps left it sleeps, and it ends after the last one. Where the last one that had the number has
    /// gone, nobody takes the step, which is counted.
    pub fn after_step(&self, task: TaskId) -> Next {
        let Some(life) = self.lives.get(task.index()) else {
            return Next::GoOn;
        };
        if life.came.load(Ordering::SeqCst) == life.gone.load(Ordering::SeqCst) {
            self.steps_of_nobody.fetch_add(1, Ordering::SeqCst);
            return Next::GoOn;
        }
        let left = life.steps.load(Ordering::SeqCst).saturating_sub(1);
        life.steps.store(left, Ordering::SeqCst);
        match left {
            0 => Next::End,
            2 => Next::Sleep,
            _ => Next::GoOn,
        }
    }

    /// How many steps were taken under numbers that no task had.
    pub fn steps_of_nobody(&self) -> u64 {
        self.steps_of_nobody.load(Ordering::SeqCst)
    }

    /// How many tasks came and how many went under a number.
    pub fn came_and_gone(&self, task: TaskId) -> (u64, u64) {
        match self.lives.get(task.index()) {
            Some(life) => (
                life.came.load(Ordering::SeqCst),
                life.gone.load(Ordering::SeqCst),
            ),
            None => (0, 0),
        }
    }
}
