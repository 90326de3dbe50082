use crate::pool::task_list::TaskList;
use eevdf_fleet::DrainedWake;
use eevdf_free_tasks::FreePart;
use eevdf_queue::TaskId;
use std::alloc::{AllocError, Global};
use std::collections::VecDeque;
use std::sync::Mutex;
use std::sync::atomic::AtomicU64;

/// How many CPUs there are. The homes of the numbers are the CPUs in turn.
pub const CPUS: usize = 4;

/// How many numbers there are.
pub const NUMBERS: usize = 128;

/// After so many wakes that a CPU has posted it posts the first of them once more.
const WAKES_REMEMBERED: usize = 32;

/// A list has room for so many tasks. A number may stand there more than once, where another wake has come before it was taken.
const ROOM: usize = 4 * NUMBERS;

/// What the threads share of a CPU.
#[derive(Drop)]
pub struct PoolCpu {
    /// How many requests were handed to it and wait.
    pub handed: AtomicU64,
    /// The tasks of its home that have fallen asleep.
    pub fallen: TaskList,
    /// Those of these that have got another level, which other tasks may wake.
    pub waiting: TaskList,
    /// What no other CPU takes the lock of.
    pub own: Mutex<OnCpu>,
}

/// What a CPU has of its own.
#[derive(Drop)]
pub struct OnCpu {
    /// Its part of the free numbers.
    pub free: FreePart,
    /// The wakes that its last drain decided.
    pub wakes: Vec<DrainedWake>,
    /// The last tasks that it has asked to wake.
    woken: VecDeque<TaskId>,
    /// How many turns it has had, which are the seconds on its clock.
    pub turns: u64,
}

impl OnCpu {
    /// Remembers that it has asked to wake a task, and gives the one that it has asked to wake some time ago.
    pub fn woken_before(&mut self, task: TaskId) -> Option<TaskId> {
        let former = if self.woken.len() >= WAKES_REMEMBERED {
            self.woken.pop_front()
        } else {
            None
        };
        if self.woken.len() < self.woken.capacity() {
            self.woken.push_back_reserved(task);
        }
        former
    }
}

impl PoolCpu {
    /// A CPU with this part of the free numbers, to which nothing has come yet.
    pub fn new(alloc: Global, free: FreePart) -> Result<PoolCpu, AllocError> {
        Ok(PoolCpu {
            handed: AtomicU64::new(0),
            fallen: TaskList::new(alloc, ROOM)?,
            waiting: TaskList::new(alloc, ROOM)?,
            own: Mutex::new(OnCpu {
                free,
                wakes: Vec::with_capacity(alloc, CPUS)?,
                woken: VecDeque::with_capacity(alloc, WAKES_REMEMBERED)?,
                turns: 0,
            }),
        })
    }
}

/// The place of a task's home.
pub fn home_index(task: TaskId) -> usize {
    task.index() % CPUS
}
