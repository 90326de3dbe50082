//! Units of work for tasks that park, begin and end, and the tokens of wakes that came too early.

use eevdf_queue::TaskId;
use std::alloc::{AllocError, Global};
use std::sync::atomic::{AtomicBool, AtomicU64, Ordering};

/// No task has the number that takes units.
const CLOSED: u64 = 0;

const EMPTY: u64 = 1;

/// A unit lies there.
const FULL: u64 = 2;

/// The task hasn't taken a unit since it last parked. Rounds count from 1 on here.
const NO_ROUND: u64 = 0;

/// What the threads share of a number.
#[derive(Drop)]
struct Desk {
    /// A wake came while the task was awake.
    token: AtomicBool,
    /// `CLOSED`, `EMPTY` or `FULL`.
    unit: AtomicU64,
    /// How many units were taken, and in which round the task works, or `NO_ROUND`.
    taken: AtomicU64,
    round: AtomicU64,
}

/// A place for a unit of work under each number.
#[derive(Drop)]
pub struct Desks {
    desks: Vec<Desk>,
}

impl Desks {
    /// So many numbers, which no task has.
    pub fn new(alloc: Global, numbers: u64) -> Result<Desks, AllocError> {
        let mut desks = Vec::new(alloc);
        for _number in 0..numbers {
            desks.push(Desk {
                token: AtomicBool::new(false),
                unit: AtomicU64::new(CLOSED),
                taken: AtomicU64::new(0),
                round: AtomicU64::new(NO_ROUND),
            })?;
        }
        Ok(Desks { desks })
    }

    /// A task has begun under the number, for a unit that lies there.
    pub fn open(&self, task: TaskId) {
        if let Some(desk) = self.desks.get(task.index()) {
            desk.unit.store(FULL, Ordering::SeqCst);
        }
    }

    /// Puts a unit down where a task has the number and has taken what lay there, and says whether it did. Of several CPUs one does.
    pub fn puts_down(&self, task: TaskId) -> bool {
        self.changes(task, EMPTY, FULL)
    }

    /// Whether the task works in this round: it takes its unit by this, or has taken one in this round. One that has worked in an earlier
    /// round doesn't look for another unit before it has parked: the wake for that has come, or comes.
    pub fn works(&self, task: TaskId, round: u64) -> bool {
        let Some(desk) = self.desks.get(task.index()) else {
            return false;
        };
        let before = desk.round.load(Ordering::SeqCst);
        if before == NO_ROUND && self.changes(task, FULL, EMPTY) {
            desk.taken.fetch_add(1, Ordering::SeqCst);
            desk.round.store(round, Ordering::SeqCst);
            return true;
        }
        if before != round {
            desk.round.store(NO_ROUND, Ordering::SeqCst);
        }
        before == round
    }

    /// Whether the task ends: it has taken every fourth unit, and gets no other one then. Where one lies there it doesn't end.
    pub fn closes(&self, task: TaskId) -> bool {
        match self.desks.get(task.index()) {
            Some(desk) => {
                desk.taken.load(Ordering::SeqCst) % 4 == 0 && self.changes(task, EMPTY, CLOSED)
            }
            None => false,
        }
    }

    fn changes(&self, task: TaskId, from: u64, into: u64) -> bool {
        match self.desks.get(task.index()) {
            Some(desk) => desk
                .unit
                .compare_exchange(from, into, Ordering::SeqCst, Ordering::SeqCst)
                .is_ok(),
            None => false,
        }
    }

    /// Leaves a token for a task.
    pub fn leave_token(&self, task: TaskId) {
        if let Some(desk) = self.desks.get(task.index()) {
            desk.token.store(true, Ordering::SeqCst);
        }
    }

    /// Takes a task's token, and says whether there was one.
    pub fn take_token(&self, task: TaskId) -> bool {
        match self.desks.get(task.index()) {
            Some(desk) => desk.token.swap(false, Ordering::SeqCst),
            None => false,
        }
    }

    /// How many units were taken by all tasks.
    pub fn taken(&self) -> u64 {
        let mut taken = 0u64;
        for desk in self.desks.iter() {
            taken = taken.saturating_add(desk.taken.load(Ordering::SeqCst));
        }
        taken
    }
}
