//! The tasks of a queue in ascending number.

ghost use Rattle.std.specs.Prelude.{◌≡◌, ◌+◌, ◌∷◌, [], map, MatchOption};
ghost use Rattle.std.specs.FinMap as finite;
ghost use Rattle.std.specs.Iterator.{YieldsFirst, item_count};
ghost use Rattle.eevdf_queue.specs.Ascending.{from_number, runnable_tasks, sleeping_tasks, with_lag};

use crate::entry::Entry;
use crate::queue::Queue;
use crate::task_id::TaskId;
use std::marker::Model;

/// Goes over the runnable tasks of a queue, with their entries. Contracts see what is left.
#[derive(Drop)]
pub struct Runnable<'a> {
    queue: &'a Queue,
    next: u64,
    /// How many are left: after the last task no further number is looked up.
    left: usize,
}

impl<'a> Model for Runnable<'a> {
    ghost use Rattle.std.specs.Prelude.{◌≡◌, ℕ, List, length};
    ghost use Rattle.eevdf_queue.specs.{declared.entry.Entry.Entry, Ascending.from_number, Ascending.runnable_tasks};

    ghost Value = { List (ℕ × Entry) };

    ghost view = { λ s. from_number s.next (runnable_tasks s.queue.now.state) };

    ghost invariant = { λ s. s.left ≡ length (from_number s.next (runnable_tasks s.queue.now.state)) };
}

impl Iterator for Runnable<'_> {
    type Item = (TaskId, Entry);

    ghost next_gives = { YieldsFirst (λ s. s) };

    ghost remaining = { item_count (λ s. s) };

    fn next(&mut self) -> Option<(TaskId, Entry)> {
        if self.left == 0 {
            return None;
        }
        let (task, entry) = self.queue.runnable_from(self.next)?;
        self.next = task.get() + 1;
        self.left -= 1;
        Some((task, entry))
    }
}

/// Goes over the sleeping tasks of a queue, with the lags that they keep. Contracts see what is left.
#[derive(Drop)]
pub struct Sleeping<'a> {
    queue: &'a Queue,
    next: u64,
    /// How many are left.
    left: u16,
}

impl<'a> Model for Sleeping<'a> {
    ghost use Rattle.std.specs.Prelude.{◌≡◌, ℕ, ℤ, List, map, length};
    ghost use Rattle.std.specs.FinMap as finite;
    ghost use Rattle.eevdf_queue.specs.Ascending.{from_number, with_lag};

    ghost Value = { List (ℕ × ℤ) };

    ghost view = { λ s. map with_lag
        (from_number s.next (finite.entries s.queue.now.state.asleep)) };

    ghost invariant = { λ s. s.left ≡ length (map with_lag
        (from_number s.next (finite.entries s.queue.now.state.asleep))) };
}

impl Iterator for Sleeping<'_> {
    type Item = (TaskId, i64);

    ghost next_gives = { YieldsFirst (λ s. s) };

    ghost remaining = { item_count (λ s. s) };

    fn next(&mut self) -> Option<(TaskId, i64)> {
        if self.left == 0 {
            return None;
        }
        let (task, lag) = self.queue.asleep_from(self.next)?;
        self.next = task.get() + 1;
        self.left -= 1;
        Some((task, lag))
    }
}

impl Queue {
    /// The runnable tasks with their entries, in ascending number.
    #[tactic(auto, using(crate::proofs::Ascending::from_start, crate::proofs::Ascending::all_left))]
    pub fn runnable_tasks(&self) -> Runnable<'_>
        ensures { result ≡ runnable_tasks self.now.state }
    {
        Runnable {
            queue: self,
            next: 0,
            left: self.len(),
        }
    }

    /// The sleeping tasks with the lags that they keep, in ascending number.
    #[tactic(auto, using(crate::proofs::Ascending::from_start, crate::proofs::Ascending::all_lags_left))]
    pub fn sleeping_tasks(&self) -> Sleeping<'_>
        ensures { result ≡ sleeping_tasks self.now.state }
    {
        Sleeping {
            queue: self,
            next: 0,
            left: self.asleep_count,
        }
    }

    /// The first runnable task from a number on, with its entry.
    #[tactic(auto, using(crate::proofs::Ascending::numbered, crate::proofs::Ascending::none_here, crate::proofs::Ascending::one_here))]
    fn runnable_from(&self, first: u64) -> Option<(TaskId, Entry)>
        ensures { MatchOption result (from_number first (runnable_tasks self.now.state) ≡ [])
            (λ found. from_number first (runnable_tasks self.now.state)
            ≡ found ∷ from_number (found.0 + 1) (runnable_tasks self.now.state)) }
    {
        self.keeps();
        for number in first..TaskId::COUNT as u64 {
            let task = TaskId::new(number)?;
            if let Some(entry) = self.entry(task) {
                return Some((task, entry));
            }
        }
        None
    }

    /// The first sleeping task from a number on, with the lag that it keeps.
    #[tactic(auto, using(crate::proofs::Ascending::numbered, crate::proofs::Ascending::none_asleep, crate::proofs::Ascending::none_here))]
    pub(crate) fn asleep_from(&self, first: u64) -> Option<(TaskId, i64)>
        ensures { MatchOption result (from_number first (finite.entries self.now.state.asleep) ≡ [])
            (λ found. map with_lag (from_number first (finite.entries self.now.state.asleep))
            ≡ found ∷ map with_lag
            (from_number (found.0 + 1) (finite.entries self.now.state.asleep))) }
    {
        self.keeps();
        for number in first..TaskId::COUNT as u64 {
            let task = TaskId::new(number)?;
            if let Some(lag) = self.kept_asleep(task) {
                return Some((task, lag));
            }
        }
        None
    }
}
