//! Two queues between which tasks move, and the digest of their answers.

ghost use Rattle.std.specs.Prelude.{◌<◌, ◌≤◌};

use crate::digest::Digest;
use crate::queue_calls::{admit, move_candidate, pick, sleep_running, tick};
use eevdf_queue::{Parcel, Queue, TaskId};
use eevdf_weight::{Nice, Ns};

/// A queue whose calls are made, one to and from which tasks are pulled, and the tasks that sleep, first in first out.
#[derive(Drop)]
pub struct QueuePair {
    own: Queue,
    other: Queue,
    sleepers: [u16; 1024],
    first: u64,
    end: u64,
}

impl QueuePair {
    pub fn new() -> QueuePair {
        QueuePair {
            own: Queue::open(),
            other: Queue::open(),
            sleepers: [0; 1024],
            first: 0,
            end: 0,
        }
    }

    /// Puts a task into the first queue, where it has room.
    pub fn admit(&mut self, parcel: Parcel, digest: &mut Digest) {
        admit(&mut self.own, parcel, digest);
    }

    pub fn pick(&mut self, digest: &mut Digest) {
        pick(&mut self.own, digest);
    }

    pub fn tick(&mut self, ns: Ns, digest: &mut Digest) {
        tick(&mut self.own, ns, digest);
    }

    pub fn yield_now(&mut self, digest: &mut Digest) {
        digest.add_yield(self.own.yield_now());
    }

    /// Gives a task another nice level.
    pub fn renice(&mut self, task: TaskId, nice: Nice, digest: &mut Digest) {
        digest.add_renice(self.own.renice(task, nice));
    }

    /// Lets the running task fall asleep, and picks.
    pub fn sleep(&mut self, digest: &mut Digest) {
        if let Some(task) = sleep_running(&mut self.own, digest) {
            self.sleepers[(self.end % 1024) as usize] = task.get() as u16;
            self.end = self.end.wrapping_add(1);
        }
        self.pick(digest);
    }

    /// Wakes the task that has slept longest.
    pub fn wake(&mut self, digest: &mut Digest) {
        if self.first == self.end {
            return;
        }
        let number = u64::from(self.sleepers[(self.first % 1024) as usize]);
        self.first = self.first.wrapping_add(1);
        if let Some(task) = TaskId::new(number) {
            digest.add_wake(self.own.wake(task));
        }
    }

    /// Pulls a task to the other queue.
    pub fn push_away(&mut self, digest: &mut Digest) {
        move_candidate(&mut self.own, &mut self.other, digest);
    }

    /// Pulls a task from the other queue.
    pub fn pull_back(&mut self, digest: &mut Digest) {
        move_candidate(&mut self.other, &mut self.own, digest);
    }

    /// Looks at a task: its entry, and the lag that it has.
    pub fn look(&self, task: TaskId, digest: &mut Digest) {
        digest.add_entry(self.own.entry(task));
        digest.add_lag(self.own.lag_of(task));
    }

    /// Asks what a timer asks, and who would be picked.
    pub fn peek(&self, digest: &mut Digest) {
        digest.add_task(self.own.peek());
        digest.add_time(self.own.time_to_resched());
        digest.add_signed(self.own.floor_time());
        digest.add(self.own.load());
    }

    /// Looks at both queues as they are after the calls.
    pub fn look_at_all(&self, digest: &mut Digest) {
        digest.add_queue(&self.own);
        digest.add_queue(&self.other);
    }
}
