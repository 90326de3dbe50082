use crate::queue::answer_words::{of_renice, of_task, of_tick, of_time};
use crate::queue::asked_run::AskedRun;
use crate::queue::checksum::Checksum;
use crate::queue::sleep_ring::SleepRing;
use crate::queue::task_values::{admit, drawn_task, words_for};
use crate::queue::turn_values::TurnValues;
use crate::queue::warm_up::warm_up;
use eevdf_queue::{Queue, TaskId};
use std::alloc::{AllocError, Global};

/// A queue of runnable tasks, of which one runs, and the checksum of its answers.
#[derive(Drop)]
pub struct BenchQueue {
    queue: Queue,
    running: Option<TaskId>,
    sleepers: SleepRing,
    values: TurnValues,
    picks: u64,
    checksum: Checksum,
}

impl BenchQueue {
    /// A queue of the tasks of a run after the warm-up.
    pub fn open(alloc: Global, run: &AskedRun) -> Result<BenchQueue, AllocError> {
        let mut words = words_for(run.tasks);
        let mut queue = Queue::open();
        for number in 0..run.tasks {
            admit(
                &mut queue,
                drawn_task(alloc, &mut words, number, run.tasks)?,
            );
        }
        let values = TurnValues::draw(&mut words, run.tasks);
        let mut checksum = Checksum::new();
        warm_up(&mut queue, &values, &mut checksum);
        let running = queue.running();
        Ok(BenchQueue {
            queue,
            running,
            sleepers: SleepRing::new(),
            values,
            picks: 0,
            checksum,
        })
    }

    pub fn sum(&self) -> u64 {
        self.checksum.sum()
    }

    #[inline(always)]
    pub fn pick(&mut self) {
        self.running = self.queue.pick();
        self.checksum.add(of_task(self.running));
    }

    #[inline(always)]
    pub fn tick(&mut self) {
        let length = self.values.length();
        self.checksum.add(of_tick(self.queue.tick(length)));
    }

    /// A pick, before which every 1024th time there is a tick.
    #[inline(always)]
    pub fn pick_with_rare_ticks(&mut self) {
        self.picks = self.picks.wrapping_add(1);
        if self.picks % 1024 == 0 {
            self.tick();
        }
        self.pick();
    }

    #[inline(always)]
    pub fn peek(&mut self) {
        self.checksum.add(of_task(self.queue.peek()));
    }

    /// Asks when a timer would end the running task's request.
    #[inline(always)]
    pub fn timer(&mut self) {
        self.checksum.add(of_time(self.queue.time_to_resched()));
    }

    #[inline(always)]
    pub fn rebase(&mut self) {
        let _ = self.queue.rebase();
    }

    #[inline(always)]
    pub fn yield_now(&mut self) {
        let _ = self.queue.yield_now();
    }

    /// Gives the next task its next nice level.
    #[inline(always)]
    pub fn renice(&mut self) {
        let (task, level) = self.values.task_and_level();
        self.checksum.add(of_renice(self.queue.renice(task, level)));
    }

    /// Lets the running task fall asleep, and picks.
    #[inline(always)]
    pub fn sleep_pick(&mut self) {
        if let Some(task) = self.running
            && let Some(parcel) = self.queue.detach_running(task)
        {
            self.queue.put_asleep(parcel);
            self.sleepers.push(task);
        }
        self.pick();
    }

    /// Lets the running task doze, and picks.
    #[inline(always)]
    pub fn doze_pick(&mut self) {
        if let Some(task) = self.running
            && self.queue.doze(task).is_some()
        {
            self.sleepers.push(task);
        }
        self.pick();
    }

    /// Lets the running task fall asleep, picks, and wakes the task that has slept longest. Where nobody was left to run, it
    /// picks once more.
    #[inline(always)]
    pub fn sleep_pick_wake(&mut self) {
        self.sleep_pick();
        self.wake_next();
    }

    /// The same by a doze.
    #[inline(always)]
    pub fn doze_pick_wake(&mut self) {
        self.doze_pick();
        self.wake_next();
    }

    #[inline(always)]
    fn wake_next(&mut self) {
        let _ = self.queue.wake(self.sleepers.pop());
        if self.running.is_none() {
            self.pick();
        }
    }
}
