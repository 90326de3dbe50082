//! What a digest takes in of queues, of their tasks and of what their calls answer.

use crate::digest::Digest;
use eevdf_queue::{
    Entry, Parcel, Queue, Refusal, Refused, ReniceAnswer, Sleeper, TaskId, TickAnswer, WakeAnswer,
    YieldAnswer,
};
use eevdf_weight::{Nice, Ns, Slice};

impl Digest {
    /// Takes in a task's number, and where there is none, one that no task has.
    #[inline(always)]
    pub fn add_task(&mut self, task: Option<TaskId>) {
        self.add(match task {
            Some(task) => task.get(),
            None => 0xffff,
        });
    }

    /// Takes in a lag, where there is one.
    pub fn add_lag(&mut self, lag: Option<i64>) {
        self.add(u64::from(lag.is_some()));
        if let Some(lag) = lag {
            self.add_signed(lag);
        }
    }

    /// Takes in a time, and where there is none, 0, which no time is.
    pub fn add_time(&mut self, time: Option<Ns>) {
        self.add(match time {
            Some(ns) => ns.get(),
            None => 0,
        });
    }

    /// Takes in the entry of a task, where it has one.
    pub fn add_entry(&mut self, entry: Option<Entry>) {
        self.add(u64::from(entry.is_some()));
        if let Some(entry) = entry {
            self.add_signed(entry.v);
            self.add_signed(entry.d);
            self.add_request(entry.nice, entry.slice);
        }
    }

    /// Takes in what is kept of a sleeping task, where something is.
    pub fn add_sleeper(&mut self, sleeper: Option<Sleeper>) {
        self.add(u64::from(sleeper.is_some()));
        if let Some(sleeper) = sleeper {
            self.add_signed(sleeper.lag);
            self.add_request(sleeper.nice, sleeper.slice);
        }
    }

    /// Takes in all that a parcel carries.
    pub fn add_parcel(&mut self, parcel: &Parcel) {
        self.add(parcel.task().get());
        self.add_signed(parcel.start());
        self.add_signed(parcel.lag());
        self.add_request(parcel.nice(), parcel.slice());
    }

    /// Takes in a nice level and the length of requests.
    fn add_request(&mut self, nice: Nice, slice: Slice) {
        self.add_signed(nice.get());
        self.add(slice.get());
    }

    /// Takes in whether a task was taken, and gives the parcel of one that was refused.
    pub fn add_taken(&mut self, taken: Result<(), Refused>) -> Option<Parcel> {
        let Err(Refused { parcel, reason }) = taken else {
            self.add(1);
            return None;
        };
        self.add(match reason {
            Refusal::Present => 2,
            Refusal::Range => 3,
        });
        self.add_parcel(&parcel);
        Some(parcel)
    }

    pub fn add_tick(&mut self, answer: TickAnswer) {
        self.add(match answer {
            TickAnswer::Idle => 1,
            TickAnswer::Range => 2,
            TickAnswer::Charged { task, resched } => 4 * task.get() + u64::from(resched) + 8,
        });
    }

    pub fn add_yield(&mut self, answer: YieldAnswer) {
        self.add(match answer {
            YieldAnswer::Idle => 1,
            YieldAnswer::Range => 2,
            YieldAnswer::Yielded => 3,
        });
    }

    pub fn add_wake(&mut self, answer: WakeAnswer) {
        self.add(match answer {
            WakeAnswer::Awake => 1,
            WakeAnswer::Range => 2,
            WakeAnswer::Woken => 3,
        });
    }

    pub fn add_renice(&mut self, answer: ReniceAnswer) {
        self.add(match answer {
            ReniceAnswer::NotHere => 1,
            ReniceAnswer::Range => 2,
            ReniceAnswer::Reniced => 3,
        });
    }

    /// Takes in the state of a queue, with that of each of its tasks.
    pub fn add_queue(&mut self, queue: &Queue) {
        self.add(queue.len() as u64);
        self.add(queue.load());
        self.add_signed(queue.floor_time());
        self.add(u64::from(queue.pick_steps()));
        self.add_task(queue.running());
        self.add_task(queue.candidate());
        self.add_task(queue.peek());
        self.add_time(queue.time_to_resched());
        self.add_runnable(queue);
        self.add_sleeping(queue);
    }

    fn add_runnable(&mut self, queue: &Queue) {
        for (task, entry) in queue.runnable_tasks() {
            self.add(task.get());
            self.add_entry(Some(entry));
        }
    }

    fn add_sleeping(&mut self, queue: &Queue) {
        for (task, lag) in queue.sleeping_tasks() {
            self.add(task.get());
            self.add_signed(lag);
            self.add_sleeper(queue.sleeper(task));
        }
    }
}
