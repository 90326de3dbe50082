//! What a digest takes in of machines: of what is done on them, and of what they come to.

use crate::digest::Digest;
use eevdf_ops::{Answer, Deed, Line, Outcome};
use eevdf_queue::{Queue, TaskId};

impl Digest {
    /// Takes in what a deed is answered.
    #[inline(always)]
    pub fn add_answer(&mut self, answer: &Answer) {
        self.add(word_of(answer));
        if let Answer::Slept(number) | Answer::Rebased(number) = answer {
            self.add_signed(*number);
        }
    }

    /// Takes in deeds with their answers.
    pub fn add_history(&mut self, history: &[Line]) {
        self.add(history.len() as u64);
        for line in history {
            self.add_deed(&line.deed);
            self.add_answer(&line.answer);
        }
    }

    fn add_deed(&mut self, deed: &Deed) {
        match *deed {
            Deed::Tick { cpu, ns } => self.add_words(&[1, cpu.get(), ns.get()]),
            Deed::Pick { cpu } => self.add_words(&[2, cpu.get()]),
            Deed::Yield { cpu } => self.add_words(&[3, cpu.get()]),
            Deed::Sleep { cpu, task } => self.add_words(&[4, cpu.get(), task.get()]),
            Deed::Wake { cpu, task, sender } => {
                self.add_words(&[5, cpu.get(), task.get(), sender.get()])
            }
            Deed::Pull { cpu, source } => self.add_words(&[6, cpu.get(), source.get()]),
            Deed::Renice { cpu, task, nice } => {
                self.add_words(&[7, cpu.get(), task.get()]);
                self.add_signed(nice.get());
            }
            Deed::Begin {
                cpu,
                task,
                nice,
                slice,
            } => {
                self.add_words(&[8, cpu.get(), task.get(), slice.get()]);
                self.add_signed(nice.get());
            }
            Deed::End { cpu, task } => self.add_words(&[9, cpu.get(), task.get()]),
            Deed::Set {
                cpu,
                task,
                nice,
                slice,
            } => {
                self.add_words(&[10, cpu.get(), task.get(), slice.get()]);
                self.add_signed(nice.get());
            }
            Deed::Rebase { cpu } => self.add_words(&[11, cpu.get()]),
            Deed::Doze { cpu, task } => self.add_words(&[12, cpu.get(), task.get()]),
        }
    }

    /// Takes in the queues of a machine.
    pub fn add_queues(&mut self, queues: &[Queue]) {
        for queue in queues {
            self.add_queue(queue);
        }
    }

    /// Takes in the tasks of requests that are left.
    pub fn add_requests(&mut self, requests: &[TaskId]) {
        self.add(requests.len() as u64);
        for task in requests {
            self.add(task.get());
        }
    }

    /// Takes in the history, the queues and the requests of a run.
    pub fn add_outcome(&mut self, outcome: &Outcome) {
        self.add_history(outcome.history());
        for cpu in 0..outcome.cpus() {
            self.add_queue(outcome.queue(cpu));
            for home in 0..outcome.cpus() {
                self.add_requests(outcome.left(cpu, home));
            }
        }
    }
}

/// A word for an answer, without the lag of a task that fell asleep and the number by which virtual times are lower.
#[inline(always)]
fn word_of(answer: &Answer) -> u64 {
    match answer {
        Answer::Charged { task, resched } => 0x1_0000 + 2 * task.get() + u64::from(*resched),
        Answer::Picked(task) => 0x2_0000 + task.get(),
        Answer::Pulled(task) => 0x3_0000 + task.get(),
        Answer::Idle => 1,
        Answer::Yielded => 2,
        Answer::NotRunning => 3,
        Answer::Woken => 4,
        Answer::Awake => 5,
        Answer::Balanced => 6,
        Answer::Nothing => 7,
        Answer::Range => 8,
        Answer::Reniced => 9,
        Answer::NotHere => 10,
        Answer::Slept(_) => 11,
        Answer::Begun => 12,
        Answer::Ended => 13,
        Answer::Set => 14,
        Answer::Rebased(_) => 15,
    }
}
