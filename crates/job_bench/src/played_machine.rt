//! A machine that does each deed as soon as it is drawn, so that the next one can be drawn by what it has come to.

use crate::digest::Digest;
use crate::drawn_deeds::{Deeds, drawn_deed, wake_at_home};
use crate::drawn_machine::Shape;
use crate::job_fault::JobFault;
use drawn_values::Draws;
use eevdf_ops::{Answer, CpuId, Deed, Setup, Solo};
use eevdf_queue::{Queue, TaskId};
use std::alloc::{AllocError, Global};
use std::collections::VecDeque;

/// The machine, and the tasks that slept at the start or fell asleep, first in first out. A task that was woken out of its turn stays
/// among them, and one whose wake was refused doesn't.
#[derive(Drop)]
pub struct PlayedMachine {
    solo: Solo,
    sleepers: VecDeque<TaskId>,
}

impl PlayedMachine {
    pub fn open(alloc: Global, setup: &Setup) -> Result<PlayedMachine, JobFault> {
        let mut sleepers = VecDeque::new(alloc);
        for (task, spec) in setup.each_task() {
            if spec.asleep {
                sleepers.push_back(task)?;
            }
        }
        let solo = Solo::open(alloc, setup)?;
        Ok(PlayedMachine { solo, sleepers })
    }

    /// Draws a deed: of this CPU, or a wake at another task's home. Most sleeps are of the task that runs there, and most wakes of the
    /// task that comes first among those that fell asleep.
    pub fn draw(&mut self, shape: &Shape, cpu: CpuId, draws: &mut Draws) -> Deed {
        match draws.below(100) {
            0..32 => self.sleep_of_running(cpu),
            32..50 => self.wake_of_first(shape, cpu, draws),
            _ => drawn_deed(shape, Deeds::Mixed, cpu, draws),
        }
    }

    /// A sleep of the task that runs on a CPU, and a pick where none runs.
    fn sleep_of_running(&self, cpu: CpuId) -> Deed {
        match self.running(cpu) {
            Some(task) => Deed::Sleep { cpu, task },
            None => Deed::Pick { cpu },
        }
    }

    fn running(&self, cpu: CpuId) -> Option<TaskId> {
        if self.solo.has_cpu(cpu) {
            self.solo.queue(cpu).running()
        } else {
            None
        }
    }

    /// A wake of the first task among those that fell asleep, and a pick where there is none.
    fn wake_of_first(&mut self, shape: &Shape, cpu: CpuId, draws: &mut Draws) -> Deed {
        match self.sleepers.pop_front() {
            Some(task) => wake_at_home(shape, task, draws),
            None => Deed::Pick { cpu },
        }
    }

    /// Does a deed, and takes in what it is answered.
    pub fn apply(&mut self, deed: Deed, digest: &mut Digest) -> Result<(), JobFault> {
        let answer = self.solo.try_apply(deed).ok_or(JobFault::Machine)?;
        digest.add_answer(&answer);
        if let Some(task) = fell_asleep(&deed, &answer) {
            self.sleepers.push_back(task)?;
        }
        Ok(())
    }

    /// The queues, by CPU.
    pub fn into_queues(self) -> Vec<Queue> {
        let PlayedMachine { solo, sleepers: _ } = self;
        solo.into_queues()
    }
}

/// The task that fell asleep by a deed.
fn fell_asleep(deed: &Deed, answer: &Answer) -> Option<TaskId> {
    match (deed, answer) {
        (Deed::Sleep { cpu: _, task }, Answer::Slept(_)) => Some(*task),
        _ => None,
    }
}
