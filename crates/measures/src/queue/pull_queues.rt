ghost use Rattle.std.specs.Prelude.{IsTrue};
ghost use Rattle.eevdf_queue.specs.Leaving.{IsNowhere};
ghost use Rattle.measures.specs.SharedTasks.{ShareNoTask};

use crate::queue::answer_words::of_task;
use crate::queue::asked_run::AskedRun;
use crate::queue::checksum::Checksum;
use crate::queue::task_values::{admit, drawn_task, words_for};
use crate::queue::turn_values::TurnValues;
use crate::queue::warm_up::warm_up;
use eevdf_queue::laws::every_queue;
use eevdf_queue::{Parcel, Queue, TaskId};
use std::alloc::{AllocError, Global};

/// Two queues that share the tasks, and the checksum of their answers.
#[derive(Drop)]
pub struct PullQueues {
    first: Queue,
    second: Queue,
    checksum: Checksum,
}

impl PullQueues {
    /// Two queues with half of the tasks of a run each, by turns, after the warm-up of each. A task that is alone isn't warmed up.
    pub fn open(alloc: Global, run: &AskedRun) -> Result<PullQueues, AllocError> {
        let mut words = words_for(run.tasks);
        let mut queues = PullQueues {
            first: Queue::open(),
            second: Queue::open(),
            checksum: Checksum::new(),
        };
        for number in 0..run.tasks {
            let parcel = drawn_task(alloc, &mut words, number, run.tasks)?;
            if number % 2 == 0 {
                admit(&mut queues.first, parcel);
            } else {
                admit(&mut queues.second, parcel);
            }
        }
        if run.tasks > 1 {
            let values = TurnValues::draw(&mut words, run.tasks);
            warm_up(&mut queues.first, &values, &mut queues.checksum);
            warm_up(&mut queues.second, &values, &mut queues.checksum);
        }
        Ok(queues)
    }

    pub fn sum(&self) -> u64 {
        self.checksum.sum()
    }

    /// Whether no task stands in both queues.
    pub fn share_no_task(&self) -> bool
        ensures { IsTrue result → ShareNoTask self.now.first.state self.now.second.state }
    {
        share_no_task(&self.first, &self.second)
    }

    /// Pulls from the first queue to the second.
    #[inline(always)]
    pub fn pull_forth(&mut self)
        requires { ShareNoTask self.old.first.state self.old.second.state }
        ensures { ShareNoTask self.new.first.state self.new.second.state }
    {
        let pulled = pull(&mut self.first, &mut self.second);
        self.checksum.add(of_task(pulled));
    }

    /// Pulls from the second queue to the first.
    #[inline(always)]
    pub fn pull_back(&mut self)
        requires { ShareNoTask self.old.first.state self.old.second.state }
        ensures { ShareNoTask self.new.first.state self.new.second.state }
    {
        let pulled = pull(&mut self.second, &mut self.first);
        self.checksum.add(of_task(pulled));
    }
}

fn share_no_task(first: &Queue, second: &Queue) -> bool
    ensures { IsTrue result → ShareNoTask first.now.state second.now.state }
{
    for number in 0..1024 {
        let task = TaskId::new(number).unwrap();
        if first.contains(task) && second.contains(task) {
            return false;
        }
    }
    every_queue(first);
    true
}

/// Brings the candidate of a queue to another. Where it can't be placed there, it falls asleep.
#[inline(always)]
fn pull(from: &mut Queue, to: &mut Queue) -> Option<TaskId>
    requires { ShareNoTask from.old.state to.old.state }
    ensures { ShareNoTask from.new.state to.new.state }
{
    let task = from.candidate()?;
    let parcel = from.detach(task);
    settle(from, to, parcel);
    Some(task)
}

/// Puts a task that stands in neither queue where it can be placed.
#[inline(always)]
fn settle(from: &mut Queue, to: &mut Queue, parcel: Parcel)
    requires apart { ShareNoTask from.old.state to.old.state }
    requires left { IsNowhere from.old.state parcel.task }
    requires new { IsNowhere to.old.state parcel.task }
    ensures { ShareNoTask from.new.state to.new.state }
{
    if to.can_place(parcel.nice(), parcel.slice(), parcel.lag()) {
        to.attach(parcel);
    } else {
        from.put_asleep(parcel);
    }
}
