//! What the tasks of the kernel lack of their shares.

use eevdf_fair_queue::{FairQueue, ShareMark};
use eevdf_queue::TaskId;

/// The marks of the runnable tasks, each of the moment at which its task came or was moved last.
#[derive(Drop)]
pub struct Lacks {
    marks: [Option<ShareMark>; 12],
    /// The most nanoseconds that a task lacked since its mark.
    pub greatest: u128,
}

impl Lacks {
    /// Of a kernel without tasks.
    pub fn none() -> Lacks {
        Lacks {
            marks: [None; 12],
            greatest: 0,
        }
    }

    /// Reads what each task lacks after a call that may have moved one, and marks those that have come.
    pub fn look(&mut self, queue: &FairQueue, moved: Option<TaskId>) {
        for number in 0..12u64 {
            if let Some(task) = TaskId::new(number) {
                self.look_at(queue, task, moved == Some(task));
            }
        }
    }

    fn look_at(&mut self, queue: &FairQueue, task: TaskId, was_moved: bool) {
        let Some(mark) = self.marks.get_mut(task.get() as usize) else {
            return;
        };
        if was_moved {
            *mark = None;
        }
        let lack = match *mark {
            Some(before) => queue.share_bound(task, before),
            None => None,
        };
        match lack {
            Some(ns) => self.greatest = self.greatest.max(ns),
            None => *mark = queue.share_mark(task),
        }
    }
}
