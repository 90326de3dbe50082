//! What a deed does, by its answer: to which task, and with which other CPU.

use eevdf_clocks::{Moment, named_task};
use eevdf_ops::{Answer, CpuId, Deed};
use eevdf_queue::TaskId;

/// The task that a deed charges.
pub fn charged_task(moment: &Moment) -> Option<TaskId> {
    match moment.line.answer {
        Answer::Charged { task, .. } => Some(task),
        _ => None,
    }
}

/// Whether a deed lowers the virtual times of its CPU.
pub fn is_rebase(moment: &Moment) -> bool {
    matches!(moment.line.answer, Answer::Rebased(_))
}

/// The task that a deed takes from its queue or puts into one, or that joins its queue again.
pub fn moved_task(moment: &Moment) -> Option<TaskId> {
    match moment.line.answer {
        Answer::Pulled(task) => Some(task),
        Answer::Slept(_) | Answer::Woken | Answer::Reniced | Answer::Ended | Answer::Set =>
            named_task(moment.line.deed),
        _ => None,
    }
}

/// The other CPU of a deed of two that was done: the one from which a task was pulled, or another one that asked for a wake.
pub fn other_cpu(moment: &Moment) -> Option<CpuId> {
    let answer = moment.line.answer;
    match moment.line.deed {
        Deed::Pull { source, .. } if matches!(answer, Answer::Pulled(_)) => Some(source),
        Deed::Wake { cpu, sender, .. } if answer == Answer::Woken && cpu != sender => Some(sender),
        _ => None,
    }
}

/// The CPU that asked for a wake.
pub fn sender_of(moment: &Moment) -> Option<CpuId> {
    match moment.line.deed {
        Deed::Wake { sender, .. } => Some(sender),
        _ => None,
    }
}

/// Who runs on a CPU after a line, where this task ran before it.
pub fn running_after(moment: &Moment, running: Option<TaskId>) -> Option<TaskId> {
    match moment.line.answer {
        Answer::Picked(task) => Some(task),
        Answer::Slept(_) => None,
        Answer::Ended if running == named_task(moment.line.deed) => None,
        _ => running,
    }
}

/// The task that a line concerns, where it names one.
pub fn task_of(moment: &Moment, running: Option<TaskId>) -> Option<TaskId> {
    match moment.line.answer {
        Answer::Charged { task, .. } | Answer::Picked(task) | Answer::Pulled(task) => Some(task),
        Answer::Yielded => running,
        _ => named_task(moment.line.deed),
    }
}
