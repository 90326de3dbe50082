//! The task of a line.

ghost use Rattle.std.specs.Prelude.{◌≡◌};
ghost use Rattle.eevdf_clocks.specs.Times as spec;

use eevdf_ops::{Answer, Deed, Line, Named, Origin};
use eevdf_queue::TaskId;

/// The task that a deed names.
pub fn named_task(deed: Deed) -> Option<TaskId>
    ensures { result ≡ spec.task_of deed }
{
    let (_, origin) = deed.parts();
    match origin {
        Origin::Request { task, .. } => Some(task),
        Origin::Operation(operation) => match operation.named() {
            Named::Task(task) | Named::TaskAtHome(task) => Some(task),
            Named::Source(_) | Named::Nothing => None,
        },
    }
}

/// The task that fell asleep or ended by a line.
pub(crate) fn asleep_task(line: &Line) -> Option<TaskId>
    ensures { result ≡ spec.asleep_by line.now.answer line.now.deed }
{
    match line.answer {
        Answer::Slept(_) | Answer::Ended => named_task(line.deed),
        _ => None,
    }
}

/// The task that a line found asleep, or may have: one that is set can be runnable, and then its CPU's clock is no earlier anyway.
pub(crate) fn found_task(line: &Line) -> Option<TaskId>
    ensures { result ≡ spec.found_by line.now.answer line.now.deed }
{
    match line.answer {
        Answer::Woken | Answer::Begun | Answer::Set => named_task(line.deed),
        _ => None,
    }
}
