ghost use Rattle.std.specs.Prelude.{◌≡◌, ◌++◌, Some, OnOk};
ghost use Rattle.std.specs.FinMap as map;
ghost use Rattle.eevdf_report.specs.TextQueue.{queue_text, task_lines, asleep_lines, runnable_line};

use crate::text_tasks::{push_asleep_line, push_load_line, push_task_line};
use eevdf_queue::{Entry, Queue, TaskId};
use std::alloc::AllocError;

/// Writes the load, the virtual time and the tasks of a queue.
pub(crate) fn push_queue(text: &mut Vec<u8>, queue: &Queue) -> Result<(), AllocError>
    ensures { OnOk result (text.new.items ≡ text.old.items ++ queue_text queue.now.state) }
{
    push_load_line(text, queue.load(), queue.floor_time())?;
    push_task_lines(text, queue)?;
    push_asleep_lines(text, queue)
}

fn push_task_lines(text: &mut Vec<u8>, queue: &Queue) -> Result<(), AllocError>
    ensures { OnOk result (text.new.items ≡ text.old.items ++ task_lines queue.now.state) }
{
    for (task, entry) in queue.runnable_tasks() {
        push_runnable(text, queue, task, entry)?;
    }
    Ok(())
}

fn push_asleep_lines(text: &mut Vec<u8>, queue: &Queue) -> Result<(), AllocError>
    ensures { OnOk result (text.new.items ≡ text.old.items ++ asleep_lines queue.now.state) }
{
    for (task, lag) in queue.sleeping_tasks() {
        push_asleep_line(text, task, lag, queue.place_of(task))?;
    }
    Ok(())
}

fn push_runnable(
    text: &mut Vec<u8>,
    queue: &Queue,
    task: TaskId,
    entry: Entry,
) -> Result<(), AllocError>
    requires { map.get queue.now.state.runnable task ≡ Some entry }
    ensures { OnOk result (text.new.items
        ≡ text.old.items ++ runnable_line queue.now.state (task, entry)) }
{
    let lag = queue.lag_of(task).unwrap();
    let runs = queue.running() == Some(task);
    push_task_line(text, task, entry, lag, runs)
}
