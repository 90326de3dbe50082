//! The task that runs, if any.

ghost use Rattle.std.specs.Prelude.{◌≡◌};
ghost use Rattle.eevdf_queue.specs.Candidate as candidate;
ghost use Rattle.eevdf_queue.specs.Leaving as leaving;

use crate::task_id::TaskId;

/// Whether this number is the running task's.
pub fn is_running(running: &Option<TaskId>, number: TaskId) -> bool
    ensures { result ≡ candidate.is_running running.now number }
{
    *running == Some(number)
}

/// Lets nobody run where this task runs.
pub fn stop(running: &mut Option<TaskId>, number: TaskId)
    ensures { running.new ≡ leaving.stopped running.old number }
{
    if is_running(running, number) {
        *running = None;
    }
}
