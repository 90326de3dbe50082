//! The machine at the start: each task at its home.

ghost use Rattle.std.specs.Prelude.{◌≡◌, ◌≤◌, ◌<◌, None, true, length, replicate, slice_set, IfOk};
ghost use Rattle.std.specs.Prelude.{OnOk};
ghost use Rattle.eevdf_queue.specs.{State.empty_state, Leaving.IsNowhere, Moves.fresh_entry};
ghost use Rattle.eevdf_queue.specs.{Moves.is_entry_in_range};
ghost use Rattle.eevdf_ops.specs.{Faults.starts_in_range, Faults.tasks_fault, Numbers.most_tasks};
ghost use Rattle.eevdf_ops.specs.{Outcome.machine_of};
ghost use Rattle.eevdf_ops.specs.Machine as machine;

use crate::task_spec::TaskSpec;
use eevdf_queue::{Parcel, Queue, TaskId};
use std::alloc::{AllocError, Global};

/// The queues of so many CPUs, with each task at its home. The memory of the tasks is taken CPU by CPU, so that what threads of
/// different CPUs write to doesn't lie in turns.
pub(crate) fn queues_at_start(
    alloc: Global,
    cpus: usize,
    tasks: &[TaskSpec],
) -> Result<Vec<Queue>, AllocError>
    requires few { length tasks.now ≤ most_tasks }
    requires well { tasks_fault cpus 0 tasks.now ≡ None }
    ensures start { IfOk result (λ queues.
        machine_of queues.items ≡ machine.begin_at_homes 0 tasks.now (replicate cpus empty_state)) }
    ensures cpus { IfOk result (λ queues. length queues.items ≡ cpus) }
{
    let mut queues = Vec::with_capacity(alloc, cpus)?;
    for cpu in 0..cpus {
        // with no way to fail between the two, a queue is made in its place in the vector, and not copied there
        queues.push_reserved(Queue::open());
        fill_queue(alloc, cpus, cpu, tasks, &mut queues[cpu])?;
    }
    Ok(queues)
}

/// Puts the tasks whose home a CPU is into its queue. The queue is filled where it stands: a queue is so large that a move of it
/// takes longer than to fill it with a few tasks.
fn fill_queue(
    alloc: Global,
    cpus: usize,
    cpu: usize,
    tasks: &[TaskSpec],
    queue: &mut Queue,
) -> Result<(), AllocError>
    requires few { length tasks.now ≤ most_tasks }
    requires well { tasks_fault cpus 0 tasks.now ≡ None }
    requires cpu { cpu < cpus }
    requires empty { queue.old.state ≡ empty_state }
    ensures { OnOk result (queue.new.state
        ≡ machine.queue_at (machine.begin_at_homes 0 tasks.now (replicate cpus empty_state)) cpu) }
{
    for place in (0..tasks.len()).rev() {
        let spec = tasks[place];
        if spec.home.index() == cpu {
            begin(alloc, queue, task_number(place), spec)?;
        }
    }
    Ok(())
}

/// The number of the task at a place of the list of tasks.
pub(crate) fn task_number(place: usize) -> TaskId
    requires { place < most_tasks }
    ensures { result ≡ place }
{
    match TaskId::new(place as u64) {
        Some(task) => task,
        None => unreachable!(),
    }
}

/// Puts a task into the queue of its home.
fn begin(alloc: Global, queue: &mut Queue, task: TaskId, spec: TaskSpec) -> Result<(), AllocError>
    requires in_range { starts_in_range spec ≡ true }
    requires absent { IsNowhere queue.old.state task }
    ensures { OnOk result (queue.new.state ≡ machine.begin task spec queue.old.state) }
{
    let parcel = Parcel::make(alloc, task, spec.nice, spec.slice, spec.start)?;
    join(queue, parcel, spec.asleep);
    Ok(())
}

/// Puts a task that is in no place yet into a queue, asleep or runnable at its start.
fn join(queue: &mut Queue, parcel: Parcel, asleep: bool)
    requires absent { IsNowhere queue.old.state parcel.task }
    requires in_range { is_entry_in_range
        (fresh_entry parcel.start parcel.nice parcel.slice) ≡ true }
    ensures { queue.new.state ≡ machine.joined asleep parcel queue.old.state }
{
    if asleep {
        queue.put_asleep(parcel);
        return;
    }
    match queue.admit(parcel) {
        Ok(()) => {}
        Err(_parcel) => unreachable!(),
    }
}
