ghost use Rattle.std.specs.Prelude.{◌<◌};

use crate::dropped_queue::asked_tasks::AskedTasks;
use crate::refused_parcels::end_if_refused;
use eevdf_queue::{Parcel, Queue, TaskId};
use eevdf_weight::{Nice, Slice};
use std::alloc::{AllocError, Global};

/// Adds the runnable tasks to a queue, and after them the sleeping ones, in ascending number.
pub fn fill(queue: &mut Queue, alloc: Global, tasks: &AskedTasks) -> Result<(), AllocError> {
    for number in 0..tasks.runnable {
        end_if_refused(queue.try_admit(task_of(alloc, number)?));
    }
    for number in tasks.runnable..tasks.runnable + tasks.asleep {
        let parcel = task_of(alloc, number)?;
        if queue.contains(parcel.task()) {
            parcel.retire();
        } else {
            queue.put_asleep(parcel);
        }
    }
    Ok(())
}

/// A task of nice level 0 that starts at the virtual time 0.
fn task_of(alloc: Global, number: u64) -> Result<Parcel, AllocError>
    requires { number < 1024 }
{
    let task = TaskId::new(number).unwrap();
    let nice = Nice::new(0).unwrap();
    let slice = Slice::new(3_000_000).unwrap();
    Parcel::make(alloc, task, nice, slice, 0)
}
