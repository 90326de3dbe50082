//! Calls of one queue, whose answers go into a digest.

use crate::digest::Digest;
use eevdf_queue::{Parcel, Queue, TaskId};
use eevdf_weight::Ns;

/// Puts a task in, where there is room.
pub fn admit(queue: &mut Queue, parcel: Parcel, digest: &mut Digest) {
    if let Some(parcel) = digest.add_taken(queue.try_admit(parcel)) {
        parcel.retire();
    }
}

pub fn pick(queue: &mut Queue, digest: &mut Digest) {
    digest.add_task(queue.pick());
    digest.add(u64::from(queue.pick_steps()));
}

pub fn tick(queue: &mut Queue, ns: Ns, digest: &mut Digest) {
    digest.add_tick(queue.tick(ns));
}

/// Lets the running task fall asleep, and answers which it was.
pub fn sleep_running(queue: &mut Queue, digest: &mut Digest) -> Option<TaskId> {
    let running = queue.running();
    digest.add_task(running);
    let parcel = queue.detach_running(running?)?;
    digest.add_parcel(&parcel);
    queue.put_asleep(parcel);
    running
}

/// Takes out all tasks and ends them, and takes in the queue that is left.
pub fn close(queue: &mut Queue, digest: &mut Digest) {
    for _task in 0..TaskId::COUNT {
        let Some(parcel) = queue.take_any() else {
            break;
        };
        digest.add_parcel(&parcel);
        parcel.retire();
    }
    digest.add_queue(queue);
}

/// Moves the candidate of a queue to another one, where it can be placed, and else back.
pub fn move_candidate(from: &mut Queue, to: &mut Queue, digest: &mut Digest) {
    let Some(task) = from.candidate() else {
        digest.add_task(None);
        return;
    };
    digest.add_task(Some(task));
    let parcel = from.detach(task);
    digest.add_parcel(&parcel);
    let Some(parcel) = digest.add_taken(to.try_attach(parcel)) else {
        return;
    };
    if let Some(parcel) = digest.add_taken(from.try_attach(parcel)) {
        parcel.retire();
    }
}
