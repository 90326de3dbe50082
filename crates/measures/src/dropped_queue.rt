//! What a queue leaves behind: `measures dropped-queue RUNNABLE ASLEEP` fills one with so many runnable tasks and so many sleeping ones,
//! drops it, and prints how many of each it held. `checks/memory.py` looks whether all memory is given back then, and `checks/stack.py` how
//! much stack it takes.

mod asked_tasks;
mod filling;

pub use crate::dropped_queue::asked_tasks::AskedTasks;
use crate::dropped_queue::filling::fill;
use crate::endings::{fail, status_of};
use eevdf_queue::Queue;
use std::alloc::Global;

/// Fills a queue, drops it and prints what it held, and gives the exit status.
#[inline(never)]
pub fn measure(rt: &(impl Print + Eprint), alloc: Global, tasks: &AskedTasks) -> u8 {
    let mut queue = Queue::open();
    if fill(&mut queue, alloc, tasks).is_err() {
        return fail(rt, "dropped-queue", "out of memory");
    }
    let (runnable, asleep) = (queue.len(), sleeping_in(&queue));
    drop(queue);
    status_of(println!(rt; "{runnable} runnable, {asleep} asleep"))
}

/// How many tasks sleep in a queue.
fn sleeping_in(queue: &Queue) -> u64 {
    let mut count: u64 = 0;
    for _ in queue.sleeping_tasks() {
        count = count.saturating_add(1);
    }
    count
}
