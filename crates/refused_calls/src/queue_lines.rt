//! What is told of a queue, in lines.

use eevdf_queue::{Entry, Queue, TaskId};

/// Prints what is told of a queue and of each of its tasks.
pub fn say_queue(rt: &impl Print, queue: &Queue) {
    say_sums(rt, queue);
    say_task(rt, "running", queue.running());
    say_task(rt, "candidate", queue.candidate());
    if let Some(offer) = queue.offer() {
        let _ = offer.lag();
    }
    for (task, entry) in queue.runnable_tasks() {
        say_runnable(rt, queue, task, entry);
    }
    for (task, lag) in queue.sleeping_tasks() {
        say_asleep(rt, queue, task, lag);
    }
}

/// Prints what is told of a queue without its tasks.
pub fn say_sums(rt: &impl Print, queue: &Queue) {
    let load = queue.load();
    let floor = queue.floor_time();
    let len = queue.len();
    let steps = queue.pick_steps();
    let _ = println!(rt; "load {load} floor {floor} tasks {len} steps {steps}");
}

fn say_task(rt: &impl Print, what: &str, task: Option<TaskId>) {
    if let Some(task) = task {
        let number = task.get();
        let _ = println!(rt; "{what} {number}");
    }
}

fn say_runnable(rt: &impl Print, queue: &Queue, task: TaskId, entry: Entry) {
    let number = task.get();
    let v = entry.v;
    let d = entry.d;
    let is_here = queue.contains(task) && queue.entry(task).is_some() && !queue.is_empty();
    let lag = queue.lag_of(task).unwrap_or(0);
    let _ = println!(rt; "task {number} v {v} d {d} lag {lag} here {is_here}");
}

fn say_asleep(rt: &impl Print, queue: &Queue, task: TaskId, lag: i64) {
    let number = task.get();
    let is_asleep = queue.contains(task) && queue.asleep(task);
    let _ = println!(rt; "task {number} lag {lag} asleep {is_asleep}");
    if let Some(place) = queue.place_of(task) {
        let _ = println!(rt; "task {number} dozes at {place}");
    }
}
