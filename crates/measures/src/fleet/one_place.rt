//! Whether a run has lost or doubled a task.

use eevdf_ops::Outcome;
use eevdf_queue::TaskId;

/// Whether each of so many tasks stands in one place: it is runnable on one CPU, or asleep on one.
pub fn all_stand_once(outcome: &Outcome, tasks: u64) -> bool {
    for number in 0..tasks {
        if places_of(outcome, number) != 1 {
            return false;
        }
    }
    true
}

/// In how many places the task of this number stands.
fn places_of(outcome: &Outcome, number: u64) -> u64 {
    let Some(task) = TaskId::new(number) else {
        return 0;
    };
    let mut places = 0u64;
    for cpu in 0..outcome.cpus() {
        let queue = outcome.queue(cpu);
        let runnable = u64::from(queue.entry(task).is_some());
        let asleep = u64::from(queue.asleep(task));
        places = places.saturating_add(runnable + asleep);
    }
    places
}
