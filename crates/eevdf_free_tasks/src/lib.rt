//! The free numbers of tasks that come and go: which of a home's numbers a task that comes may have.
//!
//! [`FreeTasks`] keeps the numbers of one home, in one thread. [`FreePart`]s keep those of all homes, one for each CPU, and may be in
//! several threads: a number that is given back at another CPU than its home goes there through a ring. [`free_parts`] makes them for a
//! setup. A number that is taken is a [`TakenTask`], which can be given back once alone. [`TakenTasks`] has a place for each, where it is
//! put down for whoever ends the task.
#![tactic(auto)]

mod free_part;
mod free_tasks;
mod opening;
mod ring_ends;
mod slot;
mod taken_task;
mod taken_tasks;

pub use free_part::FreePart;
pub use free_tasks::FreeTasks;
pub use opening::free_parts;
pub use slot::Slot;
pub use taken_task::TakenTask;
pub use taken_tasks::TakenTasks;
