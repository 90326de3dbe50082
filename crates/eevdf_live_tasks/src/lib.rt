//! Tasks of a fleet that come and go under the numbers of its machine, so that none is picked under a number that no task has.
//!
//! A request to wake a task is drained some time after it was posted. By then its task may have ended, and then the wake makes the number
//! runnable though no task has it: a stray. [`LiveTasks`] knows which numbers tasks have. Where all threads begin, drain, pick and end by
//! its calls, and each task is ended where it runs, waits or sleeps, a home ends each stray after the drain that woke it. One that was
//! pulled to another CPU before that stays there until a pick finds it, which ends it. So `pick` gives no number that no task has. A
//! drain's list has the wake of a stray as any other, and a pull may move one.
#![tactic(auto)]

mod live_tasks;

pub use live_tasks::LiveTasks;
