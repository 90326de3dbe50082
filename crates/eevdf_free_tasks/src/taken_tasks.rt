use crate::taken_task::TakenTask;
use eevdf_ops::Setup;
use eevdf_queue::TaskId;
use std::alloc::{AllocError, Global};
use std::sync::atomic::{AtomicBool, Ordering};

/// A place for each number of a machine, where the value of a taken one is put down for whoever ends its task, on whatever thread. A number
/// comes out of its place once for each time that it was put there, so of several threads that end a task one alone gets the value. That
/// is tested: no clause speaks of what the places hold, as threads share them.
#[derive(Drop)]
pub struct TakenTasks {
    // whether the value of the number is there
    places: Vec<AtomicBool>,
}

impl TakenTasks {
    ghost use Rattle.std.specs.Prelude.{◌≡◌, IfErr, IfSome};

    /// A place for each task of the setup, all of them empty. The answer is `AllocError` where memory is refused.
    pub fn new(alloc: Global, setup: &Setup) -> Result<TakenTasks, AllocError> {
        let mut places = Vec::with_capacity(alloc, setup.tasks())?;
        for _task in 0..setup.tasks() {
            places.push(AtomicBool::new(false))?;
        }
        Ok(TakenTasks { places })
    }

    /// Puts a number into its place. It comes back where there is no such place, or where it is full: that can be of the numbers of two
    /// machines alone.
    pub fn put(&self, taken: TakenTask) -> Result<(), TakenTask>
        ensures { IfErr result (λ back. back ≡ taken) }
    {
        match self.places.get(taken.task().index()) {
            Some(place) if !place.swap(true, Ordering::SeqCst) => {
                let _ = taken.retire();
                Ok(())
            }
            _ => Err(taken),
        }
    }

    /// Takes a number out of its place. `None` where it isn't there.
    pub fn take(&self, task: TaskId) -> Option<TakenTask>
        ensures { IfSome result (λ taken. taken ≡ task) }
    {
        if self.places.get(task.index())?.swap(false, Ordering::SeqCst) {
            Some(TakenTask::of(task))
        } else {
            None
        }
    }

    /// Whether a number is in its place. Other threads may put it there, or take it out, at any time.
    pub fn has(&self, task: TaskId) -> bool {
        match self.places.get(task.index()) {
            Some(place) => place.load(Ordering::SeqCst),
            None => false,
        }
    }
}
