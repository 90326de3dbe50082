use eevdf_queue::TaskId;
use std::alloc::{AllocError, Global};
use std::sync::{Mutex, Wait};

/// A list of tasks that threads share.
#[derive(Drop)]
pub struct TaskList {
    tasks: Mutex<Vec<TaskId>>,
}

impl TaskList {
    /// An empty list with room for so many tasks.
    pub fn new(alloc: Global, room: usize) -> Result<TaskList, AllocError> {
        Ok(TaskList {
            tasks: Mutex::new(Vec::with_capacity(alloc, room)?),
        })
    }

    /// Adds a task, for which there is room.
    pub fn add<R: Wait>(&self, rt: &R, task: TaskId) {
        let mut tasks = self.tasks.lock(rt);
        if tasks.len() < tasks.capacity() {
            tasks.push_reserved(task);
        }
    }

    /// Takes the task that was added last.
    pub fn take<R: Wait>(&self, rt: &R) -> Option<TaskId> {
        self.tasks.lock(rt).pop()
    }
}
