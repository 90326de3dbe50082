//! The names of the tasks.

use eevdf_closed_loop::Plan;
use eevdf_queue::TaskId;
use std::alloc::{AllocError, Global};

/// The names of the tasks, by number.
#[derive(Drop)]
pub(crate) struct Names {
    names: Vec<String>,
}

impl Names {
    /// The names of a plan's tasks: that of the group, and where they are several, a point and the number within the group.
    pub fn of(alloc: Global, plan: &Plan) -> Result<Names, AllocError> {
        let mut names = Vec::new(alloc);
        for group in &plan.groups {
            let name = &group.name;
            for number in 0..group.count {
                if group.count == 1 {
                    names.push(name.clone()?)?;
                } else {
                    names.push(format!(in alloc; "{name}.{number}")?)?;
                }
            }
        }
        Ok(Names { names })
    }

    /// The name of a task.
    pub fn name(&self, task: TaskId) -> &str {
        self.at(task.index())
    }

    /// The name of the task at a place.
    pub fn at(&self, place: usize) -> &str {
        match self.names.get(place) {
            Some(name) => name.as_str(),
            None => "?",
        }
    }
}
