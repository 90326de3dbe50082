ghost use Rattle.std.specs.Prelude.{◌+◌, ◌≤◌, length};
ghost use Rattle.eevdf_ops.specs.Numbers.{most_tasks};

use crate::machine_start::task_number;
use crate::task_spec::TaskSpec;
use eevdf_queue::TaskId;

/// The tasks of a setup, each with its number, in ascending order.
#[derive(Drop)]
pub struct SetupTasks<'a> {
    next: usize,
    specs: &'a [TaskSpec],
    ghost few: { next + length specs.now ≤ most_tasks },
}

impl<'a> SetupTasks<'a> {
    ghost use Rattle.std.specs.Prelude.{◌≡◌, ◌≤◌, length};
    ghost use Rattle.std.specs.List.{enumerate_from};
    ghost use Rattle.eevdf_ops.specs.TasksLeft.{tasks_left};

    /// The tasks of this list, numbered by their places.
    pub(crate) fn of(specs: &'a [TaskSpec]) -> SetupTasks<'a>
        requires { length specs.now ≤ most_tasks }
        ensures { tasks_left result ≡ enumerate_from 0 specs.now }
    {
        SetupTasks { next: 0, specs }
    }
}

impl Iterator for SetupTasks<'_> {
    ghost use Rattle.std.specs.Iterator.{YieldsFirst, item_count};
    ghost use Rattle.eevdf_ops.specs.TasksLeft.{tasks_left};

    type Item = (TaskId, TaskSpec);

    ghost next_gives = { YieldsFirst tasks_left };

    ghost remaining = { item_count tasks_left };

    fn next(&mut self) -> Option<(TaskId, TaskSpec)> {
        let (spec, specs) = self.specs.split_first()?;
        let task = task_number(self.next);
        *self = SetupTasks {
            next: self.next + 1,
            specs,
        };
        Some((task, *spec))
    }
}
