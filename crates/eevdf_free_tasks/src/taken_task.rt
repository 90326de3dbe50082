use eevdf_queue::TaskId;
use std::marker::Model;

/// The number of a task, taken from the free numbers of its home: as long as the value is there, nobody else gets the number.
///
/// It isn't `Drop`, and there is no way to copy it. So a program that forgets one isn't accepted, nor is one that gives it back twice: it
/// gives it back ([`crate::FreePart::give_back`]), puts it down for whoever ends the task ([`crate::TakenTasks::put`]), or lets it go for
/// good by [`TakenTask::retire`].
pub struct TakenTask {
    task: TaskId,
}

impl Model for TakenTask {
    ghost use Rattle.std.specs.Prelude.{ℕ};

    ghost Value = { ℕ };

    ghost view = { λ t. t.task };
}

impl TakenTask {
    ghost use Rattle.std.specs.Prelude.{◌≡◌};

    /// The number, which nobody else has.
    pub(crate) fn of(task: TaskId) -> TakenTask
        ensures { result ≡ task }
    {
        TakenTask { task }
    }

    /// The number itself, by which calls name the task.
    pub fn task(&self) -> TaskId
        ensures { result ≡ self.now }
    {
        self.task
    }

    /// Lets the number go for good: no task that comes gets it any more. So do programs that end while tasks have numbers.
    pub fn retire(self) -> TaskId
        ensures { result ≡ self }
    {
        let TakenTask { task } = self;
        task
    }
}
