ghost use Rattle.std.specs.Prelude.{◌≡◌, ◌<◌};
ghost use Rattle.eevdf_queue.specs.Numbers.{checked_number, number_limit};

use std::error::Error;
use std::fmt;
use std::marker::Model;

/// The number of a task, from 0 to 1023.
#[derive(Clone, Copy, PartialEq, Eq, PartialOrd, Ord, Hash, Debug)]
pub struct TaskId {
    number: u16,
}

impl Model for TaskId {
    ghost use Rattle.std.specs.Prelude.{ℕ, ◌<◌};
    ghost use Rattle.eevdf_queue.specs.Numbers.{number_limit};

    ghost Value = { ℕ };

    ghost view = { λ t. t.number };

    ghost invariant = { λ t. t.number < number_limit };

    ghost inverse = { λ n. record { number = n } };
}

impl TaskId {
    /// How many numbers there are for tasks: 1024, from 0 on.
    pub const COUNT: usize = 1024;

    /// The number as a task's, or `None` exactly from 1024 on.
    pub fn new(number: u64) -> Option<TaskId>
        ensures { result ≡ checked_number number }
    {
        if number < TaskId::COUNT as u64 {
            Some(TaskId {
                number: number as u16,
            })
        } else {
            None
        }
    }

    /// The number, below 1024.
    pub fn get(self) -> u64
        ensures number { result ≡ self }
        ensures below { result < number_limit }
    {
        u64::from(self.number)
    }

    /// The number as a place in a list that has one for each task, below 1024.
    pub fn index(self) -> usize
        ensures number { result ≡ self }
        ensures below { result < number_limit }
    {
        usize::from(self.number)
    }
}

impl From<TaskId> for u64 {
    ghost from_gives = { λ task number. number ≡ task };

    fn from(task: TaskId) -> u64 {
        task.get()
    }
}

/// A number that no task has.
#[derive(Clone, Copy, PartialEq, Eq, Hash, Debug)]
pub struct BadTaskId(pub u64);

impl TryFrom<u64> for TaskId {
    type Error = BadTaskId;

    ghost use Rattle.std.specs.Prelude.{◌≡◌, ok_or};
    ghost use Rattle.eevdf_queue.specs.Numbers.{checked_number};

    ghost try_from_gives = { λ number r. r
        ≡ ok_or (checked_number number) (record { 0 = number }) };

    fn try_from(number: u64) -> Result<TaskId, BadTaskId> {
        TaskId::new(number).ok_or(BadTaskId(number))
    }
}

/// The number in decimal.
impl fmt::Display for TaskId {
    ghost use Rattle.std.specs.{Prelude.Some, Prelude.decimal, Fmt.styled_decimal};

    ghost output = { λ task. Some (decimal task) };

    ghost styled_output = { λ task style. Some (styled_decimal style task) };

    fn fmt<W: fmt::Write>(&self, f: &mut fmt::Formatter<W>) -> fmt::Result {
        fmt::Display::fmt(&self.number, f)
    }
}

impl fmt::Display for BadTaskId {
    ghost use Rattle.std.specs.Prelude.{Some, ◌++◌, codes, decimal};

    ghost output = { λ bad. Some (decimal bad.0 ++ codes " is no number of a task") };

    fn fmt<W: fmt::Write>(&self, f: &mut fmt::Formatter<W>) -> fmt::Result {
        write!(f, "{} is no number of a task", self.0)
    }
}

impl Error for BadTaskId {}
