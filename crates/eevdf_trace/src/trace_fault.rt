//! Why a trace is refused.

use std::alloc::{AllocError, AllocFailed};
use std::error::Error;
use std::fmt;

/// A place in the bytes of a trace.
#[derive(Clone, Copy, PartialEq, Eq, Debug)]
pub struct Place {
    pub start: usize,
    pub end: usize,
}

/// What is wrong with a trace.
#[derive(Clone, Copy, PartialEq, Eq, Debug)]
pub enum Wrong {
    /// Out of memory.
    Memory,
    /// The text has more than `MOST_BYTES` bytes.
    TooLarge,
    /// It isn't UTF-8.
    NotText,
    /// No line of it is about a switch or a wakeup of a task.
    NoTask,
    /// In front of a line's event there is no moment.
    BadTime,
    /// In front of a line's moment there is no CPU, or one past `CpuId::COUNT`.
    BadCpu,
    /// What stands behind the name of the event isn't that of a switch.
    BadSwitch,
    /// What stands behind the name of the event isn't that of a wakeup.
    BadWakeup,
    /// A line's moment is before that of an earlier line.
    Earlier,
    /// A line's moment is more than `eevdf_time_text::MOST_NS` after that of the first one.
    TooLong,
    /// There are more tasks than `TaskId::COUNT`.
    TooMany,
}

/// Why a trace is refused, and where in it that shows, if it is about a line.
#[derive(Clone, Copy, PartialEq, Eq, Debug)]
pub struct TraceFault {
    pub wrong: Wrong,
    pub place: Option<Place>,
}

impl fmt::Display for Wrong {
    fn fmt<W: fmt::Write>(&self, f: &mut fmt::Formatter<W>) -> fmt::Result {
        f.write_str(match self {
            Wrong::Memory => "memory",
            Wrong::TooLarge => "longer than 16777216 bytes",
            Wrong::NotText => "not UTF-8",
            Wrong::NoTask => "no sched_switch, sched_wakeup or sched_wakeup_new of a task",
            Wrong::BadTime => "bad time of an event, which is as 5077.123456: before it",
            Wrong::BadCpu => "bad CPU of an event, which is from [000] to [063] before its time",
            Wrong::BadSwitch => {
                "bad sched_switch, which is as bash:23 [120] S ==> cat:24 [120], or by keys"
            }
            Wrong::BadWakeup => "bad sched_wakeup, which is as bash:23 [120] CPU:001, or by keys",
            Wrong::Earlier => "an earlier time than that of an event before",
            Wrong::TooLong => "more than 1000000s after the first event",
            Wrong::TooMany => "more than 1024 tasks",
        })
    }
}

impl fmt::Display for TraceFault {
    fn fmt<W: fmt::Write>(&self, f: &mut fmt::Formatter<W>) -> fmt::Result {
        let wrong = self.wrong;
        write!(f, "{wrong}")
    }
}

impl Error for TraceFault {}

impl Wrong {
    /// The fault of a whole trace.
    pub(crate) fn anywhere(self) -> TraceFault {
        TraceFault {
            wrong: self,
            place: None,
        }
    }
}

impl From<AllocError> for Wrong {
    fn from(_out_of_memory: AllocError) -> Wrong {
        Wrong::Memory
    }
}

impl<T: Drop> From<AllocFailed<T>> for Wrong {
    fn from(_out_of_memory: AllocFailed<T>) -> Wrong {
        Wrong::Memory
    }
}
