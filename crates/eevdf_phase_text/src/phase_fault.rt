//! Why a workload of phases is refused.

use crate::phase_path::PhasePath;
use crate::time_slips::TimeSlip;
use std::alloc::{AllocError, AllocFailed};
use std::error::Error;
use std::fmt;

/// Where something is wrong. Places count from 0.
#[derive(Clone, Copy, PartialEq, Eq, Debug)]
pub enum Place {
    Document,
    Machine,
    Task(usize),
    /// A phase of a task.
    Phase { task: usize, path: PhasePath },
}

/// Of a phase in a loop the place of the outermost loop is told.
impl fmt::Display for Place {
    fn fmt<W: fmt::Write>(&self, f: &mut fmt::Formatter<W>) -> fmt::Result {
        match *self {
            Place::Document => Ok(()),
            Place::Machine => f.write_str("machine: "),
            Place::Task(task) => write!(f, "task {task}: "),
            Place::Phase { task, path } => {
                let phase = path.outermost;
                write!(f, "task {task}, phase {phase}: ")
            }
        }
    }
}

/// A key of the document.
#[derive(Clone, Copy, PartialEq, Eq, Debug)]
pub enum Key {
    Version,
    Seed,
    Machine,
    Cpus,
    Lasts,
    Tick,
    Pull,
    Preempt,
    /// That of a machine; `Sleep` is a phase.
    FallAsleep,
    Task,
    Name,
    Count,
    /// How many tasks arrive; `Count` is how many there are.
    Arriving,
    Every,
    AtOnce,
    Home,
    Nice,
    Slice,
    Begins,
    Phases,
    Run,
    Sleep,
    Timer,
    Resume,
    Loop,
}

impl Key {
    /// The key as it is written.
    pub fn name(self) -> &'static str {
        match self {
            Key::Version => "version",
            Key::Seed => "seed",
            Key::Machine => "machine",
            Key::Cpus => "cpus",
            Key::Lasts => "lasts",
            Key::Tick => "tick",
            Key::Pull => "pull",
            Key::Preempt => "preempt",
            Key::FallAsleep => "sleep",
            Key::Task => "task",
            Key::Name => "name",
            Key::Count | Key::Arriving => "count",
            Key::Every => "every",
            Key::AtOnce => "at_once",
            Key::Home => "home",
            Key::Nice => "nice",
            Key::Slice => "slice",
            Key::Begins => "begins",
            Key::Phases => "phases",
            Key::Run => "run",
            Key::Sleep => "sleep",
            Key::Timer => "timer",
            Key::Resume => "resume",
            Key::Loop => "loop",
        }
    }

    /// What its value has to be.
    pub fn expected(self) -> &'static str {
        match self {
            Key::Version => "the number 1",
            Key::Seed => "a whole number from 0 on",
            Key::Machine => "a table",
            Key::Cpus => "a number from 1 to 64",
            Key::Lasts | Key::Timer => "a length of time, as \"3ms\", of 1ns to 1000000s",
            Key::Tick | Key::Begins => "a length of time, as \"3ms\", of 0 to 1000000s",
            Key::Pull => "true or false",
            Key::Preempt => "\"wakeup\" or \"tick\"",
            Key::FallAsleep => "\"sleep\" or \"doze\"",
            Key::Task => "tables, as [[task]]",
            Key::Name => "a text of 1 to 64 letters, digits, - and _, and not - alone",
            Key::Count | Key::AtOnce => "a number from 1 to 1024",
            Key::Home => "the number of a CPU of the machine",
            Key::Nice => "a number from -20 to 19",
            Key::Slice => "a length of time from 100us to 100ms",
            Key::Phases => "a list of 1 to 1000 phases",
            Key::Run | Key::Sleep | Key::Every => {
                "a length of time, as \"3ms\", or a range, as \"2ms..5ms\", of 1ns to 1000000s"
            }
            Key::Resume => "the name of a task",
            Key::Loop | Key::Arriving => "a number from 1 to 1000000000",
        }
    }
}

/// What a key belongs to.
#[derive(Clone, Copy, PartialEq, Eq, Debug)]
pub enum Owner {
    Document,
    Machine,
    Task,
}

impl fmt::Display for Owner {
    fn fmt<W: fmt::Write>(&self, f: &mut fmt::Formatter<W>) -> fmt::Result {
        f.write_str(match self {
            Owner::Document => "before the first table",
            Owner::Machine => "to the machine",
            Owner::Task => "to a task",
        })
    }
}

/// What is wrong at a place.
#[derive(PartialEq, Eq, Debug, Drop)]
pub enum Wrong {
    /// Out of memory.
    Memory,
    /// The text has more than `MOST_BYTES` bytes.
    TooLarge,
    /// It isn't UTF-8, or no TOML document.
    NotToml,
    /// The key has to be there and isn't.
    Missing(Key),
    /// The key's value isn't what it has to be.
    Bad(Key),
    /// The key's value isn't the length of time or the range that it has to be, since this is wrong with it.
    BadTime {
        key: Key,
        slip: TimeSlip,
    },
    /// This key belongs elsewhere.
    Misplaced {
        key: Key,
        owner: Owner,
    },
    /// This key isn't known here; the nearest one that is, if one is near.
    UnknownKey {
        word: String,
        nearest: Option<Key>,
    },
    /// This word is no phase; the nearest one that is.
    UnknownPhase {
        word: String,
        nearest: Option<&'static str>,
    },
    /// A phase is neither a text nor a table of one phase.
    NoPhase,
    /// No task has this name; the nearest one that a task has.
    NoTask {
        word: String,
        nearest: Option<String>,
    },
    /// Another task has this name.
    SameName(String),
    /// Loops stand in one another deeper than `Phase::DEPTHS`.
    TooDeep,
    /// A loop, or the whole, has no run, sleep, timer or end in it.
    NoTime,
    /// Tasks arrive that never end.
    NoEnd,
    /// There are more tasks than `TaskId::COUNT`.
    TooMany,
}

/// Why a workload of phases is refused.
#[derive(PartialEq, Eq, Debug, Drop)]
pub struct PhaseFault {
    pub place: Place,
    pub wrong: Wrong,
}

impl fmt::Display for Wrong {
    fn fmt<W: fmt::Write>(&self, f: &mut fmt::Formatter<W>) -> fmt::Result {
        match self {
            Wrong::Memory => f.write_str("memory"),
            Wrong::TooLarge => f.write_str("longer than 16777216 bytes"),
            Wrong::NotToml => f.write_str("not a TOML document"),
            Wrong::Missing(key) => {
                let name = key.name();
                write!(f, "missing {name}")
            }
            Wrong::Bad(key) => write_bad(f, *key),
            Wrong::BadTime { key, slip } => {
                write_bad(f, *key)?;
                write!(f, "; {slip}")
            }
            Wrong::Misplaced { key, owner } => {
                let name = key.name();
                write!(f, "unknown key \"{name}\"; it belongs {owner}")
            }
            Wrong::UnknownKey { word, nearest } => {
                write!(f, "unknown key {word:?}")?;
                match nearest {
                    Some(key) => write_nearest(f, key.name()),
                    None => Ok(()),
                }
            }
            Wrong::UnknownPhase { word, nearest } => {
                write!(f, "unknown phase {word:?}")?;
                match nearest {
                    Some(known) => write_nearest(f, known),
                    None => Ok(()),
                }
            }
            Wrong::NoPhase => f.write_str("a phase is a text or a table of one phase"),
            Wrong::NoTask { word, nearest } => {
                write!(f, "no task has the name {word:?}")?;
                match nearest {
                    Some(name) => write_nearest(f, name.as_str()),
                    None => Ok(()),
                }
            }
            Wrong::SameName(word) => write!(f, "another task has the name {word:?}"),
            Wrong::TooDeep => f.write_str("loops stand in one another more than 8 deep"),
            Wrong::NoTime => f.write_str(
                "a list of phases without run, sleep, timer or end takes no time",
            ),
            Wrong::NoEnd => f.write_str("no phase is the end of the tasks that arrive"),
            Wrong::TooMany => f.write_str("more than 1024 tasks"),
        }
    }
}

/// Tells that the value of a key isn't what it has to be.
fn write_bad<W: fmt::Write>(f: &mut fmt::Formatter<W>, key: Key) -> fmt::Result {
    let name = key.name();
    let expected = key.expected();
    write!(f, "bad value of {name}, which is {expected}")
}

/// Tells of the known word that is nearest to one that isn't known.
fn write_nearest<W: fmt::Write>(f: &mut fmt::Formatter<W>, known: &str) -> fmt::Result {
    write!(f, "; the nearest that is known is {known}")
}

impl fmt::Display for PhaseFault {
    fn fmt<W: fmt::Write>(&self, f: &mut fmt::Formatter<W>) -> fmt::Result {
        let place = self.place;
        let wrong = &self.wrong;
        write!(f, "{place}{wrong}")
    }
}

impl Error for PhaseFault {}

impl From<AllocError> for PhaseFault {
    fn from(_out_of_memory: AllocError) -> PhaseFault {
        PhaseFault {
            place: Place::Document,
            wrong: Wrong::Memory,
        }
    }
}

impl<T: Drop> From<AllocFailed<T>> for PhaseFault {
    fn from(_out_of_memory: AllocFailed<T>) -> PhaseFault {
        PhaseFault {
            place: Place::Document,
            wrong: Wrong::Memory,
        }
    }
}

impl Place {
    /// The phase at a place in the list of the loop that stands here.
    pub(crate) fn within(self, place: usize) -> Place {
        match self {
            Place::Phase { task, path } => Place::Phase {
                task,
                path: path.within(place),
            },
            _ => self,
        }
    }

    /// The fault that something is wrong here.
    pub(crate) fn fault(self, wrong: Wrong) -> PhaseFault {
        PhaseFault { place: self, wrong }
    }
}
