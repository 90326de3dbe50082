ghost use Rattle.std.specs.Prelude.{Some, ◌++◌, codes, decimal};
ghost use Rattle.std.specs.Fmt.{WritesOnOk};
ghost use Rattle.eevdf_workload.specs.FaultTexts.{key_text};

use crate::workload::Workload;
use eevdf_ops::SetupFault;
use std::alloc::{AllocError, AllocFailed};
use std::fmt;
use thiserror::Error;

/// A place in a workload. Counts begin at 0.
#[derive(Clone, Copy, PartialEq, Eq, Debug)]
pub enum Key {
    /// `version`
    Version,
    /// `task`, the whole array
    Tasks,
    /// One member of `task`
    Task(usize),
    /// A key of one task
    Home(usize),
    Nice(usize),
    Slice(usize),
    Start(usize),
    Asleep(usize),
    /// `program`, the whole array
    Programs,
    /// The program of one CPU
    Program(usize),
    /// One operation of one program: the CPU, then the place
    Op(usize, usize),
    /// `order`, the whole array
    Orders,
    /// One place of the order
    Order(usize),
    /// `script`, the whole array
    Scripts,
    /// One deed of the script
    Script(usize),
}

/// The key's name in a workload, with the numbers that it has, as `task 3 home`.
impl fmt::Display for Key {
    ghost output = { λ key. Some (key_text key) };

    fn fmt<W: fmt::Write>(&self, f: &mut fmt::Formatter<W>) -> fmt::Result {
        match self {
            Key::Version => f.write_str("version"),
            Key::Tasks => f.write_str("task"),
            Key::Task(task) => numbered(f, "task ", task),
            Key::Home(task) => of_task(f, task, " home"),
            Key::Nice(task) => of_task(f, task, " nice"),
            Key::Slice(task) => of_task(f, task, " slice"),
            Key::Start(task) => of_task(f, task, " start"),
            Key::Asleep(task) => of_task(f, task, " asleep"),
            Key::Programs => f.write_str("program"),
            Key::Program(cpu) => numbered(f, "program ", cpu),
            Key::Op(cpu, place) => write!(f, "program {cpu} at {place}"),
            Key::Orders => f.write_str("order"),
            Key::Order(place) => numbered(f, "order at ", place),
            Key::Scripts => f.write_str("script"),
            Key::Script(place) => numbered(f, "script at ", place),
        }
    }
}

// Writes a number behind a text.
fn numbered<W: fmt::Write>(f: &mut fmt::Formatter<W>, text: &str, number: &usize) -> fmt::Result
    ensures { WritesOnOk W.write_str_gives f.old result (text.now ++ decimal number.now) f.new }
{
    write!(f, "{text}{number}")
}

// Writes the number of a task, and the key of it that a text names.
fn of_task<W: fmt::Write>(f: &mut fmt::Formatter<W>, task: &usize, key: &str) -> fmt::Result
    ensures { WritesOnOk W.write_str_gives f.old result (codes "task " ++ decimal task.now ++ key.now) f.new }
{
    write!(f, "task {task}{key}")
}

/// Why a workload is refused.
#[derive(Clone, Copy, PartialEq, Eq, Debug, Error)]
pub enum LoadFault {
    /// It has more than 16777216 bytes.
    #[error("workload longer than {} bytes", Workload::MOST_BYTES)]
    TooLarge,
    /// It isn't UTF-8, or not a TOML document.
    #[error("not a TOML document")]
    NotToml,
    /// A key that must be there isn't.
    #[error("missing {key}")]
    Missing { key: Key },
    /// A value is of the wrong kind or out of its bounds.
    #[error("bad value at {key}")]
    BadValue { key: Key },
    /// The setup that it describes is refused.
    #[error(transparent)]
    Setup(SetupFault),
    /// Out of memory.
    #[error("memory")]
    Memory,
}

impl From<AllocError> for LoadFault {
    ghost use Rattle.std.specs.Prelude.{◌≡◌};
    ghost use Rattle.eevdf_workload.specs.declared.load_fault.LoadFault.TheVariants.{Memory};

    ghost from_gives = { λ _ fault. fault ≡ Memory };

    fn from(_out_of_memory: AllocError) -> LoadFault {
        LoadFault::Memory
    }
}

impl<T: Drop> From<AllocFailed<T>> for LoadFault {
    ghost use Rattle.std.specs.Prelude.{◌≡◌};
    ghost use Rattle.eevdf_workload.specs.declared.load_fault.LoadFault.TheVariants.{Memory};

    ghost from_gives = { λ _ fault. fault ≡ Memory };

    fn from(_out_of_memory: AllocFailed<T>) -> LoadFault {
        LoadFault::Memory
    }
}
