use std::alloc::AllocError;
use std::error::Error;
use std::fmt;

/// Why a setup is refused. Places count from 0 in the lists that were given.
#[derive(Clone, Copy, PartialEq, Eq, Debug)]
pub enum SetupFault {
    /// The number of programs, one for each CPU, is out of bounds.
    BadCpus,
    /// The number of tasks is out of bounds.
    BadTasks,
    /// The home of this task is no CPU of the setup.
    BadHome { task: usize },
    /// The start of this task, or its first virtual deadline, is out of range.
    BadStart { task: usize },
    /// The program of this CPU has too many operations.
    TooLong { cpu: usize },
    /// The operation at this place of the program of this CPU names no task of the setup.
    UnknownTask { cpu: usize, at: usize },
    /// The operation at this place of the program of this CPU pulls from its own CPU, or from none of the
    /// setup.
    BadPull { cpu: usize, at: usize },
    /// The operation at this place of the program of this CPU begins a task that has its home at another CPU.
    BadBegin { cpu: usize, at: usize },
    /// Out of memory.
    Memory,
}

/// What is wrong, and where, as `home of task 3`.
impl fmt::Display for SetupFault {
    ghost use Rattle.std.specs.Prelude.{Some};
    ghost use Rattle.eevdf_ops.specs.FaultTexts.{setup_fault_text};

    ghost output = { λ fault. Some (setup_fault_text fault) };

    fn fmt<W: fmt::Write>(&self, f: &mut fmt::Formatter<W>) -> fmt::Result {
        match self {
            SetupFault::BadCpus => f.write_str("number of cpus"),
            SetupFault::BadTasks => f.write_str("number of tasks"),
            SetupFault::BadHome { task } => write!(f, "home of task {task}"),
            SetupFault::BadStart { task } => write!(f, "start of task {task}"),
            SetupFault::TooLong { cpu } => write!(f, "program {cpu} too long"),
            SetupFault::UnknownTask { cpu, at } => {
                write!(f, "unknown task at program {cpu} at {at}")
            }
            SetupFault::BadPull { cpu, at } => write!(f, "bad pull at program {cpu} at {at}"),
            SetupFault::BadBegin { cpu, at } => write!(f, "bad begin at program {cpu} at {at}"),
            SetupFault::Memory => f.write_str("memory"),
        }
    }
}

impl Error for SetupFault {}

impl From<AllocError> for SetupFault {
    ghost use Rattle.std.specs.Prelude.{◌≡◌};
    ghost use Rattle.eevdf_ops.specs.declared.setup_fault.SetupFault.TheVariants.{Memory};

    ghost from_gives = { λ _ fault. fault ≡ Memory };

    fn from(_out_of_memory: AllocError) -> SetupFault {
        SetupFault::Memory
    }
}
