//! What is wrong with the value at a key, or where there is none.

use crate::machine::Machine;
use crate::reason::Reason;
use crate::tokens::Place;
use crate::word_faults::{Work, word_fault};
use crate::word_reason::{NotAmong, Part, WordReason};
use eevdf_ops::SetupFault;
use eevdf_workload::{Key, LoadFault};
use std::alloc::{AllocError, Global};
use toml::Value;

/// What is wrong with a value, and the bytes of the word of it that is meant, which are none where all of it is.
#[derive(Clone, Copy)]
pub(crate) struct ValueFault<'a> {
    pub(crate) word: Place,
    pub(crate) reason: Reason<'a>,
}

impl<'a> ValueFault<'a> {
    fn of_all(reason: Reason<'a>) -> ValueFault<'a> {
        let word = Place { start: 0, end: 0 };
        ValueFault { word, reason }
    }
}

/// What is wrong with the value at a key, for which a workload is refused with this fault.
pub(crate) fn value_fault<'a>(
    alloc: Global,
    machine: Machine<'a>,
    fault: &LoadFault,
    key: Key,
    value: &'a Value,
) -> Result<ValueFault<'a>, AllocError> {
    if let LoadFault::Setup(fault) = fault {
        if let Some(reason) = refused(machine, fault, value) {
            return Ok(ValueFault::of_all(reason));
        }
    }
    let cpu = match key {
        Key::Op(cpu, _) => Some(cpu),
        _ => None,
    };
    if let (Key::Op(..) | Key::Script(_), Some(text)) = (key, value.as_str()) {
        let work = Work { machine, text, cpu };
        if let Some(fault) = word_fault(work) {
            let reason = Reason::Word(with_nearest(alloc, fault.reason)?);
            let word = fault.place;
            return Ok(ValueFault { word, reason });
        }
    }
    Ok(ValueFault::of_all(expected(machine, key, value)))
}

/// Of a word that is no verb the one to which it is near, if there is one.
fn with_nearest(alloc: Global, reason: WordReason) -> Result<WordReason, AllocError> {
    let WordReason::Unknown { word, known } = reason else {
        return Ok(reason);
    };
    Ok(match known.nearest(alloc, word)? {
        Some(nearest) => WordReason::Near { word, nearest },
        None => reason,
    })
}

/// What is expected where a key is missing.
pub(crate) fn missing(key: Key) -> Reason<'static> {
    Reason::Says(match key {
        Key::Version => {
            "a workload has a line `version = 1`, `version = 2`, `version = 3` or `version = 4`, before the first [[task]]"
        }
        Key::Tasks => "a workload has a table [[task]] for each task",
        Key::Programs => {
            "a workload has a line `program = [[], ..]` with a list for each CPU, before the first [[task]]"
        }
        Key::Orders => {
            "an order is played, and the workload has none: `order = [0, ..]` before the first [[task]]"
        }
        Key::Scripts => {
            "a script is done, and the workload has none: `script = [\"0 pick\", ..]` before the first [[task]]"
        }
        key => return Reason::Missing { key },
    })
}

/// What is expected at a key.
fn expected<'a>(machine: Machine, key: Key, value: &'a Value) -> Reason<'a> {
    let version = machine.version;
    match key {
        Key::Version => Reason::Says("the version is the integer 1, 2, 3 or 4"),
        Key::Tasks => of_type("task is an array of tables, written [[task]]", value),
        Key::Task(_) => of_type("a task is a table", value),
        Key::Home(_) => Reason::NoHome { version },
        Key::Nice(_) => Reason::Says("nice is an integer from -20 to 19"),
        Key::Slice(_) => {
            Reason::Says("slice is an integer from 100000 to 100000000, in nanoseconds")
        }
        Key::Start(_) => of_type("start is an integer", value),
        Key::Asleep(_) => of_type("asleep is true or false", value),
        Key::Programs => of_type("program is an array with a list for each CPU", value),
        Key::Program(_) => of_type("the program of a CPU is an array of strings", value),
        Key::Op(..) => of_type("an operation is a string, as \"tick 1000000\"", value),
        Key::Orders => of_type("order is an array of the numbers of callers", value),
        Key::Order(_) => Reason::Says("a caller is an integer from 0 on"),
        Key::Scripts => match value.as_array() {
            Some(deeds) => Reason::Deeds {
                count: deeds.len(),
                version,
            },
            None => of_type("script is an array of strings, each a deed", value),
        },
        Key::Script(_) => of_type("a deed is a string, as \"0 tick 1000000\"", value),
    }
}

/// A value of another type than is expected.
fn of_type<'a>(expected: &'static str, value: &'a Value) -> Reason<'a> {
    let kind = value.type_str();
    Reason::OfType { expected, kind }
}

/// Why a setup is refused, for anything but an operation.
fn refused<'a>(machine: Machine, fault: &SetupFault, value: &Value) -> Option<Reason<'a>> {
    match fault {
        SetupFault::BadCpus => Some(Reason::Programs {
            count: machine.cpus,
            version: machine.version,
        }),
        SetupFault::BadTasks => Some(Reason::Tasks {
            count: machine.tasks,
        }),
        SetupFault::BadHome { task } => Some(Reason::Home {
            home: machine.home(*task as u64),
            among: NotAmong {
                part: Part::Cpu,
                count: machine.cpus,
            },
        }),
        SetupFault::BadStart { .. } => Some(Reason::Says(
            "start, and start plus the charge of a slice, lie between -2^60 and 2^60",
        )),
        SetupFault::TooLong { .. } => Some(Reason::Operations {
            count: value.as_array()?.len(),
        }),
        SetupFault::UnknownTask { .. }
        | SetupFault::BadPull { .. }
        | SetupFault::BadBegin { .. }
        | SetupFault::Memory => None,
    }
}
