//! What a document says of the machine, for what is told of a fault.

use eevdf_workload::{Version, version_of_document};
use toml::{Table, Value};

/// What a document has, as far as it can be read.
#[derive(Clone, Copy)]
pub(crate) struct Machine<'a> {
    document: &'a Table,
    pub(crate) version: Version,
    pub(crate) cpus: usize,
    pub(crate) tasks: usize,
}

impl<'a> Machine<'a> {
    pub(crate) fn of(document: &'a Table) -> Machine<'a> {
        Machine {
            document,
            version: version_of_document(document).unwrap_or(Version::Four),
            cpus: count(document.get("program")),
            tasks: count(document.get("task")),
        }
    }

    /// The home of a task.
    pub(crate) fn home(&self, task: u64) -> u64 {
        let home = home_in(self.document, usize::try_from(task).unwrap_or(0));
        u64::try_from(home.unwrap_or(0)).unwrap_or(0)
    }
}

fn home_in(document: &Table, task: usize) -> Option<i64> {
    document.get("task")?.get(task)?.get("home")?.as_integer()
}

/// How many members an array has.
fn count(array: Option<&Value>) -> usize {
    match array.and_then(|value| value.as_array()) {
        Some(members) => members.len(),
        None => 0,
    }
}
