//! Which keys of a workload are read.

use crate::reading::document_keys::member;
use toml::{Table, Value};

/// The keys of a workload.
pub const IN_DOCUMENT: [&str; 5] = ["version", "task", "program", "order", "script"];

/// The keys of a task.
pub const IN_TASK: [&str; 5] = ["home", "nice", "slice", "start", "asleep"];

/// Whether a document has a key that nothing reads.
pub(crate) fn has_unread_keys(document: &Table) -> bool {
    has_others(document, &IN_DOCUMENT) || has_unread_of_tasks(member(document, "task"))
}

/// Whether one of the tasks has such a key.
fn has_unread_of_tasks(tasks: Option<&Value>) -> bool {
    let Some(Value::Array(tasks)) = tasks else {
        return false;
    };
    for task in tasks.iter() {
        if let Value::Table(keys) = task {
            if has_others(keys, &IN_TASK) {
                return true;
            }
        }
    }
    false
}

/// Whether a table has another key than these.
fn has_others(table: &Table, known: &[&str]) -> bool {
    for name in table.keys() {
        if !(&*known).contains(&name.as_str()) {
            return true;
        }
    }
    false
}
