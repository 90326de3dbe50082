//! What a text is that may be for another program.

use eevdf_workload::document_of;
use std::alloc::Global;
use toml::{Table, Value};

/// What stands in each trace that is of use: the name of its events, where tasks come and leave.
const SWITCH: &[u8] = b"sched_switch:";

/// So many bytes of a text are looked at for it.
const MOST_LOOKED_AT: usize = 65_536;

/// What a document is, as far as its keys tell.
#[derive(Clone, Copy, PartialEq, Eq, Debug)]
pub enum DocumentKind {
    /// A workload with a script.
    Script,
    /// A workload with programs and no script.
    Programs,
    /// A workload of phases.
    Phases,
    Unknown,
}

/// What the document is that these bytes are. `Unknown` where they are none, and where there is no memory.
pub fn document_kind(alloc: Global, bytes: &[u8]) -> DocumentKind {
    match document_of(alloc, bytes) {
        Ok(document) => kind_of(&document),
        Err(_) => DocumentKind::Unknown,
    }
}

fn kind_of(document: &Table) -> DocumentKind {
    if document.get("script").is_some() {
        return DocumentKind::Script;
    }
    if document.get("program").is_some() {
        return DocumentKind::Programs;
    }
    match document.get("machine") {
        Some(Value::Table(_)) => DocumentKind::Phases,
        _ => DocumentKind::Unknown,
    }
}

/// Whether an event of a trace stands in the beginning of a text.
pub fn has_event(text: &[u8]) -> bool {
    for at in 0..text.len().min(MOST_LOOKED_AT) {
        match text.get(at..) {
            Some(left) if left.starts_with(SWITCH) => return true,
            _ => {}
        }
    }
    false
}
