//! What is said of a workload of phases or a trace that is refused.

use eevdf_bench::{BenchFault, LoadFault, tell_text};
use eevdf_explain::{DocumentKind, Explanation, Mark, Place, document_kind, has_event};
use eevdf_phase_text::{Key, PhaseFault, Wrong, fault_place};
use eevdf_tell::{explanation_text, fault_explanation};
use eevdf_trace::{TraceFault, Wrong as WrongTrace};
use std::alloc::Global;
use std::ops::Range;

/// Says why the workload of phases that these bytes are is refused, and where in it, and gives the status.
pub(crate) fn refuse(
    errors: &impl Print,
    alloc: Global,
    file: Option<&str>,
    bytes: &[u8],
    fault: &PhaseFault,
) -> u8 {
    let _ = println!(errors; "fault: {fault}");
    if fault.wrong == Wrong::Memory {
        return 3;
    }
    tell_text(errors, explanation(alloc, file, bytes, fault));
    1
}

/// Where what is wrong is, in lines, or which program or flag the text is for. `None` where that isn't found, and where there is no memory.
fn explanation(
    alloc: Global,
    file: Option<&str>,
    bytes: &[u8],
    fault: &PhaseFault,
) -> Option<String> {
    if let Some(other) = text_for_another(alloc, bytes, fault) {
        return other_text(alloc, file, bytes, other);
    }
    if fault.wrong == Wrong::NotToml {
        let fault = BenchFault::Load(LoadFault::NotToml);
        return fault_explanation(alloc, file, bytes, &fault);
    }
    place_text(alloc, file, bytes, fault_place(alloc, bytes, fault)?)
}

/// What a text is that is no workload of phases, and what takes it, if that shows: it has another version, or a key that isn't known here.
fn text_for_another(alloc: Global, bytes: &[u8], fault: &PhaseFault) -> Option<&'static str> {
    match fault.wrong {
        Wrong::NotToml if has_event(bytes) => Some("this is a trace, which --from trace reads"),
        Wrong::Bad(Key::Version) | Wrong::UnknownKey { .. } | Wrong::Missing(Key::Machine) => {
            workload_for_another(document_kind(alloc, bytes))
        }
        _ => None,
    }
}

/// What a workload of another program is, and which program takes it.
fn workload_for_another(kind: DocumentKind) -> Option<&'static str> {
    match kind {
        DocumentKind::Script => Some("this is a workload with a script, which `eevdf solo` does"),
        DocumentKind::Programs => Some("this is a workload with programs, which `eevdf run` does"),
        DocumentKind::Phases | DocumentKind::Unknown => None,
    }
}

/// What a text without an event of a task is, and what takes it, if that shows.
fn no_trace(alloc: Global, bytes: &[u8]) -> Option<&'static str> {
    match document_kind(alloc, bytes) {
        DocumentKind::Phases => Some(
            "this is a workload of phases, which is read without --from trace",
        ),
        kind => workload_for_another(kind),
    }
}

/// A message without a place.
fn other_text(alloc: Global, file: Option<&str>, bytes: &[u8], message: &str) -> Option<String> {
    let explanation = Explanation {
        mark: None,
        message: message.to_string(alloc).ok()?,
    };
    explanation_text(alloc, &explanation, file, bytes).ok()
}

/// A place, whose fault has been told before.
fn place_text(
    alloc: Global,
    file: Option<&str>,
    bytes: &[u8],
    place: Range<usize>,
) -> Option<String> {
    let explanation = Explanation {
        mark: Some(mark_of(bytes, place)?),
        message: String::new(alloc),
    };
    explanation_text(alloc, &explanation, file, bytes).ok()
}

/// Says why the trace that these bytes are is refused, and where in it, and gives the status.
pub(crate) fn refuse_trace(
    errors: &impl Print,
    alloc: Global,
    file: Option<&str>,
    bytes: &[u8],
    fault: &TraceFault,
) -> u8 {
    let _ = println!(errors; "fault: {fault}");
    if fault.wrong == WrongTrace::Memory {
        return 3;
    }
    tell_text(errors, trace_explanation(alloc, file, bytes, fault));
    1
}

/// Where what is wrong with a trace is, in lines, or what the text is in place of one. `None` where that isn't found, and where there is no
/// memory.
fn trace_explanation(
    alloc: Global,
    file: Option<&str>,
    bytes: &[u8],
    fault: &TraceFault,
) -> Option<String> {
    if fault.wrong == WrongTrace::NoTask {
        return other_text(alloc, file, bytes, no_trace(alloc, bytes)?);
    }
    let place = fault.place?;
    let place = Range {
        start: place.start,
        end: place.end,
    };
    place_text(alloc, file, bytes, place)
}

/// A place in a text, with its line and its column, which counts characters.
fn mark_of(bytes: &[u8], place: Range<usize>) -> Option<Mark> {
    let before = std::str::from_utf8(bytes.get(..place.start)?).ok()?;
    let line = before.matches('\n').count().saturating_add(1);
    let last = match before.rsplit_once('\n') {
        Some((_, last)) => last,
        None => before,
    };
    Some(Mark {
        place: Place {
            start: place.start,
            end: place.end,
        },
        line,
        column: last.chars().count().saturating_add(1),
    })
}
