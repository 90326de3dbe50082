//! What is said of a fault beside its line.

use crate::order_faults::order_fault;
use crate::shown::explanation_text;
use crate::told_keys::unread_keys_text;
use eevdf_bench::BenchFault;
use eevdf_explain::{DocumentKind, Explanation, document_kind, explain, has_event, mark_at};
use eevdf_steps::PlayFault;
use eevdf_workload::{Key, LoadFault};
use std::alloc::Global;

/// What is wrong with the workload that these bytes are, or with its order, and where, in lines, for the fault that it is refused with.
/// `None` of any other fault, and where there is no memory. Where a key is missing, those that nothing reads are told too: one of them may be
/// it, with another letter. Of a text for another program that one is told in place of all this. What was read from a file is told with its
/// name.
pub fn fault_explanation(
    alloc: Global,
    file: Option<&str>,
    input: &[u8],
    fault: &BenchFault,
) -> Option<String> {
    match fault {
        BenchFault::Load(fault) => load_explanation(alloc, file, input, fault),
        BenchFault::Play(fault) => {
            let explanation = order_explanation(alloc, input, fault)?;
            explanation_text(alloc, &explanation, file, input).ok()
        }
        BenchFault::Run(_) | BenchFault::Read | BenchFault::Write | BenchFault::Memory => None,
    }
}

fn load_explanation(
    alloc: Global,
    file: Option<&str>,
    input: &[u8],
    fault: &LoadFault,
) -> Option<String> {
    if let Some(other) = text_for_another(alloc, input, fault) {
        let explanation = Explanation {
            mark: None,
            message: other.to_string(alloc).ok()?,
        };
        return explanation_text(alloc, &explanation, file, input).ok();
    }
    let explanation = explain(alloc, input, fault)?;
    let mut text = explanation_text(alloc, &explanation, file, input).ok()?;
    if let (LoadFault::Missing { .. }, None) = (fault, explanation.mark) {
        text.push_str(unread_keys_text(alloc, file, input)?.as_str())
            .ok()?;
    }
    Some(text)
}

/// What a text is that is no workload of scripts and programs, and which program takes it, if that shows. Of the keys of a workload of phases
/// the reader of workloads misses the programs, or finds a slice with a unit before.
fn text_for_another(alloc: Global, input: &[u8], fault: &LoadFault) -> Option<&'static str> {
    match fault {
        LoadFault::NotToml if has_event(input) => Some(
            "this is a trace, of which `eevdf_phases --from trace` makes a workload",
        ),
        LoadFault::Missing { .. } | LoadFault::BadValue { key: Key::Slice(_) }
            if document_kind(alloc, input) == DocumentKind::Phases => Some(
            "this is a workload of phases, of which `eevdf_phases` makes one of a script",
        ),
        _ => None,
    }
}

fn order_explanation(alloc: Global, input: &[u8], fault: &PlayFault) -> Option<Explanation> {
    let (key, reason) = order_fault(fault)?;
    Some(Explanation {
        mark: mark_at(alloc, input, key),
        message: reason.to_string(alloc).ok()?,
    })
}

/// What is said of what the workload that these bytes are has at a key, and where that stands, in lines. `None` where there is no memory.
pub fn place_explanation(
    alloc: Global,
    file: Option<&str>,
    input: &[u8],
    key: Key,
    message: &str,
) -> Option<String> {
    let explanation = Explanation {
        mark: mark_at(alloc, input, key),
        message: message.to_string(alloc).ok()?,
    };
    explanation_text(alloc, &explanation, file, input).ok()
}
