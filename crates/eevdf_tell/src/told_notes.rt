//! What is said of a workload that isn't refused: keys that nothing reads, and deeds of its script that were refused.

use crate::shown::explanation_text;
use crate::told_keys::unread_keys_text;
use eevdf_bench::{RefusedDeed, RefusedDeeds, WorkloadText, tell_text};
use eevdf_explain::{Explanation, mark_at};
use eevdf_workload::Key;
use std::alloc::{AllocError, Global};

/// A longer workload isn't read again for the lines of its deeds.
const MOST_BYTES_READ_AGAIN: usize = 65_536;

/// Says which keys of the workload nothing reads, and which deeds of its script were refused, where there are any.
pub fn tell_notes(errors: &impl Print, alloc: Global, file: Option<&str>, input: &WorkloadText) {
    if input.notes.has_unread_keys {
        tell_text(errors, unread_keys_text(alloc, file, &input.bytes));
    }
    tell_refused_deeds(errors, alloc, file, input);
}

/// Says which deeds of the workload's script were refused.
fn tell_refused_deeds(
    errors: &impl Print,
    alloc: Global,
    file: Option<&str>,
    input: &WorkloadText,
) {
    if input.notes.refused.count > 0 {
        let text = refused_deeds_text(alloc, file, &input.bytes, &input.notes.refused);
        tell_text(errors, text);
    }
}

/// Which deeds of the script of the workload that these bytes are were refused, and where, in lines: the first ten, and how many more there
/// are. `None` where there is no memory.
fn refused_deeds_text(
    alloc: Global,
    file: Option<&str>,
    input: &[u8],
    refused: &RefusedDeeds,
) -> Option<String> {
    let mut text = String::new(alloc);
    for deed in refused.told.iter() {
        let explanation = refused_deed(alloc, input, deed).ok()?;
        let told = explanation_text(alloc, &explanation, file, input).ok()?;
        text.push_str(told.as_str()).ok()?;
    }
    let more = match refused.count.saturating_sub(refused.told.len()) {
        0 => return Some(text),
        1 => "1 more deed is refused\n".to_string(alloc).ok()?,
        more => format!(in alloc; "{more} more deeds are refused\n").ok()?,
    };
    text.push_str(more.as_str()).ok()?;
    Some(text)
}

fn refused_deed(
    alloc: Global,
    input: &[u8],
    refused: &RefusedDeed,
) -> Result<Explanation, AllocError> {
    let RefusedDeed { at, line } = refused;
    let mark = if input.len() > MOST_BYTES_READ_AGAIN {
        None
    } else {
        mark_at(alloc, input, Key::Script(*at))
    };
    // without a mark it says where the deed stands in the script
    let message = match mark {
        Some(_) => format!(in alloc; "{line}")?,
        None => format!(in alloc; "script at {at}: {line}")?,
    };
    Ok(Explanation { mark, message })
}
