//! What is said of keys that nothing reads.

use crate::shown::explanation_text;
use eevdf_explain::unread_keys;
use std::alloc::Global;

/// Which keys of the workload that these bytes are nothing reads, and where, in lines. `None` where there is no memory.
pub(crate) fn unread_keys_text(alloc: Global, file: Option<&str>, input: &[u8]) -> Option<String> {
    let keys = unread_keys(alloc, input)?;
    let mut text = String::new(alloc);
    for key in keys.iter() {
        text.push_str(explanation_text(alloc, key, file, input).ok()?.as_str())
            .ok()?;
    }
    Some(text)
}
