//! Spans of time as they are written.

ghost use Rattle.std.specs.Prelude.{◌≤◌, ◌<◌, ◌⊎◌, ℕ, IfSome, IfNone};
ghost use Rattle.eevdf_time_text.specs.Lengths.{IsOnlySpan, IsSpan};

use crate::lengths::{MOST_NS, length};

/// The span that a text is, from its least length of time to its greatest: one from 1 ns on, or two with `..` between them, the lesser
/// first. `None` where it is none, or longer than `MOST_NS`.
pub fn span(text: &str) -> Option<(u64, u64)>
    ensures span { IfSome result (λ s. IsSpan text.now s.0 s.1) }
    ensures none { IfNone result ((least most : ℕ) →
        IsSpan text.now least most → 1 ≤ least → least ≤ most → MOST_NS < most) }
    ensures some { IfSome result (λ s. 1 ≤ s.0) }
    ensures order { IfSome result (λ s. s.0 ≤ s.1) }
    ensures most { IfSome result (λ s. s.1 ≤ MOST_NS) }
{
    let (least, most) = ends(text)?;
    if 1 <= least && least <= most {
        Some((least, most))
    } else {
        None
    }
}

/// The two lengths of time that a text has, which are the same where it has one.
fn ends(text: &str) -> Option<(u64, u64)>
    ensures span { IfSome result (λ s. IsSpan text.now s.0 s.1) }
    ensures only { IfSome result (λ s. IsOnlySpan text.now s.0 s.1) }
    ensures none { IfNone result ((least most : ℕ) →
        IsSpan text.now least most → (MOST_NS < least) ⊎ (MOST_NS < most)) }
    ensures most { IfSome result (λ s. s.1 ≤ MOST_NS) }
{
    match text.split_once("..") {
        Some((least, most)) => Some((length(least)?, length(most)?)),
        None => {
            let only = length(text)?;
            Some((only, only))
        }
    }
}
