//! Lengths of time as they are written.

ghost use Rattle.std.specs.Prelude.{◌≤◌, ◌<◌, ℕ, List, IfSome, IfNone};
ghost use Rattle.eevdf_time_text.specs.Lengths.{IsLength, IsOnlyPart, IsParted};

use crate::numbers::number;

/// The greatest length of time, in nanoseconds: a million seconds.
pub const MOST_NS: u64 = 1_000_000_000_000_000;

/// The length of time that a text is: a whole number and a unit, as `3ms`, `200us`, `5s` or `100ns`; 0 needs no unit. `None` where it is
/// none, or more than `MOST_NS`.
pub fn length(text: &str) -> Option<u64>
    ensures length { IfSome result (IsLength text.now) }
    ensures none { IfNone result ((ns : ℕ) → IsLength text.now ns → MOST_NS < ns) }
    ensures most { IfSome result (λ ns. ns ≤ MOST_NS) }
{
    if text == "0" {
        return Some(0);
    }
    let (digits, unit) = parted(text)?;
    let ns = number(digits)?.checked_mul(unit)?;
    if ns <= MOST_NS { Some(ns) } else { None }
}

/// The digits of a text, and how many nanoseconds its unit has.
fn parted(text: &str) -> Option<(&str, u64)>
    ensures parted { IfSome result (λ p. IsParted text.now p.0.now p.1) }
    ensures only { IfSome result (λ p. IsOnlyPart text.now p.0.now p.1) }
    ensures none { IfNone result ((front : List ℕ) (each : ℕ) → ¬ (IsParted text.now front each)) }
{
    if let Some(digits) = text.strip_suffix("ns") {
        return Some((digits, 1));
    }
    if let Some(digits) = text.strip_suffix("us") {
        return Some((digits, 1_000));
    }
    if let Some(digits) = text.strip_suffix("ms") {
        return Some((digits, 1_000_000));
    }
    let digits = text.strip_suffix("s")?;
    Some((digits, 1_000_000_000))
}
