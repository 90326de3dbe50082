//! Moments as they are written.

ghost use Rattle.std.specs.Prelude.{◌≡◌, ◌≤◌, ◌^◌, ◌-◌, IfSome};
ghost use Rattle.eevdf_time_text.specs.Moments.{IsMoment};

use crate::numbers::number;

/// The moment that a text is, in nanoseconds: seconds, a point, and 1 to 9 digits. `None` where it is none, or later than a `u64` has it.
pub fn moment(text: &str) -> Option<u64>
    ensures { IfSome result (IsMoment text.now) }
{
    let (whole, part) = text.split_once(".")?;
    let seconds = number(whole)?.checked_mul(1_000_000_000)?;
    let behind = number(part)?.checked_mul(each_of(part.len())?)?;
    seconds.checked_add(behind)
}

/// How many nanoseconds the last of so many digits behind the point stands for.
fn each_of(digits: usize) -> Option<u64>
    ensures few { IfSome result (λ _. digits ≤ 9) }
    ensures each { IfSome result (λ each. each ≡ 10 ^ (9 - digits)) }
{
    match digits {
        1 => Some(100_000_000),
        2 => Some(10_000_000),
        3 => Some(1_000_000),
        4 => Some(100_000),
        5 => Some(10_000),
        6 => Some(1_000),
        7 => Some(100),
        8 => Some(10),
        9 => Some(1),
        _ => None,
    }
}
