//! The axis of time.

use eevdf_scene::{Scale, Tenths, part};
use std::alloc::AllocError;

/// How far a step is from the next one at least, in units of the picture, so that their labels are apart.
const LEAST_STEP: u64 = 100;

/// So many steps are between the edges at least, so that one of them has a label, and at most.
const FEWEST_STEPS: u64 = 3;

const MOST_STEPS: u64 = 100;

/// A label that is nearer to the right edge, in units, ends a little behind its place, so that it stays in the picture.
const EDGE: u64 = 30;

/// How far behind, in tenths.
const BEHIND: u64 = 180;

/// A unit of time, and how many nanoseconds it has.
#[derive(Clone, Copy)]
struct Unit {
    name: &'static str,
    length: u64,
}

/// The unit in which a step is a whole number.
fn unit_of(step: u64) -> Unit {
    let (name, length) = if step >= 1_000_000_000 {
        ("s", 1_000_000_000)
    } else if step >= 1_000_000 {
        ("ms", 1_000_000)
    } else if step >= 1_000 {
        ("µs", 1_000)
    } else {
        ("ns", 1)
    };
    Unit { name, length }
}

/// The shortest step of 1, 2 or 5 with zeros behind it of which there are few enough.
fn step_of(length: u64, most: u64) -> u64 {
    let least = length.div_ceil(most.max(1));
    let mut step = 1u64;
    for _zero in 0..18 {
        for factor in [1, 2, 5] {
            let longer = step.saturating_mul(factor);
            if longer >= least {
                return longer;
            }
        }
        step = step.saturating_mul(10);
    }
    length
}

/// Writes the axis at a height, with lines up to a top.
pub(crate) fn push_axis(
    text: &mut String,
    scale: &Scale,
    top: u64,
    bottom: u64,
) -> Result<(), AllocError> {
    let most = (scale.width() / LEAST_STEP).clamp(FEWEST_STEPS, MOST_STEPS);
    let step = step_of(scale.length(), most).max(1);
    let unit = unit_of(step);
    let first = scale.from.div_ceil(step);
    for number in 0..most.saturating_add(2) {
        let time = first.saturating_add(number).saturating_mul(step);
        if time <= scale.to {
            push_step(text, scale, time, unit, top, bottom)?;
        }
    }
    Ok(())
}

fn push_step(
    text: &mut String,
    scale: &Scale,
    time: u64,
    unit: Unit,
    top: u64,
    bottom: u64,
) -> Result<(), AllocError> {
    let place = scale.place(time);
    let number = part(time, 1, unit.length);
    let below = bottom.saturating_add(13);
    let name = unit.name;
    writeln!(text, "<path class=\"g\" d=\"M{place} {top}V{bottom}\"/>")?;
    if place.0 > scale.right().saturating_sub(EDGE).saturating_mul(10) {
        let end = Tenths(place.0.saturating_add(BEHIND));
        write!(text, "<text class=\"a r\" x=\"{end}\"")?;
    } else {
        write!(text, "<text class=\"a\" x=\"{place}\"")?;
    }
    writeln!(text, " y=\"{below}\">{number} {name}</text>")
}
