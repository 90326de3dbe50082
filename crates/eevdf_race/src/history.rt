//! The history below the rows, with an arrow from each step that adds a line to that line.

use crate::frame::{Frame, HEADING, LEFT, LINE, STEP};
use crate::steps::Race;
use eevdf_clocks::Moment;
use eevdf_scene::Tenths;
use std::alloc::{AllocError, Global};

/// How wide a letter of a line is at most, in units of the picture.
const LETTER: u64 = 7;

/// Writes the lines that are added at the places that are drawn, one below the other, each with its arrow. The lines stand to the left of
/// all arrows that come down, and a later arrow is further to the right and goes further down, so nothing crosses.
pub(crate) fn push_history(
    alloc: Global,
    text: &mut String,
    frame: &Frame,
    race: &Race,
    moments: &[Moment],
) -> Result<(), AllocError> {
    let mut base = frame.bottom().saturating_add(HEADING);
    let head = base.saturating_sub(22);
    writeln!(
        text,
        "<text class=\"s\" x=\"10\" y=\"{head}\">The one thread's history: the same answers</text>"
    )?;
    for step in &race.steps {
        if let Some(moment) = step.line.and_then(|line| moments.get(line)) {
            let words = format!(in alloc; "{}", moment.line)?;
            writeln!(
                text,
                "<text class=\"d\" x=\"10\" y=\"{base}\">{words}</text>"
            )?;
            if let Some(top) = frame.top(step.caller) {
                let place = Tenths(frame.left(step.place).0.saturating_add(frame.step / 2));
                let begin = top.saturating_add(STEP);
                let level = base.saturating_sub(4);
                let end = (words.len() as u64)
                    .saturating_mul(LETTER)
                    .saturating_add(14)
                    .min(LEFT - 10);
                writeln!(
                    text,
                    "<path class=\"k\" d=\"M{place} {begin}V{level}H{end}\"><title>{words}</title></path>"
                )?;
            }
            base = base.saturating_add(LINE);
        }
    }
    Ok(())
}
