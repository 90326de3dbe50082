//! The rows of callers: a band for each operation, and a box for each step at its place.

use crate::frame::{Frame, STEP};
use crate::steps::{Operation, Race, Step};
use eevdf_clocks::Moment;
use eevdf_scene::Tenths;
use eevdf_steps::Micro;
use std::alloc::AllocError;

/// How far a band is above and below the boxes in it, in units of the picture.
const BAND: u64 = 4;

/// Writes the bands of operations, and then the boxes of steps.
pub(crate) fn push_rows(
    text: &mut String,
    frame: &Frame,
    race: &Race,
    moments: &[Moment],
) -> Result<(), AllocError> {
    for operation in &race.operations {
        push_band(text, frame, operation)?;
    }
    for step in &race.steps {
        push_step(text, frame, step, moments)?;
    }
    Ok(())
}

fn push_band(text: &mut String, frame: &Frame, operation: &Operation) -> Result<(), AllocError> {
    let Some(top) = frame.top(operation.caller) else {
        return Ok(());
    };
    let begin = frame.left(operation.first);
    let end = frame.left(operation.last.saturating_add(1));
    let width = Tenths(end.0.saturating_sub(begin.0));
    let (top, height) = (top.saturating_sub(BAND), STEP + 2 * BAND);
    write!(
        text,
        "<rect class=\"l\" x=\"{begin}\" y=\"{top}\" width=\"{width}\" height=\"{height}\"><title>CPU {}",
        operation.caller
    )?;
    if let Some(op) = &operation.op {
        write!(text, " {op}")?;
    }
    writeln!(
        text,
        ", places {} to {}</title></rect>",
        operation.first, operation.last
    )
}

fn push_step(
    text: &mut String,
    frame: &Frame,
    step: &Step,
    moments: &[Moment],
) -> Result<(), AllocError> {
    let Some(top) = frame.top(step.caller) else {
        return Ok(());
    };
    let left = frame.left(step.place);
    let class = class_of(step);
    write!(
        text,
        "<rect class=\"b {class}\" x=\"{left}\" y=\"{top}\" width=\"{}\" height=\"{STEP}\"><title>CPU {}",
        Tenths(frame.step),
        step.caller
    )?;
    if let Some(op) = &step.op {
        write!(text, " {op}")?;
    }
    write!(text, ": ")?;
    push_micro(text, step.micro)?;
    write!(text, ", place {}", step.place)?;
    if let Some(moment) = step.line.and_then(|line| moments.get(line)) {
        write!(text, "; {}", moment.line)?;
    }
    writeln!(text, "</title></rect>")?;
    push_name(text, frame, step, top, left)
}

/// Writes the name of a step in its box, from the bottom to the top.
fn push_name(
    text: &mut String,
    frame: &Frame,
    step: &Step,
    top: u64,
    left: Tenths,
) -> Result<(), AllocError> {
    let base = Tenths(left.0.saturating_add(frame.step / 2).saturating_add(35));
    let bottom = top.saturating_add(STEP - 4);
    let kind = if step.line.is_some() { "i f" } else { "i" };
    write!(
        text,
        "<text class=\"{kind}\" transform=\"translate({base} {bottom})rotate(-90)\">"
    )?;
    push_micro(text, step.micro)?;
    writeln!(text, "</text>")
}

/// The class of a step's box.
fn class_of(step: &Step) -> &'static str {
    if step.line.is_some() {
        return "c";
    }
    match step.micro {
        Micro::Acquire(_) | Micro::Release(_) => "x",
        Micro::Post(_) => "o",
        _ => "j",
    }
}

fn push_micro(text: &mut String, micro: Micro) -> Result<(), AllocError> {
    match micro {
        Micro::Acquire(cpu) => write!(text, "acquire {cpu}"),
        Micro::Act => write!(text, "act"),
        Micro::Detach => write!(text, "detach"),
        Micro::Attach => write!(text, "attach"),
        Micro::Commit => write!(text, "commit"),
        Micro::Take(cpu) => write!(text, "take {cpu}"),
        Micro::Settle(cpu) => write!(text, "settle {cpu}"),
        Micro::Release(cpu) => write!(text, "release {cpu}"),
        Micro::Post(task) => write!(text, "post {task}"),
    }
}
