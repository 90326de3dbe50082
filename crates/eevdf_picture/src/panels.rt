//! The panels of lags, one below the other.

use crate::boxes::FILLS;
use eevdf_queue::TaskId;
use eevdf_scene::{Curve, Point, Rest, Scale, Scene, Tenths, part};
use std::alloc::{AllocError, Global};

/// How high a panel is above its line of 0, and below it, in units of the picture.
const HALF: u64 = 24;

/// How far the top of a panel is from the next one's, in units.
pub(crate) const PITCH: u64 = 66;

/// How high a panel is.
const HEIGHT: u64 = 2 * HALF;

/// A sleep that is so wide at least is drawn, in tenths.
const LEAST_SLEEP: u64 = 30;

/// A sleep that is drawn in the panel of its task.
#[derive(Clone, Copy)]
pub(crate) struct Sleep {
    task: TaskId,
    left: Tenths,
    width: Tenths,
}

/// The sleeps that are drawn of the tasks that have curves, and how many are too short for that.
#[derive(Drop)]
pub(crate) struct Sleeps {
    pub drawn: Vec<Sleep>,
    pub short: u64,
}

pub(crate) fn sleeps_of(alloc: Global, scene: &Scene<'_>) -> Result<Sleeps, AllocError> {
    let mut sleeps = Sleeps {
        drawn: Vec::new(alloc),
        short: 0,
    };
    for curve in &scene.lags.curves {
        for rest in &scene.turns.rests {
            if rest.task == curve.task && rest.sleeps && scene.scale.shows(rest.begin, rest.end) {
                sleeps.add(rest, &scene.scale)?;
            }
        }
    }
    Ok(sleeps)
}

impl Sleeps {
    fn add(&mut self, rest: &Rest, scale: &Scale) -> Result<(), AllocError> {
        let left = scale.place(rest.begin);
        let width = Tenths(scale.place(rest.end).0.saturating_sub(left.0));
        if width.0 < LEAST_SLEEP {
            self.short = self.short.saturating_add(1);
        } else {
            let task = rest.task;
            self.drawn.push(Sleep { task, left, width })?;
        }
        Ok(())
    }
}

/// Writes the panel of a curve.
pub(crate) fn push_panel(
    text: &mut String,
    curve: &Curve,
    sleeps: &Sleeps,
    scale: &Scale,
    top: u64,
) -> Result<(), AllocError> {
    let zero = top.saturating_add(HALF);
    let bottom = zero.saturating_add(HALF);
    let height = curve.height();
    push_shade(text, scale, top)?;
    for sleep in &sleeps.drawn {
        if sleep.task == curve.task {
            push_sleep(text, sleep.left, sleep.width, top)?;
        }
    }
    push_lines(text, scale, zero, bottom)?;
    push_labels(text, curve, top, zero, bottom, height)?;
    push_curve(text, curve, scale, zero, height)
}

fn push_sleep(text: &mut String, begin: Tenths, width: Tenths, top: u64) -> Result<(), AllocError> {
    writeln!(
        text,
        "<rect class=\"u\" x=\"{begin}\" y=\"{top}\" width=\"{width}\" height=\"{HEIGHT}\"/>"
    )
}

/// The side above 0, on which a task is eligible, is shaded.
fn push_shade(text: &mut String, scale: &Scale, top: u64) -> Result<(), AllocError> {
    let (left, width) = (Scale::LEFT, scale.width());
    writeln!(
        text,
        "<rect class=\"e\" x=\"{left}\" y=\"{top}\" width=\"{width}\" height=\"{HALF}\"/>"
    )
}

/// Writes the line of 0, and one at the bottom.
fn push_lines(text: &mut String, scale: &Scale, zero: u64, bottom: u64) -> Result<(), AllocError> {
    let (left, right) = (Scale::LEFT, scale.right());
    writeln!(
        text,
        "<path class=\"z\" d=\"M{left} {zero}H{right}M{left} {bottom}H{right}\"/>"
    )
}

fn push_labels(
    text: &mut String,
    curve: &Curve,
    top: u64,
    zero: u64,
    bottom: u64,
    height: u64,
) -> Result<(), AllocError> {
    let task = curve.task;
    let fill = task.get() % FILLS;
    let swatch = zero.saturating_sub(6);
    let (high, middle) = (top.saturating_add(8), zero.saturating_add(4));
    writeln!(
        text,
        "<rect class=\"b t{fill}\" x=\"10\" y=\"{swatch}\" width=\"12\" height=\"12\"/>"
    )?;
    writeln!(
        text,
        "<text class=\"c\" x=\"27\" y=\"{middle}\">{task}</text>"
    )?;
    writeln!(
        text,
        "<text class=\"y\" x=\"86\" y=\"{high}\">{height} ns</text>"
    )?;
    writeln!(text, "<text class=\"y\" x=\"86\" y=\"{middle}\">0</text>")?;
    writeln!(
        text,
        "<text class=\"y\" x=\"86\" y=\"{bottom}\">-{height} ns</text>"
    )
}

/// Writes the lags from the left edge to the right one: before the first deed that is drawn and after the last one they stay.
fn push_curve(
    text: &mut String,
    curve: &Curve,
    scale: &Scale,
    zero: u64,
    height: u64,
) -> Result<(), AllocError> {
    let Some(first) = curve.first() else {
        return Ok(());
    };
    let last = curve.points.last().copied().unwrap_or(first);
    write!(text, "<path class=\"k\" d=\"M")?;
    push_point(text, first, scale, zero, height)?;
    for point in &curve.points {
        write!(text, "L")?;
        push_point(text, *point, scale, zero, height)?;
    }
    let edge = Point {
        time: scale.to,
        lag: last.lag,
    };
    write!(text, "L")?;
    push_point(text, edge, scale, zero, height)?;
    writeln!(text, "\"><title>lag of task {}</title></path>", curve.task)
}

fn push_point(
    text: &mut String,
    point: Point,
    scale: &Scale,
    zero: u64,
    height: u64,
) -> Result<(), AllocError> {
    let place = scale.place(point.time);
    let far = part(point.lag.unsigned_abs(), 10 * HALF, height);
    let zero = zero.saturating_mul(10);
    let level = Tenths(if point.lag < 0 {
        zero.saturating_add(far)
    } else {
        zero.saturating_sub(far)
    });
    write!(text, "{place} {level}")
}
