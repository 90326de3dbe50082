//! The whole picture: what stands above the lanes, below them and around them.

use crate::axis::push_axis;
use crate::head::{Head, Key, push_lines};
use crate::lanes::Lanes;
use crate::panels::{PITCH, Sleeps, push_panel, sleeps_of};
use crate::style::push_style;
use crate::task_rows::TaskRows;
use eevdf_scene::{COLUMNS, MOST_CURVES, Scene};
use std::alloc::{AllocError, Global};
use std::fmt;

/// From the bottom of the last lane to the axis, and from the top of the axis' lines to the first lane, in units of the picture.
const MARGIN: u64 = 6;

/// From the axis below the lanes to the heading of the panels, and from that to the first of these, in units.
const HEADING: u64 = 36;

const BELOW: u64 = 10;

/// From the end of the panels to the bottom of the picture, where their axis has its numbers, in units.
const FOOT: u64 = 30;

/// The picture of a scene, by lanes or by rows of tasks, as its view says. It is refused memory alone.
pub fn picture_of(alloc: Global, scene: &Scene<'_>) -> Result<Vec<u8>, AllocError> {
    let mut text = String::new(alloc);
    if scene.view.by_task {
        push_tasks(alloc, &mut text, scene)?;
    } else {
        push_cpus(alloc, &mut text, scene)?;
    }
    text.push_str("</svg>\n")?;
    Ok(text.into_bytes())
}

/// Writes all of a picture that has a lane for each CPU.
fn push_cpus(alloc: Global, text: &mut String, scene: &Scene<'_>) -> Result<(), AllocError> {
    let mut lanes = Lanes::of(alloc, scene)?;
    let sleeps = sleeps_of(alloc, scene)?;
    let mut head = head_of(alloc, scene)?;
    say_lanes(alloc, &mut head, &lanes)?;
    say_lags(alloc, &mut head, scene)?;
    lanes.add_keys(&mut head, scene.view)?;
    if !sleeps.drawn.is_empty() {
        head.add_key(Key::Box("u"), "task sleeps")?;
    }
    lanes.stack(head.bottom());
    push_around(alloc, text, scene, &head, lanes.bottom(), &sleeps)?;
    lanes.push_boxes(text, &scene.scale, scene.view)?;
    lanes.push_marks(text, &scene.scale)
}

/// Writes all of one that has a row for each task.
fn push_tasks(alloc: Global, text: &mut String, scene: &Scene<'_>) -> Result<(), AllocError> {
    let mut rows = TaskRows::of(alloc, scene)?;
    let sleeps = sleeps_of(alloc, scene)?;
    let mut head = head_of(alloc, scene)?;
    let left_out = rows.left_out;
    if left_out > 0 {
        let boxes = if left_out == 1 { "box is" } else { "boxes are" };
        let words = format!(in alloc; "Drawn coarser: {left_out} {boxes} too narrow to be drawn.")?;
        head.say("s", words.as_str())?;
    }
    say_lags(alloc, &mut head, scene)?;
    rows.add_keys(&mut head, &sleeps)?;
    rows.stack(head.bottom());
    push_around(alloc, text, scene, &head, rows.bottom(), &sleeps)?;
    rows.push(text, scene)
}

/// Writes what stands around the lanes, which end at this height: the head, the axes and the panels.
fn push_around(
    alloc: Global,
    text: &mut String,
    scene: &Scene<'_>,
    head: &Head,
    bottom: u64,
    sleeps: &Sleeps,
) -> Result<(), AllocError> {
    let bottom = bottom.max(head.bottom()).saturating_add(MARGIN);
    let mut heading = String::new(alloc);
    let base = push_heading(alloc, &mut heading, scene, bottom, sleeps)?;
    let panels = base.saturating_add(BELOW);
    let count = scene.lags.curves.len() as u64;
    let end = panels.saturating_add(count.saturating_mul(PITCH));
    push_frame(text, scene, end.saturating_add(FOOT))?;
    text.push_str(head.text())?;
    push_axis(
        text,
        &scene.scale,
        head.bottom().saturating_sub(MARGIN),
        bottom,
    )?;
    text.push_str(heading.as_str())?;
    push_panels(text, scene, sleeps, panels, end)
}

/// Writes the heading of the panels, where there are some, and gives the base of its last line.
fn push_heading(
    alloc: Global,
    text: &mut String,
    scene: &Scene<'_>,
    bottom: u64,
    sleeps: &Sleeps,
) -> Result<u64, AllocError> {
    let base = bottom.saturating_add(HEADING);
    if scene.lags.curves.is_empty() {
        return Ok(base);
    }
    let mut words = String::from_str(
        alloc,
        "Lags in nanoseconds of virtual time: above 0 a task is eligible (shaded)",
    )?;
    if !sleeps.drawn.is_empty() {
        words.push_str("; it sleeps where a panel is hatched")?;
    }
    if sleeps.short > 0 {
        let are = if sleeps.short == 1 {
            "sleep is"
        } else {
            "sleeps are"
        };
        write!(words, "; {} {are} too short", sleeps.short)?;
    }
    push_lines(text, "s", words.as_str(), scene.scale.page, base)
}

/// Writes the panels from a top to an end, with an axis below them.
fn push_panels(
    text: &mut String,
    scene: &Scene<'_>,
    sleeps: &Sleeps,
    top: u64,
    end: u64,
) -> Result<(), AllocError> {
    if scene.lags.curves.is_empty() {
        return Ok(());
    }
    push_axis(text, &scene.scale, top.saturating_sub(MARGIN), end)?;
    let mut top = top;
    for curve in &scene.lags.curves {
        push_panel(text, curve, sleeps, &scene.scale, top)?;
        top = top.saturating_add(PITCH);
    }
    Ok(())
}

/// Writes what a picture of this height begins with: its title, its styles and its ground.
fn push_frame(text: &mut String, scene: &Scene<'_>, height: u64) -> Result<(), AllocError> {
    let page = scene.scale.page;
    let (cpus, tasks) = (cpus_shown(scene), tasks_shown(scene));
    let of_cpus = if cpus.all == 1 { "CPU" } else { "CPUs" };
    let of_tasks = if tasks.all == 1 { "task" } else { "tasks" };
    write!(
        text,
        "<svg xmlns=\"http://www.w3.org/2000/svg\" viewBox=\"0 0 {page} {height}\" width=\"{page}\" height=\"{height}\" "
    )?;
    writeln!(
        text,
        "style=\"max-width:100%;height:auto\" font-family=\"sans-serif\">"
    )?;
    writeln!(
        text,
        "<title>A schedule of {cpus} {of_cpus} and {tasks} {of_tasks}</title>"
    )?;
    push_style(text)?;
    writeln!(
        text,
        "<rect class=\"w\" width=\"{page}\" height=\"{height}\"/>"
    )
}

/// The head, with its first line.
fn head_of(alloc: Global, scene: &Scene<'_>) -> Result<Head, AllocError> {
    let (cpus, tasks, deeds) = (cpus_shown(scene), tasks_shown(scene), deeds_shown(scene));
    let words = format!(in alloc;
        "CPUs {cpus}, tasks {tasks}, deeds {deeds}: what ran when, by the time that ticks took"
    )?;
    let mut head = Head::new(alloc, scene.scale.page);
    head.say("h", words.as_str())?;
    Ok(head)
}

/// How many of all are shown.
#[derive(Clone, Copy)]
struct Part {
    shown: usize,
    all: usize,
}

/// As it stands in a title: all, or so many of all.
impl fmt::Display for Part {
    fn fmt<W: fmt::Write>(&self, f: &mut fmt::Formatter<W>) -> fmt::Result {
        if self.shown == self.all {
            write!(f, "{}", self.all)
        } else {
            write!(f, "{} of {}", self.shown, self.all)
        }
    }
}

fn cpus_shown(scene: &Scene<'_>) -> Part {
    let all = scene.setup.cpus();
    Part {
        shown: scene.view.cpus.count(all),
        all,
    }
}

/// The tasks that the time shows, or those that have rows.
fn tasks_shown(scene: &Scene<'_>) -> Part {
    let all = scene.setup.tasks();
    Part {
        shown: if scene.view.by_task {
            scene.view.tasks.count(all)
        } else {
            scene.shown.tasks()
        },
        all,
    }
}

fn deeds_shown(scene: &Scene<'_>) -> Part {
    Part {
        shown: scene.shown.deeds,
        all: scene.moments.len(),
    }
}

/// Says what of the lanes is left out or drawn coarser.
fn say_lanes(alloc: Global, head: &mut Head, lanes: &Lanes) -> Result<(), AllocError> {
    let (joined, left_out) = (lanes.joined(), lanes.left_out);
    let mut words = String::new(alloc);
    if joined > 0 {
        write!(
            words,
            "Drawn coarser: {joined} stretches are in grey boxes of several. "
        )?;
    }
    if left_out > 0 {
        let marks = if left_out == 1 {
            "mark has"
        } else {
            "marks have"
        };
        write!(words, "{left_out} {marks} no room.")?;
    }
    if joined > 0 || left_out > 0 {
        head.say("s", words.as_str())?;
    }
    Ok(())
}

/// Says what of the lags is.
fn say_lags(alloc: Global, head: &mut Head, scene: &Scene<'_>) -> Result<(), AllocError> {
    let shown = scene.shown.tasks();
    let mut words = String::new(alloc);
    if scene.lags.are_thinned() {
        write!(
            words,
            "Curves keep 4 lags of each 1/{COLUMNS} of the width. "
        )?;
    }
    if shown > MOST_CURVES {
        write!(
            words,
            "Lags are those of the first {MOST_CURVES} of {shown} tasks by time run; --task chooses others."
        )?;
    }
    if scene.lags.are_thinned() || shown > MOST_CURVES {
        head.say("s", words.as_str())?;
    }
    Ok(())
}
