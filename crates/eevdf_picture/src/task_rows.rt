//! The rows of tasks: when each runs, waits and sleeps.

use crate::boxes::{BOX, FILLS};
use crate::head::{Head, Key};
use crate::panels::Sleeps;
use eevdf_queue::TaskId;
use eevdf_scene::{Rest, Scale, Scene, Stretch, Tenths, part};
use std::alloc::{AllocError, Global};

/// How far the top of a row is from the next one's, in units of the picture.
const PITCH: u64 = BOX + 10;

/// How far the box of a wait is below the top of its row, and that of a sleep, in units.
const WAIT: u64 = 8;

const SLEEP: u64 = 16;

/// So many boxes are drawn each, whatever their widths. Where more are shown, those are left out that are narrower than they would be if so
/// many filled all rows.
const MOST_BOXES: usize = 1200;

/// A box that is so wide has room for the number of a CPU, in tenths.
const ROOM: u64 = 220;

/// The rows of the chosen tasks, one below the other, and what is drawn in them.
#[derive(Drop)]
pub(crate) struct TaskRows {
    // of each task how far its row is below the first one, where it is chosen
    tops: Vec<Option<u64>>,
    top: u64,
    height: u64,
    // how wide a box is at least, in tenths
    least: u64,
    /// How many boxes are too narrow to be drawn.
    pub left_out: u64,
    // the fill of a task that runs, and whether one waits or sleeps
    runs: Option<u64>,
    waits: bool,
    sleeps: bool,
}

impl TaskRows {
    /// Finds places for the rows, and which boxes are drawn.
    pub(crate) fn of(alloc: Global, scene: &Scene<'_>) -> Result<TaskRows, AllocError> {
        let mut rows = TaskRows {
            tops: Vec::new(alloc),
            top: 0,
            height: 0,
            least: 0,
            left_out: 0,
            runs: None,
            waits: false,
            sleeps: false,
        };
        for task in 0..scene.setup.tasks() {
            if scene.view.tasks.has(task) {
                rows.tops.push(Some(rows.height))?;
                rows.height = rows.height.saturating_add(PITCH);
            } else {
                rows.tops.push(None)?;
            }
        }
        if boxes_shown(scene) > MOST_BOXES {
            let chosen = scene.view.tasks.count(scene.setup.tasks()) as u64;
            let all = scene.scale.width().saturating_mul(10);
            rows.least = part(all, chosen, MOST_BOXES as u64);
        }
        rows.look(scene);
        Ok(rows)
    }

    /// Counts what is left out, and sees what is drawn.
    fn look(&mut self, scene: &Scene<'_>) {
        for rest in &scene.turns.rests {
            if rest.is_chosen(&scene.scale, scene.view) {
                let is_drawn = self.look_at(rest.begin, rest.end, &scene.scale);
                self.waits = self.waits || is_drawn && !rest.sleeps;
                self.sleeps = self.sleeps || is_drawn && rest.sleeps;
            }
        }
        for stretch in &scene.turns.stretches {
            if stretch.is_chosen(&scene.scale, scene.view)
                && self.look_at(stretch.begin, stretch.end, &scene.scale)
            {
                self.runs = Some(stretch.task.get() % FILLS);
            }
        }
    }

    /// Whether a box is wide enough, and if not counts it.
    fn look_at(&mut self, begin: u64, end: u64, scale: &Scale) -> bool {
        let is_drawn = width_of(begin, end, scale).0 >= self.least;
        if !is_drawn {
            self.left_out = self.left_out.saturating_add(1);
        }
        is_drawn
    }

    /// Adds what is drawn to the legend.
    pub(crate) fn add_keys(&self, head: &mut Head, sleeps: &Sleeps) -> Result<(), AllocError> {
        if let Some(fill) = self.runs {
            head.add_key(Key::Fill(fill), "runs, on the CPU of the number")?;
        }
        if self.waits {
            head.add_key(Key::Box("v"), "waits")?;
        }
        if self.sleeps || !sleeps.drawn.is_empty() {
            head.add_key(Key::Box("u"), "sleeps")?;
        }
        Ok(())
    }

    /// Puts the first row at a top.
    pub(crate) fn stack(&mut self, top: u64) {
        self.top = top;
    }

    /// The bottom of the last row.
    pub(crate) fn bottom(&self) -> u64 {
        self.top
            .saturating_add(self.height)
            .saturating_sub(PITCH - BOX)
    }

    /// Writes the rows with their names, and then their boxes.
    pub(crate) fn push(&self, text: &mut String, scene: &Scene<'_>) -> Result<(), AllocError> {
        for (task, below) in self.tops.iter().enumerate() {
            if let Some(below) = below {
                push_name(text, task, self.top.saturating_add(*below), &scene.scale)?;
            }
        }
        for rest in &scene.turns.rests {
            if rest.is_chosen(&scene.scale, scene.view) {
                self.push_rest(text, rest, &scene.scale)?;
            }
        }
        for stretch in &scene.turns.stretches {
            if stretch.is_chosen(&scene.scale, scene.view) {
                self.push_stretch(text, stretch, &scene.scale)?;
            }
        }
        Ok(())
    }

    fn push_rest(&self, text: &mut String, rest: &Rest, scale: &Scale) -> Result<(), AllocError> {
        let (task, begin, end) = (rest.task, rest.begin, rest.end);
        let Some(place) = self.place(task, begin, end, scale) else {
            return Ok(());
        };
        let (left, width) = (place.left, place.width);
        let below = if rest.sleeps { SLEEP } else { WAIT };
        let class = if rest.sleeps { "u" } else { "v" };
        let does = if rest.sleeps { "sleeps" } else { "waits" };
        let top = place.top.saturating_add(below);
        let height = BOX.saturating_sub(below);
        write!(
            text,
            "<rect class=\"{class}\" x=\"{left}\" y=\"{top}\" width=\"{width}\" height=\"{height}\">"
        )?;
        writeln!(
            text,
            "<title>task {task} {does}, from {begin} ns to {end} ns</title></rect>"
        )
    }

    fn push_stretch(
        &self,
        text: &mut String,
        stretch: &Stretch,
        scale: &Scale,
    ) -> Result<(), AllocError> {
        let (task, begin, end) = (stretch.task, stretch.begin, stretch.end);
        let Some(place) = self.place(task, begin, end, scale) else {
            return Ok(());
        };
        let (left, top, width) = (place.left, place.top, place.width);
        let fill = task.get() % FILLS;
        write!(
            text,
            "<rect class=\"b t{fill}\" x=\"{left}\" y=\"{top}\" width=\"{width}\" height=\"{BOX}\">"
        )?;
        writeln!(
            text,
            "<title>task {task} runs on CPU {}, from {begin} ns to {end} ns</title></rect>",
            stretch.cpu
        )?;
        if width.0 < ROOM {
            return Ok(());
        }
        let middle = Tenths(left.0.saturating_add(width.0 / 2));
        let base = top.saturating_add(17);
        writeln!(
            text,
            "<text class=\"n\" x=\"{middle}\" y=\"{base}\">{}</text>",
            stretch.cpu
        )
    }

    /// Where a box of a task stands, or `None` where it is left out.
    fn place(&self, task: TaskId, begin: u64, end: u64, scale: &Scale) -> Option<Place> {
        let below = self.tops.get(task.index()).copied().flatten()?;
        let width = width_of(begin, end, scale);
        if width.0 < self.least {
            return None;
        }
        Some(Place {
            left: scale.place(begin),
            top: self.top.saturating_add(below),
            width,
        })
    }
}

fn width_of(begin: u64, end: u64, scale: &Scale) -> Tenths {
    Tenths(scale.place(end).0.saturating_sub(scale.place(begin).0))
}

/// Where a box stands.
#[derive(Clone, Copy)]
struct Place {
    left: Tenths,
    top: u64,
    width: Tenths,
}

/// How many boxes are shown.
fn boxes_shown(scene: &Scene<'_>) -> usize {
    let mut shown = 0usize;
    for rest in &scene.turns.rests {
        if rest.is_chosen(&scene.scale, scene.view) {
            shown = shown.saturating_add(1);
        }
    }
    for stretch in &scene.turns.stretches {
        if stretch.is_chosen(&scene.scale, scene.view) {
            shown = shown.saturating_add(1);
        }
    }
    shown
}

fn push_name(text: &mut String, task: usize, top: u64, scale: &Scale) -> Result<(), AllocError> {
    let base = top.saturating_add(16);
    let (left, width) = (Scale::LEFT, scale.width());
    writeln!(
        text,
        "<text class=\"c\" x=\"10\" y=\"{base}\">task {task}</text>"
    )?;
    writeln!(
        text,
        "<rect class=\"l\" x=\"{left}\" y=\"{top}\" width=\"{width}\" height=\"{BOX}\"/>"
    )
}
