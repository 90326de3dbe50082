//! The lanes of CPUs: their boxes, their marks and the arrows between them.

use crate::arrows::Shifts;
use crate::boxes::{BOX, Group};
use crate::head::{Head, Key};
use crate::lane::{Lane, ROW, all_lanes};
use crate::signs::Sign;
use eevdf_clocks::Moment;
use eevdf_ops::CpuId;
use eevdf_scene::{Scale, Scene, Stretch, Tenths, View, other_cpu, part};
use std::alloc::{AllocError, Global};

/// What is between two lanes, in units.
const BETWEEN: u64 = 10;

/// How far an arrow ends from the middle of its mark, in units.
const TIP: u64 = 8;

/// So many stretches are drawn each by itself. Where more are shown, those are drawn as one that begin in the same small part of a lane.
const MOST_BOXES: usize = 1200;

/// A mark that has a place.
#[derive(Clone, Copy)]
struct Mark {
    cpu: CpuId,
    row: u64,
    sign: Sign,
    moment: Moment,
}

/// The lanes by their CPUs, with the boxes and the marks of those that are shown.
#[derive(Drop)]
pub(crate) struct Lanes {
    lanes: Vec<Lane>,
    boxes: Vec<Group>,
    marks: Vec<Mark>,
    /// How many marks have no place.
    pub left_out: u64,
}

impl Lanes {
    /// Joins the stretches of a scene to boxes, and finds places for the marks of its deeds.
    pub(crate) fn of(alloc: Global, scene: &Scene<'_>) -> Result<Lanes, AllocError> {
        let mut lanes = Lanes {
            lanes: all_lanes(alloc, scene)?,
            boxes: Vec::new(alloc),
            marks: Vec::new(alloc),
            left_out: 0,
        };
        for moment in scene.moments {
            lanes.place(moment, &scene.scale, scene.view)?;
        }
        lanes.join(scene)?;
        Ok(lanes)
    }

    fn place(&mut self, moment: &Moment, scale: &Scale, view: &View) -> Result<(), AllocError> {
        let cpu = moment.line.deed.cpu();
        let Some(lane) = self.lanes.get_mut(cpu.index()) else {
            return Ok(());
        };
        let Some(sign) = lane.follow(moment, scale, view) else {
            return Ok(());
        };
        let row = lane.take_row(scale.place(moment.begin));
        match row {
            None => self.left_out = self.left_out.saturating_add(1),
            Some(row) => self.marks.push(Mark {
                cpu,
                row,
                sign,
                moment: *moment,
            })?,
        }
        Ok(())
    }

    fn join(&mut self, scene: &Scene<'_>) -> Result<(), AllocError> {
        let stretches = &scene.turns.stretches;
        let cell = if stretches_shown(stretches, &scene.scale, scene.view) > MOST_BOXES {
            let lanes = scene.view.cpus.count(self.lanes.len()) as u64;
            part(scene.scale.length(), lanes, MOST_BOXES as u64)
        } else {
            0
        };
        for stretch in stretches {
            if scene.scale.shows(stretch.begin, stretch.end) {
                self.add_stretch(*stretch, cell)?;
            }
        }
        for lane in &self.lanes {
            if let Some(last) = lane.group {
                self.boxes.push(last)?;
            }
        }
        Ok(())
    }

    /// Adds a stretch to the box of its lane, or ends that and begins another.
    fn add_stretch(&mut self, stretch: Stretch, cell: u64) -> Result<(), AllocError> {
        let ended = match self.lanes.get_mut(stretch.cpu.index()) {
            Some(lane) if lane.shown => lane.add(stretch, cell),
            _ => None,
        };
        if let Some(ended) = ended {
            self.boxes.push(ended)?;
        }
        Ok(())
    }

    /// How many stretches are drawn in a box with others.
    pub(crate) fn joined(&self) -> u64 {
        let mut joined = 0u64;
        for group in &self.boxes {
            if group.count > 1 {
                joined = joined.saturating_add(group.count);
            }
        }
        joined
    }

    /// Adds what is drawn to the legend.
    pub(crate) fn add_keys(&self, head: &mut Head, view: &View) -> Result<(), AllocError> {
        for number in 0..Sign::COUNT {
            let sign = Sign(number);
            if self.has_mark(sign) {
                let (shape, words) = sign.key();
                head.add_key(Key::Sign(shape), words)?;
            }
        }
        for (class, words) in [("p", "pulled from"), ("q", "woken from")] {
            if self.has_arrow(class) {
                head.add_key(Key::Arrow(class), words)?;
            }
        }
        if self.joined() > 0 {
            head.add_key(Key::Box("b m"), "several stretches")?;
        }
        if self.has_other(view) {
            head.add_key(Key::Box("b o"), "task not chosen")?;
        }
        Ok(())
    }

    fn has_mark(&self, sign: Sign) -> bool {
        for mark in &self.marks {
            if mark.sign == sign {
                return true;
            }
        }
        false
    }

    fn has_arrow(&self, class: &str) -> bool {
        for mark in &self.marks {
            if mark.arrow() == class && self.source_top(mark).is_some() {
                return true;
            }
        }
        false
    }

    /// Whether there is a box of a task that isn't chosen.
    fn has_other(&self, view: &View) -> bool {
        for group in &self.boxes {
            if group.is_of_other(view) {
                return true;
            }
        }
        false
    }

    /// Puts each lane that is shown below the one before it, from a top on.
    pub(crate) fn stack(&mut self, top: u64) {
        let mut top = top;
        for lane in self.lanes.iter_mut() {
            lane.top = top;
            if lane.shown {
                top = lane.bottom().saturating_add(BETWEEN);
            }
        }
    }

    /// The bottom of the last lane that is shown.
    pub(crate) fn bottom(&self) -> u64 {
        let mut bottom = 0;
        for lane in &self.lanes {
            if lane.shown {
                bottom = lane.bottom();
            }
        }
        bottom
    }

    /// Writes the lanes with their names, and then their boxes.
    pub(crate) fn push_boxes(
        &self,
        text: &mut String,
        scale: &Scale,
        view: &View,
    ) -> Result<(), AllocError> {
        for lane in &self.lanes {
            if lane.shown {
                lane.push_name(text, scale)?;
            }
        }
        for group in &self.boxes {
            group.push(text, self.top_of(group.first.cpu), scale, view)?;
        }
        Ok(())
    }

    /// Writes the arrows of pulls and of wakes by other CPUs, and then the marks.
    pub(crate) fn push_marks(&self, text: &mut String, scale: &Scale) -> Result<(), AllocError> {
        let mut shifts = Shifts::NONE;
        for mark in &self.marks {
            if other_cpu(&mark.moment).is_some() {
                let shift = shifts.next(scale.place(mark.moment.begin));
                if let Some(top) = self.source_top(mark) {
                    self.push_arrow(text, mark, top, scale, shift)?;
                }
            }
        }
        for mark in &self.marks {
            let place = scale.place(mark.moment.begin);
            let height = self.height_of(mark);
            let sign = mark.sign;
            let line = mark.moment.line;
            let begin = mark.moment.begin;
            writeln!(
                text,
                "<use href=\"#{sign}\" x=\"{place}\" y=\"{height}\"><title>{line}, at {begin} ns</title></use>"
            )?;
        }
        Ok(())
    }

    fn top_of(&self, cpu: CpuId) -> u64 {
        match self.lanes.get(cpu.index()) {
            None => 0,
            Some(lane) => lane.top,
        }
    }

    /// The top of the lane from which a mark has an arrow, where that is shown.
    fn source_top(&self, mark: &Mark) -> Option<u64> {
        let source = other_cpu(&mark.moment)?;
        match self.lanes.get(source.index()) {
            Some(lane) if lane.shown => Some(lane.top),
            _ => None,
        }
    }

    /// The middle of a mark.
    fn height_of(&self, mark: &Mark) -> u64 {
        let row = mark.row.saturating_mul(ROW);
        self.top_of(mark.cpu)
            .saturating_add(BOX + ROW / 2 + 2)
            .saturating_add(row)
    }

    /// Writes the arrow of a deed of two CPUs, from so far beside its place at the boxes of the other lane, of this top, to its mark.
    fn push_arrow(
        &self,
        text: &mut String,
        mark: &Mark,
        top: u64,
        scale: &Scale,
        shift: u64,
    ) -> Result<(), AllocError> {
        let end = self.height_of(mark);
        let start = top.saturating_add(if top < end { BOX } else { 0 });
        let tip = if start < end {
            end.saturating_sub(TIP)
        } else {
            end.saturating_add(TIP)
        };
        let begin = mark.moment.begin;
        let from = scale.place(mark.moment.other);
        let from = Tenths(from.0.saturating_add(shift));
        let to = scale.place(begin);
        let line = mark.moment.line;
        let kind = mark.arrow();
        writeln!(
            text,
            "<path class=\"{kind}\" d=\"M{from} {start}L{to} {tip}\"><title>{line}, at {begin} ns</title></path>"
        )
    }
}

/// How many stretches are shown.
fn stretches_shown(stretches: &[Stretch], scale: &Scale, view: &View) -> usize {
    let mut shown = 0usize;
    for stretch in stretches {
        if view.cpus.has(stretch.cpu.index()) && scale.shows(stretch.begin, stretch.end) {
            shown = shown.saturating_add(1);
        }
    }
    shown
}

impl Mark {
    /// The class of the arrow that leads to it, where one does.
    fn arrow(&self) -> &'static str {
        if self.sign == Sign::PULL { "p" } else { "q" }
    }
}
