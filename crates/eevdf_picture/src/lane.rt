//! The lane of a CPU: who runs on it, the box that grows, and the rows of its marks.

use crate::boxes::{BOX, Group};
use crate::marks::Rows;
use crate::signs::{Sign, sign_of};
use eevdf_clocks::Moment;
use eevdf_ops::CpuId;
use eevdf_queue::TaskId;
use eevdf_scene::{Scale, Scene, Stretch, Tenths, View, running_after, task_of};
use std::alloc::{AllocError, Global};

/// How high a row of marks is, in units of the picture: a mark, 9 at most, and between two rows the head of an arrow.
pub(crate) const ROW: u64 = 18;

/// The lane of a CPU.
#[derive(Clone, Copy)]
pub(crate) struct Lane {
    pub cpu: CpuId,
    pub shown: bool,
    pub top: u64,
    rows: Rows,
    used: u64,
    running: Option<TaskId>,
    // the stretches of the box that hasn't ended
    pub group: Option<Group>,
}

/// The lanes of all CPUs, of which the chosen ones are shown.
pub(crate) fn all_lanes(alloc: Global, scene: &Scene<'_>) -> Result<Vec<Lane>, AllocError> {
    let (cpus, view) = (scene.setup.cpus(), scene.view);
    let deeds = deeds_shown(scene.moments, &scene.scale, view);
    let shown = view.cpus.count(cpus);
    let mut lanes = Vec::new(alloc);
    for cpu in 0..cpus.min(CpuId::COUNT) {
        lanes.push(Lane {
            cpu: CpuId::numbered(cpu),
            shown: view.cpus.has(cpu),
            top: 0,
            rows: Rows::new(shown, deeds),
            used: 0,
            running: None,
            group: None,
        })?;
    }
    Ok(lanes)
}

/// How many deeds are shown, ticks among them.
fn deeds_shown(moments: &[Moment], scale: &Scale, view: &View) -> usize {
    let mut shown = 0usize;
    for moment in moments {
        let is_shown = view.cpus.has(moment.line.deed.cpu().index());
        if is_shown && scale.has(moment.begin) {
            shown = shown.saturating_add(1);
        }
    }
    shown
}

impl Lane {
    /// Follows who runs, and gives the sign of a deed that is to have a mark.
    pub(crate) fn follow(&mut self, moment: &Moment, scale: &Scale, view: &View) -> Option<Sign> {
        let after = running_after(moment, self.running);
        let is_drawn = self.shown
            && scale.has(moment.begin)
            && view.tasks.has_task(task_of(moment, self.running));
        let sign = sign_of(moment, self.running);
        self.running = after;
        if is_drawn { sign } else { None }
    }

    /// Adds a stretch to the box, or begins another one with it and gives the box that was ended.
    pub(crate) fn add(&mut self, stretch: Stretch, cell: u64) -> Option<Group> {
        let longer = self.group.and_then(|group| group.with(stretch, cell));
        if longer.is_some() {
            self.group = longer;
            return None;
        }
        let ended = self.group;
        self.group = Some(Group::of(stretch));
        ended
    }

    pub(crate) fn take_row(&mut self, place: Tenths) -> Option<u64> {
        let row = self.rows.take(place)? as u64;
        self.used = self.used.max(row.saturating_add(1));
        Some(row)
    }

    pub(crate) fn bottom(&self) -> u64 {
        self.top
            .saturating_add(BOX + 4)
            .saturating_add(self.used.saturating_mul(ROW))
    }

    pub(crate) fn push_name(&self, text: &mut String, scale: &Scale) -> Result<(), AllocError> {
        let cpu = self.cpu;
        let top = self.top;
        let base = top.saturating_add(16);
        let (left, width) = (Scale::LEFT, scale.width());
        writeln!(
            text,
            "<text class=\"c\" x=\"10\" y=\"{base}\">CPU {cpu}</text>"
        )?;
        writeln!(
            text,
            "<rect class=\"l\" x=\"{left}\" y=\"{top}\" width=\"{width}\" height=\"{BOX}\"/>"
        )
    }
}
