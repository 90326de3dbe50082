//! The boxes of a lane.

use eevdf_scene::{Scale, Stretch, Tenths, View};
use std::alloc::AllocError;

/// How high a box is, in units of the picture.
pub(crate) const BOX: u64 = 24;

/// How wide a digit in a box is, in tenths.
const DIGIT: u64 = 80;

/// The room beside a number in a box, in tenths.
const BESIDE: u64 = 60;

/// So many fills there are for tasks: seven colours, each plain and with three patterns.
pub(crate) const FILLS: u64 = 28;

/// Stretches that are drawn as one box.
#[derive(Clone, Copy)]
pub(crate) struct Group {
    pub first: Stretch,
    end: u64,
    pub count: u64,
    charged: u64,
}

impl Group {
    pub(crate) fn of(first: Stretch) -> Group {
        let end = first.end;
        let charged = end.saturating_sub(first.begin);
        Group {
            first,
            end,
            count: 1,
            charged,
        }
    }

    /// The group with one more stretch, where that begins in the same cell.
    pub(crate) fn with(self, next: Stretch, cell: u64) -> Option<Group> {
        if cell == 0 || next.begin / cell != self.first.begin / cell {
            return None;
        }
        Some(Group {
            end: next.end,
            count: self.count.saturating_add(1),
            charged: self
                .charged
                .saturating_add(next.end.saturating_sub(next.begin)),
            ..self
        })
    }

    /// Whether it is of one stretch, whose task isn't chosen.
    pub(crate) fn is_of_other(&self, view: &View) -> bool {
        self.count == 1 && !view.tasks.has(self.first.task.index())
    }

    /// Writes the box.
    pub(crate) fn push(
        &self,
        text: &mut String,
        top: u64,
        scale: &Scale,
        view: &View,
    ) -> Result<(), AllocError> {
        let begin = scale.place(self.first.begin);
        let width = Tenths(scale.place(self.end).0.saturating_sub(begin.0));
        write!(text, "<rect class=\"b ")?;
        if self.count > 1 {
            write!(text, "m")?;
        } else if self.is_of_other(view) {
            write!(text, "o")?;
        } else {
            write!(text, "t{}", self.first.task.get() % FILLS)?;
        }
        write!(
            text,
            "\" x=\"{begin}\" y=\"{top}\" width=\"{width}\" height=\"{BOX}\"><title>"
        )?;
        self.push_title(text)?;
        writeln!(text, "</title></rect>")?;
        self.push_number(text, top, begin, width)
    }

    fn push_title(&self, text: &mut String) -> Result<(), AllocError> {
        let cpu = self.first.cpu;
        let begin = self.first.begin;
        let end = self.end;
        let charged = self.charged;
        if self.count > 1 {
            write!(text, "{} stretches", self.count)?;
        } else {
            write!(text, "task {}", self.first.task)?;
        }
        write!(
            text,
            " on CPU {cpu}, {charged} ns, from {begin} ns to {end} ns"
        )
    }

    /// Writes the task's number in the box, where it fits.
    fn push_number(
        &self,
        text: &mut String,
        top: u64,
        begin: Tenths,
        width: Tenths,
    ) -> Result<(), AllocError> {
        let task = self.first.task.get();
        let digits = if task < 10 {
            1
        } else if task < 100 {
            2
        } else if task < 1000 {
            3
        } else {
            4
        };
        if self.count > 1 || width.0 < digits * DIGIT + BESIDE {
            return Ok(());
        }
        let middle = Tenths(begin.0.saturating_add(width.0 / 2));
        let base = top.saturating_add(17);
        writeln!(
            text,
            "<text class=\"n\" x=\"{middle}\" y=\"{base}\">{task}</text>"
        )
    }
}
