//! The picture of a schedule, as SVG.
//!
//! `picture_of` puts it together: the lanes of CPUs (lanes.rt, lane.rt), with boxes for stretches (boxes.rt), marks for deeds (signs.rt,
//! marks.rt) and arrows between them, or else the rows of tasks (task_rows.rt); below them the panels of lags (panels.rt), above them the
//! legend of what is drawn (head.rt), and around both the axis (axis.rt) and the styles (style.rt). Where more is shown than can be told
//! apart it is drawn coarser, and the picture says so.
#![tactic(auto)]

mod arrows;
mod axis;
mod boxes;
mod head;
mod lane;
mod lanes;
mod marks;
mod panels;
mod picture;
mod signs;
mod style;
mod task_rows;

pub use picture::picture_of;
