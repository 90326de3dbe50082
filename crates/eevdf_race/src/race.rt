//! The whole picture of a race, and which places of the order it has.

use crate::frame::{Frame, push_frame};
use crate::history::push_history;
use crate::rows::push_rows;
use crate::steps::steps_of;
use eevdf_clocks::Moment;
use eevdf_ops::Setup;
use eevdf_scene::View;
use std::alloc::{AllocError, Global};

/// The picture of an order that is played to its end, by which this history comes out: of at most `MOST_PLACES` of its places, from the
/// first that is asked for on. It is refused memory alone.
pub fn race_of(
    alloc: Global,
    setup: &Setup,
    order: &[usize],
    moments: &[Moment],
    view: &View,
) -> Result<Vec<u8>, AllocError> {
    let window = window_of(order.len(), view);
    let race = steps_of(alloc, setup, order, window)?;
    let frame = Frame::of(alloc, setup, &race, window, order.len())?;
    let mut text = String::new(alloc);
    push_frame(&mut text, &frame, moments.len())?;
    push_rows(&mut text, &frame, &race, moments)?;
    push_history(alloc, &mut text, &frame, &race, moments)?;
    text.push_str("</svg>\n")?;
    Ok(text.into_bytes())
}

/// So many places of an order are drawn at most.
const MOST_PLACES: usize = 96;

/// The places of an order that are drawn: from one on, and up to another one that isn't.
#[derive(Clone, Copy)]
pub(crate) struct Places {
    pub from: usize,
    pub to: usize,
}

impl Places {
    pub(crate) fn has(&self, place: usize) -> bool {
        self.from <= place && place < self.to
    }

    pub(crate) fn count(&self) -> usize {
        self.to.saturating_sub(self.from)
    }
}

/// The places that are asked for, as far as there are so many.
fn window_of(all: usize, view: &View) -> Places {
    let from = view.from.min(all as u64) as usize;
    let asked = view.to.unwrap_or(all as u64).min(all as u64) as usize;
    let to = asked.min(from.saturating_add(MOST_PLACES)).max(from);
    Places { from, to }
}
