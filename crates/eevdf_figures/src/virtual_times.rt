//! The greatest and the least virtual time of a CPU since a place of the history.

use eevdf_queue::Entry;
use eevdf_weight::{lag_limit, weight};
use std::alloc::{AllocError, Global};

/// A virtual time that a CPU had after the deed at a place of the history.
#[derive(Clone, Copy)]
struct Noted {
    place: usize,
    time: i64,
}

/// Of the virtual times that were noted those that are greater, or less, than all later ones: the greatest and the least since any place
/// are among them.
#[derive(Drop)]
pub(crate) struct VirtualTimes {
    greatest: Vec<Noted>,
    // with the sign turned
    least: Vec<Noted>,
}

impl VirtualTimes {
    pub(crate) fn new(alloc: Global) -> VirtualTimes {
        VirtualTimes {
            greatest: Vec::new(alloc),
            least: Vec::new(alloc),
        }
    }

    /// Notes the virtual time after the deed at a place, which is none before an earlier one.
    pub(crate) fn note(&mut self, place: usize, time: i64) -> Result<(), AllocError> {
        push_falling(&mut self.greatest, Noted { place, time })?;
        let time = 0i64.saturating_sub(time);
        push_falling(&mut self.least, Noted { place, time })
    }

    /// Forgets what was noted.
    pub(crate) fn forget(&mut self) {
        self.greatest.clear();
        self.least.clear();
    }

    /// The greatest since a place.
    pub(crate) fn greatest_since(&self, place: usize) -> Option<i64> {
        first_since(&self.greatest, place)
    }

    /// The least since a place.
    pub(crate) fn least_since(&self, place: usize) -> Option<i64> {
        first_since(&self.least, place).map(|time| 0i64.saturating_sub(time))
    }
}

/// Adds a time, before which those go that aren't greater.
fn push_falling(times: &mut Vec<Noted>, noted: Noted) -> Result<(), AllocError> {
    for _ in 0..times.len() {
        match times.last() {
            Some(last) if last.time <= noted.time => {
                let _ = times.pop();
            }
            _ => break,
        }
    }
    times.push(noted)?;
    Ok(())
}

fn first_since(times: &[Noted], place: usize) -> Option<i64> {
    let first = times.partition_point(|noted| noted.place < place);
    times.get(first).map(|noted| noted.time)
}

/// The lag of a task at a virtual time, limited as a queue does it, in nanoseconds.
pub(crate) fn lag_in_ns(time: i64, entry: &Entry) -> i64 {
    let weight = weight(entry.nice);
    let limit = lag_limit(entry.slice, weight);
    let lag = time.saturating_sub(entry.v);
    let lag = lag.min(limit).max(0i64.saturating_sub(limit));
    lag.saturating_mul(weight as i64) / 1024
}
