//! The tasks of a trace, by their numbers in it.

use crate::course::Change;
use crate::event_text::Told;
use crate::priorities::nice_at;
use crate::trace_fault::Wrong;
use crate::track::Track;
use eevdf_closed_loop::Group;
use eevdf_ops::CpuId;
use eevdf_queue::TaskId;
use std::alloc::{AllocError, Global};
use std::collections::BTreeMap;

/// The tasks of a trace.
#[derive(Drop)]
pub(crate) struct Tracks {
    /// In the order in which they were first seen.
    tracks: Vec<Track>,
    /// The place of each among them, by its number in the trace.
    places: BTreeMap<u32, usize>,
}

impl Tracks {
    pub fn none(alloc: Global) -> Tracks {
        Tracks {
            tracks: Vec::new(alloc),
            places: BTreeMap::new(alloc),
        }
    }

    pub fn is_empty(&self) -> bool {
        self.tracks.is_empty()
    }

    /// An event at a moment, of a task of which a line tells, that is first seen on a CPU if it hasn't been seen before. Nothing happens to
    /// the task of number 0, which stands for nobody.
    pub fn take(
        &mut self,
        alloc: Global,
        told: &Told<'_>,
        change: Change,
        cpu: CpuId,
        at: u64,
    ) -> Result<(), Wrong> {
        if told.pid == 0 {
            return Ok(());
        }
        let begins = match change {
            Change::Leaves { how: _, switched } => switched,
            _ => at,
        };
        let place = self.place_of(alloc, told, cpu, begins)?;
        if let Some(track) = self.tracks.get_mut(place) {
            track.take(change, nice_at(told.priority), at)?;
        }
        Ok(())
    }

    /// The place of a task, which is added where it hasn't been seen before.
    fn place_of(
        &mut self,
        alloc: Global,
        told: &Told<'_>,
        home: CpuId,
        begins: u64,
    ) -> Result<usize, Wrong> {
        let pid = told.pid;
        let known = self.places.get(&pid).copied();
        if let Some(place) = known {
            return Ok(place);
        }
        let place = self.tracks.len();
        if place >= TaskId::COUNT {
            return Err(Wrong::TooMany);
        }
        self.tracks.push(Track::from(alloc, told, home, begins)?)?;
        let _none = self.places.insert(pid, place)?;
        Ok(place)
    }

    /// The groups of a plan that are these tasks, where the trace ends at a moment.
    pub fn end(self, alloc: Global, at: u64) -> Result<Vec<Group>, AllocError> {
        let mut groups = Vec::with_capacity(alloc, self.tracks.len())?;
        for track in self.tracks {
            groups.push(track.end(at)?)?;
        }
        Ok(groups)
    }
}
