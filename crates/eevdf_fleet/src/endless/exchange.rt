use crate::endless::seen_line::SeenLine;
use crate::names::Names;
use crossbeam_utils::CachePadded;
use eevdf_ops::CpuId;
use std::alloc::{AllocError, Global};
use std::marker::Model;
use std::sync::{Mutex, Wait};

/// Where the threads of a run leave lines for one another, with what was seen of the history when they were done: a place for each CPU of
/// the run, each in a lock of its own, which is held for no longer than it takes to put a line there or to take it out.
#[derive(Drop)]
pub struct Exchange<N: Names> {
    places: Vec<CachePadded<Mutex<Option<SeenLine<N>>>>>,
}

impl<N: Names> Model for Exchange<N> {
    ghost Value = { Unit {0} };

    ghost view = { λ e. tt };
}

impl<N: Names> Exchange<N> {
    /// So many places, all empty. Where there are none it takes no memory.
    pub(super) fn open(alloc: Global, places: usize) -> Result<Exchange<N>, AllocError> {
        let mut all = Vec::with_capacity(alloc, places)?;
        for _place in 0..places {
            all.push(CachePadded::new(Mutex::new(None)))?;
        }
        Ok(Exchange { places: all })
    }

    /// Leaves a line for a CPU, in the place of what was left for it before and not taken. Where the run has no such CPU nothing is left.
    pub fn leave<R: Wait>(&self, rt: &R, cpu: CpuId, line: SeenLine<N>) {
        if let Some(place) = self.places.get(cpu.index()) {
            *place.lock(rt) = Some(line);
        }
    }

    /// Takes what was left for a CPU last, if it is there still.
    pub fn take<R: Wait>(&self, rt: &R, cpu: CpuId) -> Option<SeenLine<N>> {
        let place = self.places.get(cpu.index())?;
        place.lock(rt).take()
    }
}
