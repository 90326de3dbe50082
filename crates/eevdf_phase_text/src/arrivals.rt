//! How many tasks of a name there are, and how they arrive.

use crate::keys::number_or;
use crate::phase_fault::{Key, PhaseFault, Place, Wrong};
use crate::phases::span_of;
use eevdf_closed_loop::{Arrivals, Phase};
use eevdf_queue::TaskId;
use toml::Table;

/// So many tasks of a name arrive at most, where it is said how many do.
const MOST_ARRIVALS: u64 = 1_000_000_000;

/// How many tasks a table stands for at once, and how they arrive, where they do.
pub(crate) fn numbers_of(
    table: &Table,
    place: Place,
) -> Result<(usize, Option<Arrivals>), PhaseFault> {
    let most = TaskId::COUNT as u64;
    let Some(every) = table.get(Key::Every.name()) else {
        if table.get(Key::AtOnce.name()).is_some() {
            return Err(place.fault(Wrong::Missing(Key::Every)));
        }
        let count = number_or(table, place, Key::Count, (1, most), 1)?;
        return Ok((count as usize, None));
    };
    if table.get(Key::AtOnce.name()).is_none() {
        return Err(place.fault(Wrong::Missing(Key::AtOnce)));
    }
    let at_once = number_or(table, place, Key::AtOnce, (1, most), 1)?;
    let arrivals = Arrivals {
        every: span_of(every, place, Key::Every)?,
        number: arriving(table, place)?,
    };
    Ok((at_once as usize, Some(arrivals)))
}

/// How many tasks arrive in all: without end, where it isn't said.
fn arriving(table: &Table, place: Place) -> Result<u64, PhaseFault> {
    if table.get(Key::Arriving.name()).is_none() {
        return Ok(u64::MAX);
    }
    number_or(table, place, Key::Arriving, (1, MOST_ARRIVALS), 1)
}

/// A fault where tasks arrive, and none of their phases is their end.
pub(crate) fn has_end_if_arriving(
    arrivals: Option<Arrivals>,
    phases: &[Phase],
    place: Place,
) -> Result<(), PhaseFault> {
    if arrivals.is_none() || phases.contains(&Phase::End) {
        Ok(())
    } else {
        Err(place.fault(Wrong::NoEnd))
    }
}
