//! The reader of a workload of phases: what a machine is to do, as it is read from the bytes of a TOML document. docs/phases.md has the
//! format.
#![tactic(auto)]

mod arrivals;
mod fault_places;
mod keys;
mod near_words;
mod phase_fault;
mod phase_path;
mod phases;
mod reading;
mod tasks;
mod time_slips;

pub use fault_places::fault_place;
pub use phase_fault::{Key, PhaseFault, Place, Wrong};
pub use phase_path::PhasePath;
pub use reading::{MOST_BYTES, read_phases};
pub use time_slips::TimeSlip;
