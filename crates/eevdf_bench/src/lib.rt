//! The workbench: it reads a workload, runs it on the scheduler and reports each CPU's schedule.
//!
//! The reader stands in eevdf_workload and the report in eevdf_report. What a caller of the workbench needs of
//! them is exported here too.
#![tactic(auto)]

mod byte_streams;
mod command;
mod fault_texts;
mod fleet_run;
mod parts;
mod piped;
mod program_ends;
mod program_words;
pub mod reading_laws;
mod reasoned;
mod refused_deeds;
mod replay_run;
mod solo_run;
mod told_names;
mod undone_parts;
mod watched;
mod workbench_engine;
mod workbench_fault;
mod workload_text;

pub use byte_streams::{read_input, write_text};
pub use command::{Command, Kind, WordFault, command_of};
pub use eevdf_report::{Form, report};
pub use eevdf_workload::{Key, LoadFault, Version, Workload, read_workload};
pub use fault_texts::{fault_text, status_of};
pub use fleet_run::run_text;
pub use parts::Parts;
pub use piped::Piped;
pub use program_ends::{
    NO_MEMORY, NO_WRITE, ProgramTexts, VERSION, print, tell, tell_reason, tell_text,
};
pub use program_words::{asks_for, is_flag, may_name_file, named_file, take_file, take_flag};
pub use reasoned::Reasoned;
pub use refused_deeds::{RefusedDeed, RefusedDeeds};
pub use replay_run::replay_text;
pub use solo_run::solo_text;
pub use told_names::told_name;
pub use undone_parts::undone_text;
pub use watched::Watched;
pub use workbench_engine::{engine, engine_with_input};
pub use workbench_fault::BenchFault;
pub use workload_text::{Notes, WorkloadText};
