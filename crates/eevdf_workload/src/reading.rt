//! The reader of a workload.
ghost use Rattle.std.specs.Prelude.{◌≡◌, map, option_map};
ghost use Rattle.eevdf_workload.specs.Meaning.{allowed, allowed_from, document_of, meaning, setup_of, workload_in, workload_of};
ghost use Rattle.eevdf_workload.specs.MeaningSteps.{Reads};
ghost use Rattle.toml.specs.View.{table_view};

mod argument_words;
mod by_front;
mod deed_text;
pub(crate) mod document_keys;
mod front;
pub(crate) mod level_text;
mod lists;
pub(crate) mod number_text;
mod operation_text;
mod plain_arrays;
mod plain_lists;
mod plain_values;
mod task_table;
pub(crate) mod unread;
pub(crate) mod verb_text;
mod word_list;

use crate::load_fault::{Key, LoadFault};
use crate::reading::by_front::workload_by_front;
use crate::reading::document_keys::version;
use crate::reading::lists::{order, programs, script};
use crate::reading::task_table::tasks;
use crate::reading::unread::has_unread_keys;
use crate::version::Limits;
use crate::workload::Workload;
use eevdf_ops::{Deed, Op, Setup, SetupFault, TaskSpec};
use std::alloc::Global;
use toml::Table;

/// The workload that the bytes of a TOML document describe, or the first fault that is found in them.
/// `Memory` may come in place of either.
#[tactic(auto, unfolding(crate::specs::Meaning::meaning))]
pub fn read_workload(alloc: Global, bytes: &[u8]) -> Result<Workload, LoadFault>
    ensures { Reads (λ w. w) (meaning bytes.now) result }
{
    if bytes.len() > Workload::MOST_BYTES {
        return Err(LoadFault::TooLarge);
    }
    if let Some(workload) = workload_by_front(alloc, bytes)? {
        return Ok(workload);
    }
    let document = document_of(alloc, bytes)?;
    workload_of(alloc, document)
}

/// The document that the bytes are, or `NotToml`. `Memory` may come in place of either.
#[tactic(auto, unfolding(crate::specs::Meaning::document_of))]
pub fn document_of(alloc: Global, bytes: &[u8]) -> Result<Table, LoadFault>
    ensures { Reads (λ t. table_view t) (document_of bytes.now) result }
{
    match toml::table_from_slice(alloc, bytes) {
        Ok(document) => Ok(document),
        Err(error) if error.is_memory() => Err(LoadFault::Memory),
        Err(_) => Err(LoadFault::NotToml),
    }
}

#[tactic(auto, unfolding(crate::specs::Meaning::workload_of))]
fn workload_of(alloc: Global, document: Table) -> Result<Workload, LoadFault>
    ensures { Reads (λ w. w) (workload_of (table_view document)) result }
{
    let version = version(&document)?;
    workload_in(alloc, version.limits(), document)
}

// The workload that a document describes within the limits of its version. The script is read before the order, which takes
// the document, but a fault of the order comes first.
#[tactic(auto, unfolding(crate::specs::Meaning::workload_in))]
fn workload_in(alloc: Global, limits: Limits, document: Table) -> Result<Workload, LoadFault>
    ensures { Reads (λ w. w) (workload_in limits (table_view document)) result }
{
    let tasks = tasks(alloc, limits, &document)?;
    let programs = programs(alloc, limits, &document)?;
    let script = script(alloc, limits, &document);
    let has_unread_keys = has_unread_keys(&document);
    let order = order(alloc, document)?;
    let script = script?;
    let setup = setup_of(alloc, limits, &tasks, &programs)?;
    check_script(&setup, &script)?;
    Ok(Workload::new(setup, order, script, has_unread_keys))
}

#[tactic(auto, unfolding(crate::specs::Meaning::setup_of))]
fn setup_of(
    alloc: Global,
    limits: Limits,
    tasks: &[TaskSpec],
    programs: &[Vec<Op>],
) -> Result<Setup, LoadFault>
    ensures { Reads (λ s. s) (setup_of limits tasks.now (map (λ p. p.items) programs.now)) result }
{
    if programs.len() as u64 > limits.cpus {
        return Err(LoadFault::Setup(SetupFault::BadCpus));
    }
    match Setup::make(alloc, tasks, programs) {
        Ok(setup) => Ok(setup),
        Err(SetupFault::Memory) => Err(LoadFault::Memory),
        Err(fault) => Err(LoadFault::Setup(fault)),
    }
}

fn check_script(setup: &Setup, script: &Option<Vec<Deed>>) -> Result<(), LoadFault>
    ensures { result ≡ allowed setup.now (option_map (λ ds. ds.items) script.now) }
{
    match script {
        Some(deeds) => check_deeds(setup, deeds),
        None => Ok(()),
    }
}

fn check_deeds(setup: &Setup, deeds: &[Deed]) -> Result<(), LoadFault>
    ensures { result ≡ allowed_from setup.now 0 deeds.now }
{
    for (place, deed) in deeds.iter().enumerate() {
        if !setup.allows(deed) {
            return Err(LoadFault::BadValue {
                key: Key::Script(place),
            });
        }
    }
    Ok(())
}
