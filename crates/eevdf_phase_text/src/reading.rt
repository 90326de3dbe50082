//! The reader of a workload of phases.

ghost use Rattle.std.specs.Prelude.{IfOk};
ghost use Rattle.eevdf_phase_text.specs.Bounds.{IsInBounds};

use crate::keys::{known_alone, length_or, list, number_or, text_or};
use crate::phase_fault::{Key, PhaseFault, Place, Wrong};
use crate::tasks::groups;
use eevdf_closed_loop::{FallAsleep, Plan, Preempt};
use eevdf_ops::CpuId;
use std::alloc::Global;
use toml::{Table, Value};

/// The greatest number of bytes of a workload of phases.
pub const MOST_BYTES: usize = 16_777_216;

/// What the bytes of a TOML document say that a machine is to do, or the first fault that is found in them. `Memory` may come in place of
/// either.
pub fn read_phases(alloc: Global, bytes: &[u8]) -> Result<Plan, PhaseFault>
    ensures { IfOk result IsInBounds }
{
    if bytes.len() > MOST_BYTES {
        return Err(Place::Document.fault(Wrong::TooLarge));
    }
    match toml::table_from_slice(alloc, bytes) {
        Ok(document) => plan_of(alloc, &document),
        Err(error) if error.is_memory() => Err(Place::Document.fault(Wrong::Memory)),
        Err(_) => Err(Place::Document.fault(Wrong::NotToml)),
    }
}

/// What a document says.
fn plan_of(alloc: Global, document: &Table) -> Result<Plan, PhaseFault>
    ensures { IfOk result IsInBounds }
{
    let place = Place::Document;
    if document.get("version").is_none() {
        return Err(place.fault(Wrong::Missing(Key::Version)));
    }
    let _one = number_or(document, place, Key::Version, (1, 1), 1)?;
    known_alone(
        alloc,
        document,
        place,
        &[Key::Version, Key::Seed, Key::Machine, Key::Task],
    )?;
    let seed = number_or(document, place, Key::Seed, (0, u64::MAX), 0)?;
    let machine = machine_of(document)?;
    let mut plan = plan_of_machine(alloc, machine)?;
    plan.seed = seed;
    plan.groups = groups(alloc, list(document, place, Key::Task)?, plan.cpus)?;
    Ok(plan)
}

/// The table of the machine.
fn machine_of(document: &Table) -> Result<&Table, PhaseFault> {
    match document.get(Key::Machine.name()) {
        Some(Value::Table(machine)) => Ok(machine),
        Some(_) => Err(Place::Document.fault(Wrong::Bad(Key::Machine))),
        None => Err(Place::Document.fault(Wrong::Missing(Key::Machine))),
    }
}

/// What the table of a machine says, without tasks.
fn plan_of_machine(alloc: Global, machine: &Table) -> Result<Plan, PhaseFault>
    ensures { IfOk result IsInBounds }
{
    let place = Place::Machine;
    known_alone(
        alloc,
        machine,
        place,
        &[
            Key::Cpus,
            Key::Lasts,
            Key::Tick,
            Key::Pull,
            Key::Preempt,
            Key::FallAsleep,
        ],
    )?;
    let cpus = number_or(machine, place, Key::Cpus, (1, CpuId::COUNT as u64), 1)?;
    if machine.get(Key::Lasts.name()).is_none() {
        return Err(place.fault(Wrong::Missing(Key::Lasts)));
    }
    let lasts = length_or(machine, place, Key::Lasts, 1, "1s")?;
    let tick = length_or(machine, place, Key::Tick, 0, "0")?;
    Ok(Plan {
        cpus: cpus as usize,
        tick,
        lasts,
        pull: pull_of(machine)?,
        preempt: preempt_of(machine)?,
        fall_asleep: fall_asleep_of(machine)?,
        seed: 0,
        groups: Vec::new(alloc),
    })
}

fn pull_of(machine: &Table) -> Result<bool, PhaseFault> {
    match machine.get(Key::Pull.name()) {
        Some(Value::Boolean(pull)) => Ok(*pull),
        Some(_) => Err(Place::Machine.fault(Wrong::Bad(Key::Pull))),
        None => Ok(true),
    }
}

fn preempt_of(machine: &Table) -> Result<Preempt, PhaseFault> {
    match text_or(machine, Place::Machine, Key::Preempt, "wakeup")? {
        "wakeup" => Ok(Preempt::Wakeup),
        "tick" => Ok(Preempt::Tick),
        _ => Err(Place::Machine.fault(Wrong::Bad(Key::Preempt))),
    }
}

fn fall_asleep_of(machine: &Table) -> Result<FallAsleep, PhaseFault> {
    match text_or(machine, Place::Machine, Key::FallAsleep, "sleep")? {
        "sleep" => Ok(FallAsleep::Sleep),
        "doze" => Ok(FallAsleep::Doze),
        _ => Err(Place::Machine.fault(Wrong::Bad(Key::FallAsleep))),
    }
}
