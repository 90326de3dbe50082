//! The programs, the script and the order of a workload.

ghost use Rattle.std.specs.Prelude.{◌≡◌, map, option_map};
ghost use Rattle.eevdf_workload.specs.Meaning.{caller_at, deed_at, operation_at, order, program_at, programs, script, script_of};
ghost use Rattle.eevdf_workload.specs.MeaningSteps.{each, Reads};
ghost use Rattle.toml.specs.View.{array_view, items_view, table_view, view};

use crate::load_fault::{Key, LoadFault};
use crate::reading::deed_text::deed;
use crate::reading::document_keys::{
    array_at, good_at, into_array_at, into_integer, into_member, member, natural, required,
};
use crate::reading::operation_text::operation;
use crate::version::Limits;
use eevdf_ops::{Deed, Op};
use std::alloc::Global;
use toml::value::Array;
use toml::{Table, Value};

/// The programs, one for each CPU.
#[tactic(auto, unfolding(crate::specs::Meaning::programs))]
pub(crate) fn programs(
    alloc: Global,
    limits: Limits,
    document: &Table,
) -> Result<Vec<Vec<Op>>, LoadFault>
    ensures { Reads (λ ps. map (λ p. p.items) ps.items)
        (programs limits (table_view document.now)) result }
{
    let value = required(document, "program", Key::Programs)?;
    programs_of(alloc, limits, array_at(value, Key::Programs)?)
}

fn programs_of(alloc: Global, limits: Limits, members: &[Value]) -> Result<Vec<Vec<Op>>, LoadFault>
    ensures { Reads (λ ps. map (λ p. p.items) ps.items)
        (each (program_at limits) 0 (items_view members.now)) result }
{
    let mut programs = Vec::new(alloc);
    for (cpu, member) in members.iter().enumerate() {
        programs.push(program_at(alloc, limits, cpu, member)?)?;
    }
    Ok(programs)
}

// The program of a CPU.
#[tactic(auto, unfolding(crate::specs::Meaning::program_at))]
fn program_at(
    alloc: Global,
    limits: Limits,
    cpu: usize,
    value: &Value,
) -> Result<Vec<Op>, LoadFault>
    ensures { Reads (λ p. p.items) (program_at limits cpu (view value.now)) result }
{
    operations(alloc, limits, cpu, array_at(value, Key::Program(cpu))?)
}

fn operations(
    alloc: Global,
    limits: Limits,
    cpu: usize,
    members: &[Value],
) -> Result<Vec<Op>, LoadFault>
    ensures { Reads (λ p. p.items)
        (each (operation_at limits cpu) 0 (items_view members.now)) result }
{
    let mut program = Vec::new(alloc);
    for (place, member) in members.iter().enumerate() {
        program.push(operation_at(limits, cpu, place, member)?)?;
    }
    Ok(program)
}

#[tactic(auto, unfolding(crate::specs::Meaning::operation_at))]
fn operation_at(limits: Limits, cpu: usize, place: usize, value: &Value) -> Result<Op, LoadFault>
    ensures { result ≡ operation_at limits cpu place (view value.now) }
{
    let operation = value.as_str().and_then(|text| operation(limits, text));
    good_at(Key::Op(cpu, place), operation)
}

/// The script, if there is one.
#[tactic(auto, unfolding(crate::specs::Meaning::script))]
pub(crate) fn script(
    alloc: Global,
    limits: Limits,
    document: &Table,
) -> Result<Option<Vec<Deed>>, LoadFault>
    ensures { Reads (λ found. option_map (λ ds. ds.items) found)
        (script limits (table_view document.now)) result }
{
    match member(document, "script") {
        Some(value) => Ok(Some(script_of(alloc, limits, value)?)),
        None => Ok(None),
    }
}

#[tactic(auto, using(crate::proofs::ReadingLists::count_is_length))]
fn script_of(alloc: Global, limits: Limits, value: &Value) -> Result<Vec<Deed>, LoadFault>
    ensures { Reads (λ ds. ds.items) (script_of limits (view value.now)) result }
{
    let members = array_at(value, Key::Scripts)?;
    if members.len() > limits.deeds {
        return Err(LoadFault::BadValue { key: Key::Scripts });
    }
    deeds(alloc, limits, members)
}

fn deeds(alloc: Global, limits: Limits, members: &[Value]) -> Result<Vec<Deed>, LoadFault>
    ensures { Reads (λ ds. ds.items) (each (deed_at limits) 0 (items_view members.now)) result }
{
    let mut script = Vec::new(alloc);
    for (place, member) in members.iter().enumerate() {
        script.push(deed_at(limits, place, member)?)?;
    }
    Ok(script)
}

#[tactic(auto, unfolding(crate::specs::Meaning::deed_at))]
fn deed_at(limits: Limits, place: usize, value: &Value) -> Result<Deed, LoadFault>
    ensures { result ≡ deed_at limits place (view value.now) }
{
    let deed = value.as_str().and_then(|text| deed(limits, text));
    good_at(Key::Script(place), deed)
}

/// The order of the callers, if there is one. It takes the document by value: to free each value as it is read costs less than
/// to free a long list afterwards.
#[tactic(auto, unfolding(crate::specs::Meaning::order))]
pub(crate) fn order(alloc: Global, document: Table) -> Result<Option<Vec<usize>>, LoadFault>
    ensures { Reads (λ found. option_map (λ ps. ps.items) found)
        (order (table_view document)) result }
{
    match into_member(document, "order") {
        Some(value) => Ok(Some(callers(alloc, into_array_at(value, Key::Orders)?)?)),
        None => Ok(None),
    }
}

fn callers(alloc: Global, members: Array) -> Result<Vec<usize>, LoadFault>
    ensures { Reads (λ ps. ps.items) (each caller_at 0 (array_view members)) result }
{
    let mut order = Vec::with_capacity(alloc, members.len())?;
    for member in members {
        let place = order.len();
        order.push_reserved(caller_at(place, member)?);
    }
    Ok(order)
}

#[tactic(auto, unfolding(crate::specs::Meaning::caller_at))]
fn caller_at(place: usize, value: Value) -> Result<usize, LoadFault>
    ensures { result ≡ caller_at place (view value) }
{
    let caller = good_at(Key::Order(place), into_integer(value).and_then(natural))?;
    Ok(caller as usize)
}
