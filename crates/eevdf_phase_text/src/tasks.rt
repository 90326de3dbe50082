//! The tasks of a workload of phases.

use crate::arrivals::{has_end_if_arriving, numbers_of};
use crate::keys::{known_alone, length_or, list, number_or, text};
use crate::phase_fault::{Key, PhaseFault, Place, Wrong};
use crate::phases::phases;
use eevdf_closed_loop::Group;
use eevdf_ops::CpuId;
use eevdf_queue::TaskId;
use eevdf_weight::{Nice, Slice};
use std::alloc::Global;
use toml::{Table, Value};

/// The groups of tasks, in the order of the document.
pub(crate) fn groups(
    alloc: Global,
    members: &[Value],
    cpus: usize,
) -> Result<Vec<Group>, PhaseFault> {
    // looked at first, since each name is compared with all before it
    if members.len() > TaskId::COUNT {
        return Err(Place::Task(TaskId::COUNT).fault(Wrong::TooMany));
    }
    let mut groups = named_groups(alloc, members)?;
    let mut tasks = 0usize;
    for (task, member) in members.iter().enumerate() {
        let table = table_at(member, task)?;
        let read = group_of(alloc, table, task, cpus, &groups)?;
        tasks = tasks.saturating_add(read.count);
        if tasks > TaskId::COUNT {
            return Err(Place::Task(task).fault(Wrong::TooMany));
        }
        if let Some(group) = groups.get_mut(task) {
            *group = read;
        }
    }
    Ok(groups)
}

fn table_at(member: &Value, task: usize) -> Result<&Table, PhaseFault> {
    member
        .as_table()
        .ok_or(Place::Task(task).fault(Wrong::Bad(Key::Task)))
}

/// The groups with their names alone: a phase may name a task that comes later.
fn named_groups(alloc: Global, members: &[Value]) -> Result<Vec<Group>, PhaseFault> {
    let mut groups = Vec::new(alloc);
    if members.is_empty() {
        return Err(Place::Document.fault(Wrong::Missing(Key::Task)));
    }
    for (task, member) in members.iter().enumerate() {
        let name = text(table_at(member, task)?, Place::Task(task), Key::Name)?;
        if !is_name(name) {
            return Err(Place::Task(task).fault(Wrong::Bad(Key::Name)));
        }
        if place_of(&groups, name).is_some() {
            let name = String::from_str(alloc, name)?;
            return Err(Place::Task(task).fault(Wrong::SameName(name)));
        }
        groups.push(Group {
            name: String::from_str(alloc, name)?,
            count: 1,
            arrivals: None,
            home: None,
            nice: Nice::default(),
            slice: Slice::default(),
            begins: 0,
            phases: Vec::new(alloc),
        })?;
    }
    Ok(groups)
}

/// Whether a text may be a name: it has letters, digits, `-` and `_` alone, and isn't `-`, which stands for no task in what is printed. A
/// point stands between a name and a number there.
fn is_name(text: &str) -> bool {
    for byte in text.as_bytes() {
        if !byte.is_ascii_alphanumeric() && *byte != b'-' && *byte != b'_' {
            return false;
        }
    }
    1 <= text.len() && text.len() <= 64 && text != "-"
}

/// The place of the group with this name.
pub(crate) fn place_of(groups: &[Group], name: &str) -> Option<usize> {
    for (place, group) in groups.iter().enumerate() {
        if group.name.as_str() == name {
            return Some(place);
        }
    }
    None
}

/// What the table of a group says.
fn group_of(
    alloc: Global,
    table: &Table,
    task: usize,
    cpus: usize,
    named: &[Group],
) -> Result<Group, PhaseFault> {
    let place = Place::Task(task);
    known_alone(
        alloc,
        table,
        place,
        &[
            Key::Name,
            Key::Count,
            Key::Every,
            Key::AtOnce,
            Key::Home,
            Key::Nice,
            Key::Slice,
            Key::Begins,
            Key::Phases,
        ],
    )?;
    let (count, arrivals) = numbers_of(table, place)?;
    let name = String::from_str(alloc, text(table, place, Key::Name)?)?;
    let members = list(table, place, Key::Phases)?;
    let group = Group {
        name,
        count,
        arrivals,
        home: home_of(table, place, cpus)?,
        nice: nice_of(table, place)?,
        slice: slice_of(table, place)?,
        begins: length_or(table, place, Key::Begins, 0, "0")?,
        phases: phases(alloc, members, task, named)?,
    };
    has_end_if_arriving(arrivals, &group.phases, place)?;
    Ok(group)
}

fn home_of(table: &Table, place: Place, cpus: usize) -> Result<Option<usize>, PhaseFault> {
    if table.get(Key::Home.name()).is_none() {
        return Ok(None);
    }
    let home = number_or(table, place, Key::Home, (0, CpuId::COUNT as u64), 0)? as usize;
    if home < cpus {
        Ok(Some(home))
    } else {
        Err(place.fault(Wrong::Bad(Key::Home)))
    }
}

/// The nice level of a table.
pub(crate) fn nice_of(table: &Table, place: Place) -> Result<Nice, PhaseFault> {
    let nice = match table.get(Key::Nice.name()) {
        Some(value) => value.as_integer().and_then(Nice::new),
        None => Some(Nice::default()),
    };
    nice.ok_or(place.fault(Wrong::Bad(Key::Nice)))
}

fn slice_of(table: &Table, place: Place) -> Result<Slice, PhaseFault> {
    let ns = length_or(table, place, Key::Slice, 1, "3ms")?;
    Slice::new(ns).ok_or(place.fault(Wrong::Bad(Key::Slice)))
}
