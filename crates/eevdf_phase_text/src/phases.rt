//! The phases of a task.

use crate::keys::{bad_time, known_alone, length_of, list, number_or};
use crate::near_words::{nearest_name, nearest_phase};
use crate::phase_fault::{Key, PhaseFault, Place, Wrong};
use crate::phase_path::PhasePath;
use crate::tasks::{nice_of, place_of};
use eevdf_closed_loop::{Group, Phase, Span};
use eevdf_time_text::span;
use std::alloc::Global;
use toml::{Table, Value};

/// So many phases a task has at most, those in loops and the ends of loops included.
const MOST_PHASES: usize = 1000;

/// So often a loop is gone through at most.
const MOST_ROUNDS: u64 = 1_000_000_000;

/// The phases of the task at a place, of which the loops are laid flat: behind what is repeated stands how often.
pub(crate) fn phases(
    alloc: Global,
    members: &[Value],
    task: usize,
    named: &[Group],
) -> Result<Vec<Phase>, PhaseFault> {
    let mut phases = Vec::new(alloc);
    for (phase, member) in members.iter().enumerate() {
        let place = Place::Phase {
            task,
            path: PhasePath::of(phase),
        };
        push_phase(alloc, &mut phases, member, place, named, 0)?;
    }
    if phases.is_empty() {
        return Err(Place::Task(task).fault(Wrong::Bad(Key::Phases)));
    }
    if !takes_time(&phases, 0) {
        return Err(Place::Task(task).fault(Wrong::NoTime));
    }
    Ok(phases)
}

/// Adds a phase, or a loop with all that stands in it, at a depth of loops.
fn push_phase(
    alloc: Global,
    phases: &mut Vec<Phase>,
    member: &Value,
    place: Place,
    named: &[Group],
    depth: usize,
) -> Result<(), PhaseFault> {
    let table = match member {
        Value::String(word) => return push(phases, place, word_phase(alloc, word.as_str(), place)?),
        Value::Table(table) => table,
        _ => return Err(place.fault(Wrong::NoPhase)),
    };
    if table.get(Key::Loop.name()).is_none() {
        return push(phases, place, table_phase(alloc, table, place, named)?);
    }
    known_alone(alloc, table, place, &[Key::Loop, Key::Phases])?;
    if depth >= Phase::DEPTHS {
        return Err(place.fault(Wrong::TooDeep));
    }
    let rounds = number_or(table, place, Key::Loop, (1, MOST_ROUNDS), 1)?;
    let first = phases.len();
    for (at, inner) in list(table, place, Key::Phases)?.iter().enumerate() {
        push_phase(alloc, phases, inner, place.within(at), named, depth + 1)?;
    }
    if !takes_time(phases, first) {
        return Err(place.fault(Wrong::NoTime));
    }
    push(
        phases,
        place,
        Phase::Again {
            first,
            depth,
            rounds,
        },
    )
}

fn push(phases: &mut Vec<Phase>, place: Place, phase: Phase) -> Result<(), PhaseFault> {
    if phases.len() >= MOST_PHASES {
        return Err(place.fault(Wrong::Bad(Key::Phases)));
    }
    phases.push(phase)?;
    Ok(())
}

/// Whether one of the phases from a place on takes time.
fn takes_time(phases: &[Phase], first: usize) -> bool {
    for at in first..phases.len() {
        let phase = phases[at];
        match phase {
            Phase::Run(_) | Phase::Sleep(_) | Phase::Timer(_) | Phase::End => return true,
            _ => {}
        }
    }
    false
}

/// The phase that a word is.
fn word_phase(alloc: Global, word: &str, place: Place) -> Result<Phase, PhaseFault> {
    match word {
        "suspend" => Ok(Phase::Suspend),
        "yield" => Ok(Phase::Yield),
        "end" => Ok(Phase::End),
        _ => {
            let nearest = nearest_phase(alloc, word)?;
            let word = String::from_str(alloc, word)?;
            Err(place.fault(Wrong::UnknownPhase { word, nearest }))
        }
    }
}

/// The phase that a table of one key is.
fn table_phase(
    alloc: Global,
    table: &Table,
    place: Place,
    named: &[Group],
) -> Result<Phase, PhaseFault> {
    if table.len() != 1 {
        return Err(place.fault(Wrong::NoPhase));
    }
    known_alone(
        alloc,
        table,
        place,
        &[Key::Run, Key::Sleep, Key::Timer, Key::Resume, Key::Nice],
    )?;
    if let Some(value) = table.get(Key::Run.name()) {
        return Ok(Phase::Run(span_of(value, place, Key::Run)?));
    }
    if let Some(value) = table.get(Key::Sleep.name()) {
        return Ok(Phase::Sleep(span_of(value, place, Key::Sleep)?));
    }
    if let Some(value) = table.get(Key::Timer.name()) {
        return Ok(Phase::Timer(period_of(value, place)?));
    }
    if let Some(value) = table.get(Key::Resume.name()) {
        return Ok(Phase::Resume(named_of(alloc, value, place, named)?));
    }
    Ok(Phase::Nice(nice_of(table, place)?))
}

/// The span that a value is.
pub(crate) fn span_of(value: &Value, place: Place, key: Key) -> Result<Span, PhaseFault> {
    let Some(text) = value.as_str() else {
        return Err(bad_time(value, place, key));
    };
    match span(text) {
        Some((least, most)) => Ok(Span { least, most }),
        None => Err(bad_time(value, place, key)),
    }
}

fn period_of(value: &Value, place: Place) -> Result<u64, PhaseFault> {
    match length_of(value) {
        Some(ns) if ns >= 1 => Ok(ns),
        _ => Err(bad_time(value, place, Key::Timer)),
    }
}

/// The place of the group that a value names.
fn named_of(
    alloc: Global,
    value: &Value,
    place: Place,
    named: &[Group],
) -> Result<usize, PhaseFault> {
    let Some(name) = value.as_str() else {
        return Err(place.fault(Wrong::Bad(Key::Resume)));
    };
    match place_of(named, name) {
        Some(group) => Ok(group),
        None => {
            let nearest = nearest_name(alloc, name, named)?;
            let word = String::from_str(alloc, name)?;
            Err(place.fault(Wrong::NoTask { word, nearest }))
        }
    }
}
