//! The values at the keys of a table.

ghost use Rattle.std.specs.Prelude.{◌≤◌, IfOk, IfSome};

use crate::near_words::nearest_key;
use crate::phase_fault::{Key, Owner, PhaseFault, Place, Wrong};
use crate::time_slips::time_slip;
use eevdf_time_text::{MOST_NS, length};
use std::alloc::Global;
use toml::{Table, Value};

/// The keys that one kind of table has alone, and whose they are.
const ELSEWHERE: [(Key, Owner); 15] = [
    (Key::Version, Owner::Document),
    (Key::Seed, Owner::Document),
    (Key::Machine, Owner::Document),
    (Key::Cpus, Owner::Machine),
    (Key::Lasts, Owner::Machine),
    (Key::Tick, Owner::Machine),
    (Key::Pull, Owner::Machine),
    (Key::Preempt, Owner::Machine),
    (Key::Name, Owner::Task),
    (Key::Count, Owner::Task),
    (Key::Every, Owner::Task),
    (Key::AtOnce, Owner::Task),
    (Key::Home, Owner::Task),
    (Key::Slice, Owner::Task),
    (Key::Begins, Owner::Task),
];

/// The text at a key, or the default where the key is absent.
pub(crate) fn text_or<'a>(
    table: &'a Table,
    place: Place,
    key: Key,
    default: &'static str,
) -> Result<&'a str, PhaseFault> {
    match table.get(key.name()) {
        Some(value) => value.as_str().ok_or(place.fault(Wrong::Bad(key))),
        None => Ok(default),
    }
}

/// The text at a key that has to be there.
pub(crate) fn text<'a>(table: &'a Table, place: Place, key: Key) -> Result<&'a str, PhaseFault> {
    match table.get(key.name()) {
        Some(value) => value.as_str().ok_or(place.fault(Wrong::Bad(key))),
        None => Err(place.fault(Wrong::Missing(key))),
    }
}

/// The length of time at a key, from a least one on, or the default where the key is absent.
pub(crate) fn length_or(
    table: &Table,
    place: Place,
    key: Key,
    least: u64,
    default: &'static str,
) -> Result<u64, PhaseFault>
    ensures least { IfOk result (λ ns. least ≤ ns) }
    ensures most { IfOk result (λ ns. ns ≤ MOST_NS) }
{
    match table.get(key.name()) {
        Some(value) => match length_of(value) {
            Some(ns) if ns >= least => Ok(ns),
            _ => Err(bad_time(value, place, key)),
        },
        None => match length(default) {
            Some(ns) if ns >= least => Ok(ns),
            _ => Err(place.fault(Wrong::Bad(key))),
        },
    }
}

/// The length of time that a value is.
pub(crate) fn length_of(value: &Value) -> Option<u64>
    ensures most { IfSome result (λ ns. ns ≤ MOST_NS) }
{
    match value.as_str() {
        Some(text) => length(text),
        None => None,
    }
}

/// The fault of a value that isn't the length of time or the range that it has to be.
pub(crate) fn bad_time(value: &Value, place: Place, key: Key) -> PhaseFault {
    place.fault(match time_slip(value) {
        Some(slip) => Wrong::BadTime { key, slip },
        None => Wrong::Bad(key),
    })
}

/// The whole number at a key, from a least to a greatest one, or the default where the key is absent.
pub(crate) fn number_or(
    table: &Table,
    place: Place,
    key: Key,
    bounds: (u64, u64),
    default: u64,
) -> Result<u64, PhaseFault>
    ensures least { IfOk result (λ number. bounds.0 ≤ number) }
    ensures most { IfOk result (λ number. number ≤ bounds.1) }
{
    let number = match table.get(key.name()) {
        Some(value) => whole_number(value),
        None => Some(default),
    };
    match number {
        Some(number) if bounds.0 <= number && number <= bounds.1 => Ok(number),
        _ => Err(place.fault(Wrong::Bad(key))),
    }
}

/// The whole number from 0 on that a value is.
fn whole_number(value: &Value) -> Option<u64> {
    u64::try_from(value.as_integer()?).ok()
}

/// The members of the list at a key that has to be there.
pub(crate) fn list<'a>(
    table: &'a Table,
    place: Place,
    key: Key,
) -> Result<&'a [Value], PhaseFault> {
    match table.get(key.name()) {
        Some(Value::Array(members)) => Ok(members.as_slice()),
        Some(_) => Err(place.fault(Wrong::Bad(key))),
        None => Err(place.fault(Wrong::Missing(key))),
    }
}

/// A fault where a table has another key than these.
pub(crate) fn known_alone(
    alloc: Global,
    table: &Table,
    place: Place,
    known: &[Key],
) -> Result<(), PhaseFault> {
    for name in table.keys() {
        if !is_among(name.as_str(), known) {
            return Err(place.fault(unknown_key(alloc, name.as_str(), known)?));
        }
    }
    Ok(())
}

/// What is wrong with a key that isn't among those that are known at its place: where it belongs, or which of them is near.
fn unknown_key(alloc: Global, name: &str, known: &[Key]) -> Result<Wrong, PhaseFault> {
    for (key, owner) in ELSEWHERE.iter() {
        if key.name() == name {
            return Ok(Wrong::Misplaced {
                key: *key,
                owner: *owner,
            });
        }
    }
    let word = String::from_str(alloc, name)?;
    let nearest = nearest_key(alloc, name, known)?;
    Ok(Wrong::UnknownKey { word, nearest })
}

/// Whether one of the keys has this name.
fn is_among(name: &str, known: &[Key]) -> bool {
    for key in known {
        if key.name() == name {
            return true;
        }
    }
    false
}
