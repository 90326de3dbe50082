//! Where the members of a workload stand in its text, which is a TOML document. A place that is found isn't proved to be the
//! right one: `member_at` compares what stands there with the value that the document has.

use crate::parts::{Elements, Lines, Names};
use crate::tokens::{Kind, Place, Tokens};
use eevdf_workload::Key;

/// Where the value at a key stands, where it is found.
pub(crate) fn place_of(text: &[u8], key: &Key) -> Option<Place> {
    match key {
        Key::Version => value_of(text, "version"),
        Key::Tasks => value_of(text, "task"),
        Key::Task(task) => element(text, value_of(text, "task")?, *task),
        Key::Home(task) => task_value(text, *task, "home"),
        Key::Nice(task) => task_value(text, *task, "nice"),
        Key::Slice(task) => task_value(text, *task, "slice"),
        Key::Start(task) => task_value(text, *task, "start"),
        Key::Asleep(task) => task_value(text, *task, "asleep"),
        Key::Programs => value_of(text, "program"),
        Key::Program(cpu) => element(text, value_of(text, "program")?, *cpu),
        Key::Op(cpu, place) => {
            let program = element(text, value_of(text, "program")?, *cpu)?;
            element(text, program, *place)
        }
        Key::Orders => value_of(text, "order"),
        Key::Order(place) => element(text, value_of(text, "order")?, *place),
        Key::Scripts => value_of(text, "script"),
        Key::Script(place) => element(text, value_of(text, "script")?, *place),
    }
}

/// Where the header of the member with this index of an array of tables stands.
pub(crate) fn header_of(text: &[u8], name: &str, index: usize) -> Option<Place> {
    let mut lines = Lines::of(text);
    let mut count = 0usize;
    for _line in 0..lines.most() {
        let line = lines.next()?;
        if is_header_of(text, line, name) {
            if count == index {
                return Some(line);
            }
            count = count.saturating_add(1);
        }
    }
    None
}

/// The key with this name behind the first header.
pub(crate) fn behind_header(text: &[u8], name: &str) -> Option<Place> {
    let mut lines = Lines::of(text);
    let mut is_behind = false;
    for _line in 0..lines.most() {
        let line = lines.next()?;
        if is_header(text, line) {
            is_behind = true;
        } else if is_behind && value_in(text, line, name).is_some() {
            return Tokens::within(text, line).next().map(|key| key.place);
        }
    }
    None
}

/// The value at a key of a task, in its inline table or behind its header.
fn task_value(text: &[u8], task: usize, name: &str) -> Option<Place> {
    match value_of(text, "task") {
        Some(tasks) => member(text, element(text, tasks, task)?, name),
        None => value_behind_header(text, task, name),
    }
}

/// The value at a key before the first header.
pub(crate) fn value_of(text: &[u8], name: &str) -> Option<Place> {
    value_before_header(text, &mut Lines::of(text), name)
}

/// The value at a key between the header of a task and the next header.
fn value_behind_header(text: &[u8], task: usize, name: &str) -> Option<Place> {
    let mut lines = Lines::of(text);
    let mut count = 0usize;
    for _line in 0..lines.most() {
        let line = lines.next()?;
        if is_header_of(text, line, "task") {
            if count == task {
                return value_before_header(text, &mut lines, name);
            }
            count = count.saturating_add(1);
        }
    }
    None
}

/// The value at a key in the lines before the next header.
fn value_before_header(text: &[u8], lines: &mut Lines, name: &str) -> Option<Place> {
    for _line in 0..lines.most() {
        let line = lines.next()?;
        if is_header(text, line) {
            return None;
        }
        if let Some(value) = value_in(text, line, name) {
            return Some(value);
        }
    }
    None
}

/// The element with this index of the array at a place.
pub(crate) fn element(text: &[u8], array: Place, index: usize) -> Option<Place> {
    let mut elements = Elements::of(text, array);
    for _element in 0..index.min(elements.most()) {
        elements.next()?;
    }
    elements.next()
}

/// The value at a key of the inline table at a place.
fn member(text: &[u8], table: Place, name: &str) -> Option<Place> {
    let mut pairs = Elements::of(text, table);
    for _pair in 0..pairs.most() {
        let pair = pairs.next()?;
        if let Some(value) = value_in(text, pair, name) {
            return Some(value);
        }
    }
    None
}

/// The value of the pair at a place, where its key is this name.
fn value_in(text: &[u8], pair: Place, name: &str) -> Option<Place> {
    let mut tokens = Tokens::within(text, pair);
    let key = tokens.next()?;
    let Kind::Equals = tokens.next()?.kind else {
        return None;
    };
    let value = tokens.next()?;
    if is_name(text, key.place, name) {
        Some(value.place.up_to(pair))
    } else {
        None
    }
}

pub(crate) fn is_header(text: &[u8], line: Place) -> bool {
    text.get(line.start) == Some(&b'[')
}

/// Whether a line is the header of a table, or of one more in an array of tables, with this name.
pub(crate) fn is_header_of(text: &[u8], line: Place, name: &str) -> bool {
    if !is_header(text, line) {
        return false;
    }
    let mut names = Names::of(text, line);
    match names.next() {
        Some(place) => is_name(text, place, name) && names.next().is_none(),
        None => false,
    }
}

/// Whether a name stands at a place, with quotes or without.
pub(crate) fn is_name(text: &[u8], place: Place, name: &str) -> bool {
    let Some(word) = text.get(place.start..place.end) else {
        return false;
    };
    match word {
        [b'"', inner @ .., b'"'] => inner == name.as_bytes(),
        [b'\'', inner @ .., b'\''] => inner == name.as_bytes(),
        _ => word == name.as_bytes(),
    }
}
