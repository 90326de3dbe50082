//! Where the name of a key stands at which lines of their own make what the document has, part by part: `nice` in `nice.x = 3` and in
//! `[task.nice]`. A place that is found isn't proved to be the right one: `named_place` compares what stands there with the name.

ghost use Rattle.std.specs.Prelude.{◌≡◌};
ghost use Rattle.eevdf_explain.specs.Places.{name_of};

use crate::member_places::{element, header_of, is_header, is_header_of, is_name, value_of};
use crate::parts::{Elements, Lines, Names};
use crate::tokens::Place;
use eevdf_workload::Key;

/// The name of a key in its table; of a member of a list that of the list.
pub(crate) fn name_of(key: &Key) -> &'static str
    ensures { result.now ≡ name_of key.now }
{
    match key {
        Key::Version => "version",
        Key::Tasks | Key::Task(_) => "task",
        Key::Home(_) => "home",
        Key::Nice(_) => "nice",
        Key::Slice(_) => "slice",
        Key::Start(_) => "start",
        Key::Asleep(_) => "asleep",
        Key::Programs | Key::Program(_) | Key::Op(..) => "program",
        Key::Orders | Key::Order(_) => "order",
        Key::Scripts | Key::Script(_) => "script",
    }
}

/// Where the name of a key stands, without quotes, where it is found.
pub(crate) fn name_place(text: &[u8], key: &Key) -> Option<Place> {
    let name = name_of(key);
    let place = match key {
        Key::Version | Key::Tasks | Key::Programs | Key::Orders | Key::Scripts => {
            in_document(text, name)
        }
        Key::Home(task)
        | Key::Nice(task)
        | Key::Slice(task)
        | Key::Start(task)
        | Key::Asleep(task) => in_task(text, *task, name),
        Key::Task(index) | Key::Program(index) | Key::Order(index) | Key::Script(index) => {
            in_header(text, name, *index)
        }
        Key::Op(..) => None,
    };
    Some(without_quotes(text, place?))
}

/// In a line before the first header, or in a header.
fn in_document(text: &[u8], name: &str) -> Option<Place> {
    let mut lines = Lines::of(text);
    let mut is_behind = false;
    for _line in 0..lines.most() {
        let line = lines.next()?;
        let is_header = is_header(text, line);
        is_behind = is_behind || is_header;
        if is_header || !is_behind {
            if let Some(place) = first_named(text, line, name) {
                return Some(place);
            }
        }
    }
    None
}

/// In the header with this index of an array of tables.
fn in_header(text: &[u8], name: &str, index: usize) -> Option<Place> {
    let header = header_of(text, name, index)?;
    first_named(text, header, name)
}

/// In the inline table of a task, or behind its header.
fn in_task(text: &[u8], task: usize, name: &str) -> Option<Place> {
    match value_of(text, "task") {
        Some(tasks) => in_pairs(text, element(text, tasks, task)?, name),
        None => behind_task(text, task, name),
    }
}

/// In a pair of the inline table at a place.
fn in_pairs(text: &[u8], table: Place, name: &str) -> Option<Place> {
    let mut pairs = Elements::of(text, table);
    for _pair in 0..pairs.most() {
        if let Some(place) = first_named(text, pairs.next()?, name) {
            return Some(place);
        }
    }
    None
}

/// In a line behind the header of a task, or in a header of a part of it, as `[task.nice]`.
fn behind_task(text: &[u8], task: usize, name: &str) -> Option<Place> {
    let mut lines = Lines::of(text);
    let mut count = 0usize;
    let mut is_own = false;
    for _line in 0..lines.most() {
        let line = lines.next()?;
        let found = if is_header_of(text, line, "task") {
            count = count.saturating_add(1);
            is_own = true;
            None
        } else if is_header(text, line) {
            is_own = false;
            second_named(text, line, "task", name)
        } else if is_own {
            first_named(text, line, name)
        } else {
            None
        };
        // `count` tasks have begun, and so the last one is at `count - 1`
        if found.is_some() && count.checked_sub(1) == Some(task) {
            return found;
        }
    }
    None
}

/// The first name of a line, if it is this one.
fn first_named(text: &[u8], line: Place, name: &str) -> Option<Place> {
    let place = Names::of(text, line).next()?;
    if is_name(text, place, name) {
        Some(place)
    } else {
        None
    }
}

/// The second name of a header that begins with another one, if it is this one.
fn second_named(text: &[u8], header: Place, first: &str, name: &str) -> Option<Place> {
    let mut names = Names::of(text, header);
    if !is_name(text, names.next()?, first) {
        return None;
    }
    let place = names.next()?;
    if is_name(text, place, name) {
        Some(place)
    } else {
        None
    }
}

/// A word without the quotes between which it stands.
fn without_quotes(text: &[u8], word: Place) -> Place {
    match text.get(word.start) {
        Some(b'"' | b'\'') => Place {
            start: word.start.saturating_add(1),
            end: word.end.saturating_sub(1),
        },
        _ => word,
    }
}
