//! The way through a TOML document to a value, followed through its text.

use crate::pieces::{Header, Pair, Piece, read_header, read_item, read_pair};
use std::alloc::Global;
use toml_parser::text::{first, skip_blank};

/// A step on the way to a value.
#[derive(Clone, Copy)]
pub enum Step<'a> {
    /// To the one at a key of a table.
    Key(&'a str),
    /// To the one at a place of a list. Places count from 0.
    Item(usize),
}

/// What stands at the end of a way. Of a header, and of an item of a list, it is all in one.
#[derive(Clone, Copy)]
pub(crate) struct FoundPieces<'a> {
    pub key: Piece<'a>,
    pub value: Piece<'a>,
}

/// What stands at the end of a way through the document that a text is. `None` where it isn't found, or where there is no memory.
pub(crate) fn pieces_at<'a>(alloc: Global, text: &'a str, way: &[Step]) -> Option<FoundPieces<'a>> {
    let mut items = Vec::with_capacity(alloc, way.len()).ok()?;
    for _step in 0..way.len() {
        items.push(0usize).ok()?;
    }
    let mut table = Some(0usize);
    let mut rest = text.strip_prefix('\u{feff}').unwrap_or(text);
    for _line in 0..text.len() {
        rest = skip_blank(rest, true);
        if first(rest) == b'[' {
            let header = read_header(alloc, rest)?;
            table = steps_to(&header, way, &mut items);
            if table == Some(way.len()) {
                return Some(all_in_one(header.whole));
            }
            rest = header.whole.behind;
        } else {
            let pair = read_pair(alloc, rest)?;
            if let Some(steps) = table {
                if let Some(found) = in_pair(alloc, &pair, way, steps) {
                    return Some(found);
                }
            }
            rest = pair.value.behind;
        }
    }
    None
}

fn all_in_one(piece: Piece<'_>) -> FoundPieces<'_> {
    FoundPieces {
        key: piece,
        value: piece,
    }
}

/// How many steps of a way a header goes, where it isn't off the way. How many items of lists on the way have begun is counted, by step.
fn steps_to(header: &Header, way: &[Step], items: &mut [usize]) -> Option<usize> {
    let mut steps = 0usize;
    for (place, name) in header.names.iter().enumerate() {
        steps = match way.get(steps) {
            None => return Some(steps),
            Some(Step::Key(key)) if *key == name.as_str() => steps.saturating_add(1),
            Some(_) => return None,
        };
        if let (Some(Step::Item(item)), Some(begun)) = (way.get(steps), items.get_mut(steps)) {
            if header.is_item && place.saturating_add(1) == header.names.len() {
                *begun = begun.saturating_add(1);
            }
            if begun.checked_sub(1) != Some(*item) {
                return None;
            }
            steps = steps.saturating_add(1);
        }
    }
    Some(steps)
}

/// What stands at the end of a way that leads on from the table of a pair, after so many steps.
fn in_pair<'a>(
    alloc: Global,
    pair: &Pair<'a>,
    way: &[Step],
    steps: usize,
) -> Option<FoundPieces<'a>> {
    let (found, steps) = along(pair, way, steps)?;
    in_value(alloc, found, way, steps)
}

/// Goes along the names of a pair. Where the way ends among them, the key is what is found.
fn along<'a>(pair: &Pair<'a>, way: &[Step], from: usize) -> Option<(FoundPieces<'a>, usize)> {
    let mut steps = from;
    for name in pair.names.iter() {
        steps = match way.get(steps) {
            None => return Some((all_in_one(pair.key), steps)),
            Some(Step::Key(key)) if *key == name.as_str() => steps.saturating_add(1),
            Some(_) => return None,
        };
    }
    let found = FoundPieces {
        key: pair.key,
        value: pair.value,
    };
    Some((found, steps))
}

/// What stands at the end of a way that leads on into a value, after so many steps.
fn in_value<'a>(
    alloc: Global,
    value: FoundPieces<'a>,
    way: &[Step],
    from: usize,
) -> Option<FoundPieces<'a>> {
    let mut found = value;
    let mut steps = from;
    for _step in 0..way.len() {
        match way.get(steps) {
            None => return Some(found),
            Some(Step::Item(place)) => {
                found = all_in_one(read_item(alloc, found.value.from, *place)?);
                steps = steps.saturating_add(1);
            }
            Some(Step::Key(_)) => (found, steps) = in_table(alloc, found.value.from, way, steps)?,
        }
    }
    if steps == way.len() {
        Some(found)
    } else {
        None
    }
}

/// Goes along the first pair of an inline table that is on the way.
fn in_table<'a>(
    alloc: Global,
    table: &'a str,
    way: &[Step],
    steps: usize,
) -> Option<(FoundPieces<'a>, usize)> {
    let mut rest = table.strip_prefix('{')?;
    for _pair in 0..table.len() {
        let pair = read_pair(alloc, skip_blank(rest, true))?;
        if let Some(found) = along(&pair, way, steps) {
            return Some(found);
        }
        rest = skip_blank(pair.value.behind, true).strip_prefix(',')?;
    }
    None
}
