//! The pieces of a text that is a TOML document: its values, pairs and headers. What they mean isn't looked at.

use std::alloc::Global;
use toml_parser::text::{first, skip, skip_blank, skip_ws};
use toml_parser::{dotted_key, quoted, starts_string, unquoted};

/// What stands in a text between the beginnings of two of its ends.
#[derive(Clone, Copy)]
pub(crate) struct Piece<'a> {
    /// The text from its beginning on.
    pub from: &'a str,
    /// The text behind it.
    pub behind: &'a str,
}

/// A key with its value.
#[derive(Drop)]
pub(crate) struct Pair<'a> {
    /// The names of the key, which dots part.
    pub names: Vec<String>,
    pub key: Piece<'a>,
    pub value: Piece<'a>,
}

/// The header of a table.
#[derive(Drop)]
pub(crate) struct Header<'a> {
    pub names: Vec<String>,
    /// Whether the table is one more of a list.
    pub is_item: bool,
    pub whole: Piece<'a>,
}

/// The pair at the front of a text.
pub(crate) fn read_pair(alloc: Global, text: &str) -> Option<Pair<'_>> {
    let (names, behind) = names(alloc, text)?;
    let key = Piece {
        from: text,
        behind: right_behind(text, behind)?,
    };
    let from = skip_ws(skip_ws(behind).strip_prefix('=')?);
    let behind = behind_value(alloc, from)?;
    Some(Pair {
        names,
        key,
        value: Piece { from, behind },
    })
}

/// The header at the front of a text.
pub(crate) fn read_header(alloc: Global, text: &str) -> Option<Header<'_>> {
    let (is_item, inner) = match text.strip_prefix("[[") {
        Some(inner) => (true, inner),
        None => (false, text.strip_prefix('[')?),
    };
    let (names, behind) = names(alloc, skip_ws(inner))?;
    let behind = skip_ws(behind).strip_prefix(if is_item { "]]" } else { "]" })?;
    Some(Header {
        names,
        is_item,
        whole: Piece { from: text, behind },
    })
}

/// The value at a place of the list at the front of a text.
pub(crate) fn read_item(alloc: Global, text: &str, place: usize) -> Option<Piece<'_>> {
    let mut from = skip_blank(text.strip_prefix('[')?, true);
    for _before in 0..place {
        let behind = skip_blank(behind_value(alloc, from)?, true);
        from = skip_blank(behind.strip_prefix(',')?, true);
    }
    let behind = behind_value(alloc, from)?;
    Some(Piece { from, behind })
}

/// The names of the key at the front of a text.
fn names(alloc: Global, text: &str) -> Option<(Vec<String>, &str)> {
    let (key, behind) = dotted_key(alloc, text).ok()?;
    let mut names = key.path;
    names.push(key.last).ok()?;
    Some((names, behind))
}

/// What stands right behind a key, where white space behind it has been passed over.
fn right_behind<'a>(text: &'a str, behind: &str) -> Option<&'a str> {
    let passed = text.get(..text.len().checked_sub(behind.len())?)?;
    text.get(passed.trim_end().len()..)
}

/// What stands behind the value at the front of a text.
fn behind_value(alloc: Global, text: &str) -> Option<&str> {
    let mut rest = text;
    let mut depth = 0usize;
    for _part in 0..text.len() {
        match first(rest) {
            b'[' | b'{' => depth = depth.saturating_add(1),
            b']' | b'}' => depth = depth.checked_sub(1)?,
            _ if depth == 0 => return behind_scalar(alloc, rest),
            _ => {}
        }
        rest = behind_part(alloc, rest)?;
        if depth == 0 {
            return Some(rest);
        }
        rest = skip_blank(rest, true);
    }
    None
}

/// What stands behind the value without parts at the front of a text.
fn behind_scalar(alloc: Global, text: &str) -> Option<&str> {
    if starts_string(text) {
        return Some(quoted(alloc, text).ok()?.1);
    }
    Some(unquoted(alloc, text).ok()?.1)
}

/// What stands behind a string, or else behind a byte: outside of strings and comments a document has none but those of ASCII.
fn behind_part(alloc: Global, text: &str) -> Option<&str> {
    if starts_string(text) {
        return Some(quoted(alloc, text).ok()?.1);
    }
    let byte = first(text);
    if 0 < byte && byte < 128 {
        Some(skip(text, 1))
    } else {
        None
    }
}
