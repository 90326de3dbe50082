//! An explanation as text: the file and the place, what is wrong, the line of the workload, and a mark below it.

use eevdf_bench::told_name;
use eevdf_explain::{Explanation, Mark, begins_character};
use std::alloc::{AllocError, Global};

/// So many characters of a line are shown at most, and so many of them before the mark.
const MOST_SHOWN: usize = 100;

const MOST_BEFORE: usize = 60;

/// What an explanation says of these bytes, in lines: `line 14, column 12: `, where it has a place, and what is wrong; and then that line and
/// a mark below the word. Of a file it begins with its name, `FILE:14:12: ` where it has a place. Without a message the place stands alone, as
/// `line 14, column 12:`. Of a long line a part is shown, and of what a terminal wouldn't print a space.
pub fn explanation_text(
    alloc: Global,
    explanation: &Explanation,
    file: Option<&str>,
    bytes: &[u8],
) -> Result<String, AllocError> {
    let mut text = first_line(alloc, explanation, file)?;
    if let Some(mark) = explanation.mark {
        if let Some(shown) = line_at(bytes, mark.place.start) {
            push_line(alloc, &mut text, shown, mark)?;
            push_mark(alloc, &mut text, marked_length(bytes, mark), mark)?;
        }
    }
    Ok(text)
}

fn first_line(
    alloc: Global,
    explanation: &Explanation,
    file: Option<&str>,
) -> Result<String, AllocError> {
    let message = explanation.message.as_str();
    let space = if message.is_empty() { "" } else { " " };
    match (file, explanation.mark) {
        (None, None) => format!(in alloc; "{message}\n"),
        (None, Some(mark)) => {
            let (line, column) = (mark.line, mark.column);
            format!(in alloc; "line {line}, column {column}:{space}{message}\n")
        }
        (Some(file), None) => {
            let name = told_name(alloc, file)?;
            format!(in alloc; "{name}: {message}\n")
        }
        (Some(file), Some(mark)) => {
            let name = told_name(alloc, file)?;
            let (line, column) = (mark.line, mark.column);
            format!(in alloc; "{name}:{line}:{column}:{space}{message}\n")
        }
    }
}

/// The line in which a byte stands, or `None` where it isn't UTF-8.
fn line_at(bytes: &[u8], place: usize) -> Option<&str> {
    let before = bytes.get(..place)?;
    let start = match before.iter().rposition(|byte| *byte == b'\n') {
        Some(newline) => newline.saturating_add(1),
        None => 0,
    };
    let behind = bytes.get(start..)?;
    let line = match behind.iter().position(|byte| *byte == b'\n') {
        Some(end) => behind.get(..end)?,
        None => behind,
    };
    std::str::from_utf8(line).ok()
}

/// The first character that is shown, from 0 on.
fn first_shown(mark: Mark) -> usize {
    mark.column.saturating_sub(MOST_BEFORE)
}

fn push_line(alloc: Global, text: &mut String, line: &str, mark: Mark) -> Result<(), AllocError> {
    let number = mark.line;
    text.push_str(format!(in alloc; "{number} | ")?.as_str())?;
    let first = first_shown(mark);
    let mut count = 0usize;
    for character in line.chars() {
        if count >= first && count < first.saturating_add(MOST_SHOWN) {
            let is_shown = !character.is_control();
            text.push(if is_shown { character } else { ' ' })?;
        }
        count = count.saturating_add(1);
    }
    text.push('\n')
}

/// The mark, below the line.
fn push_mark(
    alloc: Global,
    text: &mut String,
    length: usize,
    mark: Mark,
) -> Result<(), AllocError> {
    let number = format!(in alloc; "{}", mark.line)?;
    let before = mark
        .column
        .saturating_sub(1)
        .saturating_sub(first_shown(mark));
    push_times(text, ' ', number.len())?;
    text.push_str(" | ")?;
    push_times(text, ' ', before)?;
    push_times(
        text,
        '^',
        length.min(MOST_SHOWN.saturating_sub(before)).max(1),
    )?;
    text.push('\n')
}

fn push_times(text: &mut String, character: char, times: usize) -> Result<(), AllocError> {
    for _time in 0..times {
        text.push(character)?;
    }
    Ok(())
}

/// How many characters of the first line of a place there are.
fn marked_length(bytes: &[u8], mark: Mark) -> usize {
    let mut length = 0usize;
    if let Some(word) = bytes.get(mark.place.start..mark.place.end) {
        for byte in word {
            if *byte == b'\n' {
                return length;
            }
            if begins_character(*byte) {
                length = length.saturating_add(1);
            }
        }
    }
    length
}
