//! The words of a line, and where they stand in it.

/// A word of a line.
#[derive(Clone, Copy)]
pub(crate) struct Word<'a> {
    pub text: &'a str,
    /// So many bytes of the line stand before it.
    pub start: usize,
}

/// Whether a character stands between words.
fn is_blank(character: char) -> bool {
    character == ' ' || character == '\t'
}

/// A text without the blanks in front of it.
pub(crate) fn without_blanks(text: &str) -> &str {
    text.trim_start_matches(|character: char| is_blank(character))
}

/// A text without the blanks at its end.
pub(crate) fn without_blanks_behind(text: &str) -> &str {
    text.trim_end_matches(|character: char| is_blank(character))
}

/// The next word of a line, of which so much is left, and what is left behind it.
pub(crate) fn next_word<'a>(line: &'a str, left: &'a str) -> Option<(Word<'a>, &'a str)> {
    let from = without_blanks(left);
    if from.is_empty() {
        return None;
    }
    let (text, behind) = match from.split_once(|character: char| is_blank(character)) {
        Some((text, behind)) => (text, behind),
        None => (from, ""),
    };
    let start = line.len().saturating_sub(from.len());
    Some((Word { text, start }, behind))
}
