//! Words of a text, and how a word is told.

use std::alloc::{AllocError, Global};
use std::fmt;

/// A word is told up to so many characters.
const MOST_TOLD: usize = 40;

/// The word with this index, with the place of its first byte; behind the last word an empty one at the end of the text.
/// Single spaces part words.
pub(crate) fn word_at(text: &str, index: usize) -> (usize, &str) {
    let mut start = 0usize;
    let mut count = 0usize;
    for word in text.split(' ') {
        if count == index {
            return (start, word);
        }
        count = count.saturating_add(1);
        start = start.saturating_add(word.len()).saturating_add(1);
    }
    (text.len(), "")
}

/// The beginning of a word, which is all of most.
pub(crate) fn shortened(word: &str) -> &str {
    match word.char_indices().nth(MOST_TOLD) {
        Some((end, _)) => word.get(..end).unwrap_or(word),
        None => word,
    }
}

/// A word between quotes, with what a terminal wouldn't print written as an escape; or what says that there is none.
#[derive(Clone, Copy)]
pub(crate) struct Told<'a>(pub(crate) &'a str);

impl<'a> fmt::Display for Told<'a> {
    fn fmt<W: fmt::Write>(&self, f: &mut fmt::Formatter<W>) -> fmt::Result {
        let Told(word) = *self;
        let told = shortened(word);
        if word.is_empty() {
            f.write_str("the end")
        } else if told.len() < word.len() {
            write!(f, "{told:?}..")
        } else {
            write!(f, "{told:?}")
        }
    }
}

/// A word as it is told of, as a text.
pub fn told_word(alloc: Global, word: &str) -> Result<String, AllocError> {
    Told(word).to_string(alloc)
}

/// Whether a word is made of digits.
pub(crate) fn is_of_digits(word: &str) -> bool {
    !word.is_empty() && word.bytes().all(|byte| byte.is_ascii_digit())
}
