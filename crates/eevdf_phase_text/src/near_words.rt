//! Which of some known words is near to another word.

use crate::phase_fault::Key;
use eevdf_closed_loop::Group;
use std::alloc::{AllocError, Global};
use strsim::osa_distance;

/// A longer word is like none that is known.
const MOST_ALIKE: usize = 32;

/// The words that phases are written with.
const PHASE_WORDS: [&'static str; 9] = [
    "run", "sleep", "timer", "suspend", "resume", "yield", "nice", "loop", "end",
];

/// The one of some known words that is the fewest edits away from a word, if a third of the letters may differ.
#[derive(Clone, Copy)]
struct Nearest {
    /// The edits of the one that was found, or as many as it may have.
    edits: usize,
    /// Its place.
    found: Option<usize>,
}

impl Nearest {
    fn to(word: &str) -> Nearest {
        Nearest {
            edits: word.len().max(3) / 3,
            found: None,
        }
    }

    /// This one, or the known word at a place where that is nearer.
    fn or(
        self,
        alloc: Global,
        word: &str,
        known: &str,
        place: usize,
    ) -> Result<Nearest, AllocError> {
        if word.len() > MOST_ALIKE {
            return Ok(self);
        }
        let edits = osa_distance(alloc, word, known)?;
        if edits < self.edits || (edits == self.edits && self.found.is_none()) {
            return Ok(Nearest {
                edits,
                found: Some(place),
            });
        }
        Ok(self)
    }
}

/// The one of these keys that is nearest to a word, if one is near.
pub(crate) fn nearest_key(
    alloc: Global,
    word: &str,
    known: &[Key],
) -> Result<Option<Key>, AllocError> {
    let mut nearest = Nearest::to(word);
    for (place, key) in known.iter().enumerate() {
        nearest = nearest.or(alloc, word, key.name(), place)?;
    }
    let Some(place) = nearest.found else {
        return Ok(None);
    };
    Ok(known.get(place).copied())
}

/// The word of a phase that is nearest to a word, if one is near.
pub(crate) fn nearest_phase(alloc: Global, word: &str) -> Result<Option<&'static str>, AllocError> {
    let mut nearest = Nearest::to(word);
    for (place, known) in PHASE_WORDS.iter().enumerate() {
        nearest = nearest.or(alloc, word, known, place)?;
    }
    let Some(place) = nearest.found else {
        return Ok(None);
    };
    Ok(PHASE_WORDS.get(place).copied())
}

/// The name of a group that is nearest to a word, if one is near.
pub(crate) fn nearest_name(
    alloc: Global,
    word: &str,
    named: &[Group],
) -> Result<Option<String>, AllocError> {
    let mut nearest = Nearest::to(word);
    for (place, group) in named.iter().enumerate() {
        nearest = nearest.or(alloc, word, group.name.as_str(), place)?;
    }
    let Some(place) = nearest.found else {
        return Ok(None);
    };
    match named.get(place) {
        Some(group) => Ok(Some(group.name.clone()?)),
        None => Ok(None),
    }
}
