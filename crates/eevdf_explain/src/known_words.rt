//! The words that operations begin with: which are known in a version, in programs and in scripts, and which is near to another word.

use crate::signatures::{SIGNATURES, Signature};
use eevdf_workload::Version;
use std::alloc::{AllocError, Global};
use std::fmt;
use strsim::osa_distance;

/// A longer word is like none that is known.
const MOST_ALIKE: usize = 32;

/// The words that operations may begin with in a version: in a program, or in a script.
#[derive(Clone, Copy)]
pub(crate) struct KnownWords {
    pub(crate) version: Version,
    pub(crate) in_program: bool,
}

impl KnownWords {
    fn has(self, signature: &Signature) -> bool {
        signature.is_known(self.version) && signature.stands(self.in_program)
    }

    /// The one that is nearest to a word, if one is near.
    pub(crate) fn nearest(
        self,
        alloc: Global,
        word: &str,
    ) -> Result<Option<&'static str>, AllocError> {
        let mut nearest = Nearest::to(word);
        for signature in SIGNATURES.iter() {
            if self.has(signature) {
                nearest = nearest.or(alloc, word, signature.word())?;
            }
        }
        Ok(nearest.found)
    }
}

/// The words with commas between them.
impl fmt::Display for KnownWords {
    fn fmt<W: fmt::Write>(&self, f: &mut fmt::Formatter<W>) -> fmt::Result {
        let mut is_first = true;
        for signature in SIGNATURES.iter() {
            if self.has(signature) {
                if !is_first {
                    f.write_str(", ")?;
                }
                f.write_str(signature.word())?;
                is_first = false;
            }
        }
        Ok(())
    }
}

/// The one of some known words that is the fewest edits away from a word, if a third of the letters may differ.
#[derive(Clone, Copy)]
struct Nearest {
    /// The edits of the one that was found, or as many as it may have.
    edits: usize,
    found: Option<&'static str>,
}

impl Nearest {
    fn to(word: &str) -> Nearest {
        Nearest {
            edits: word.len().max(3) / 3,
            found: None,
        }
    }

    /// This one, or another known word where that is nearer. In capitals it is still the word.
    fn or(self, alloc: Global, word: &str, known: &'static str) -> Result<Nearest, AllocError> {
        if word.len() > MOST_ALIKE {
            return Ok(self);
        }
        let edits = if word.eq_ignore_ascii_case(known) {
            0
        } else {
            osa_distance(alloc, word, known)?
        };
        if edits < self.edits || (edits == self.edits && self.found.is_none()) {
            return Ok(Nearest {
                edits,
                found: Some(known),
            });
        }
        Ok(self)
    }
}

/// The one of these names that is nearest to a word, if one is near.
pub(crate) fn nearest_name(
    alloc: Global,
    word: &str,
    names: &[&'static str],
) -> Result<Option<&'static str>, AllocError> {
    let mut nearest = Nearest::to(word);
    for name in names.iter() {
        nearest = nearest.or(alloc, word, *name)?;
    }
    Ok(nearest.found)
}
