//! The places of what stands at the end of a way.

ghost use Rattle.std.specs.Prelude.{◌≤◌, length, IfSome};

use crate::pieces::Piece;
use crate::ways::{Step, pieces_at};
use std::alloc::Global;
use std::ops::Range;

/// Which bytes of a text are what stands at the end of a way, and which its key is, from the first one to before the end. Of a header,
/// and of an item of a list, both are all of it.
#[derive(Drop)]
pub struct Found {
    pub key: Range<usize>,
    pub value: Range<usize>,
}

/// Where what stands at the end of a way through the document that a text is. It lies in the text. `None` of a way without a step, where
/// it isn't found, and where there is no memory.
pub fn find(alloc: Global, text: &str, way: &[Step]) -> Option<Found>
    ensures key { IfSome result (λ found. found.key.start ≤ found.key.end) }
    ensures key_within { IfSome result (λ found. found.key.end ≤ length text.now) }
    ensures value { IfSome result (λ found. found.value.start ≤ found.value.end) }
    ensures value_within { IfSome result (λ found. found.value.end ≤ length text.now) }
{
    if way.is_empty() {
        return None;
    }
    let pieces = pieces_at(alloc, text, way)?;
    Some(Found {
        key: place_of(text, pieces.key)?,
        value: place_of(text, pieces.value)?,
    })
}

/// Which bytes of a text a piece of it is.
fn place_of(text: &str, piece: Piece) -> Option<Range<usize>>
    ensures order { IfSome result (λ place. place.start ≤ place.end) }
    ensures within { IfSome result (λ place. place.end ≤ length text.now) }
{
    let start = text.len().checked_sub(piece.from.len())?;
    let end = text.len().checked_sub(piece.behind.len())?;
    if start <= end {
        Some(Range { start, end })
    } else {
        None
    }
}
