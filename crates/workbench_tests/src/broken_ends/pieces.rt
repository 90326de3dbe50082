//! How many bytes an end moves a call.

ghost use Rattle.std.specs.Prelude.{◌≤◌};

use drawn_values::Draws;

/// Each call moves as many bytes as a buffer has room for.
pub const ALL: Pieces = Pieces::Listed(&[usize::MAX]);

/// Each call moves one byte.
pub const SINGLE_BYTES: Pieces = Pieces::Listed(&[1]);

/// How many bytes a call moves at most.
#[derive(Clone, Copy)]
pub enum Pieces {
    /// So many, call by call. The last number is that of all calls after it.
    Listed(&'static [usize]),
    /// 1 to 16, drawn from this seed.
    Drawn(u64),
}

/// The pieces of an end, one after the other.
#[derive(Drop)]
pub struct PieceSizes {
    pieces: Pieces,
    draws: Draws,
}

impl PieceSizes {
    pub fn new(pieces: Pieces) -> PieceSizes {
        let seed = match pieces {
            Pieces::Listed(_) => 0,
            Pieces::Drawn(seed) => seed,
        };
        PieceSizes {
            pieces,
            draws: Draws::new(seed, 0),
        }
    }

    /// How many of the bytes for which there is room the call of this number moves.
    pub fn size(&mut self, call: usize, room: usize) -> usize
        ensures { result ≤ room }
    {
        let most = match self.pieces {
            Pieces::Listed(sizes) => size_of_call(sizes, call),
            Pieces::Drawn(_) => 1 + self.draws.below(16) as usize,
        };
        most.min(room)
    }
}

fn size_of_call(sizes: &[usize], call: usize) -> usize {
    match sizes.get(call) {
        Some(size) => *size,
        None => sizes.last().copied().unwrap_or(0),
    }
}
