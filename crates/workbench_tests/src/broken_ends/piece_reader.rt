use super::calls::{Calls, Failure};
use super::pieces::{PieceSizes, Pieces};
use std::io;
use std::io::Read;

/// Gives bytes in pieces, and fails as a test tells it to.
#[derive(Drop)]
pub struct PieceReader<'a> {
    pub rest: &'a [u8],
    pub reads: Calls,
    sizes: PieceSizes,
}

impl<'a> PieceReader<'a> {
    /// Gives these bytes, and then the end.
    pub fn new(bytes: &'a [u8], pieces: Pieces, failure: Failure) -> PieceReader<'a> {
        PieceReader {
            rest: bytes,
            reads: Calls { count: 0, failure },
            sizes: PieceSizes::new(pieces),
        }
    }
}

impl Read for PieceReader<'_> {
    fn read(&mut self, buf: &mut [u8]) -> io::Result<usize> {
        let call = self.reads.begin()?;
        let size = self.sizes.size(call, buf.len());
        self.rest.read(&mut buf[..size])
    }
}
