use super::calls::{Calls, Failure};
use super::pieces::{PieceSizes, Pieces};
use std::alloc::Global;
use std::io;
use std::io::Write;

/// Takes bytes in pieces, and fails as a test tells it to.
#[derive(Drop)]
pub struct PieceWriter {
    pub taken: Vec<u8>,
    pub writes: Calls,
    pub flushes: Calls,
    /// How many bytes were taken before the last flush.
    pub flushed: usize,
    sizes: PieceSizes,
}

impl PieceWriter {
    /// Has taken nothing.
    pub fn new(alloc: Global, pieces: Pieces, write: Failure, flush: Failure) -> PieceWriter {
        PieceWriter {
            taken: Vec::new(alloc),
            writes: Calls {
                count: 0,
                failure: write,
            },
            flushes: Calls {
                count: 0,
                failure: flush,
            },
            flushed: 0,
            sizes: PieceSizes::new(pieces),
        }
    }
}

impl Write for PieceWriter {
    fn write(&mut self, buf: &[u8]) -> io::Result<usize> {
        let call = self.writes.begin()?;
        let size = self.sizes.size(call, buf.len());
        self.taken.extend_from_slice(&buf[..size])?;
        Ok(size)
    }

    fn flush(&mut self) -> io::Result<()> {
        self.flushes.begin()?;
        self.flushed = self.taken.len();
        Ok(())
    }
}
