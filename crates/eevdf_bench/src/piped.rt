use std::io;
use std::io::{ErrorKind, Write};

/// A writer that remembers whether a call failed since nobody reads any more at the other end of its pipe.
#[derive(Drop)]
pub struct Piped<W> {
    writer: W,
    is_unread: bool,
}

impl<W> Piped<W> {
    ghost use Rattle.std.specs.Prelude.{◌≡◌, false};

    /// A writer none of whose calls has failed yet.
    pub fn new(writer: W) -> Self
        ensures writer { result.writer ≡ writer }
        ensures fresh { result.is_unread ≡ false }
    {
        Piped {
            writer,
            is_unread: false,
        }
    }

    /// Whether the last call failed since nobody reads any more.
    pub fn is_unread(&self) -> bool
        ensures { result ≡ self.now.is_unread }
    {
        let Piped {
            writer: _,
            is_unread,
        } = self;
        *is_unread
    }
}

impl<W: Write> Write for Piped<W> {
    ghost contents = { λ p. W.contents p.writer };

    fn write(&mut self, buf: &[u8]) -> io::Result<usize> {
        let result = self.writer.write(buf);
        self.is_unread = is_broken_pipe(&result);
        result
    }

    fn flush(&mut self) -> io::Result<()> {
        let result = self.writer.flush();
        self.is_unread = is_broken_pipe(&result);
        result
    }
}

fn is_broken_pipe<T>(answer: &io::Result<T>) -> bool {
    match answer {
        Ok(_) => false,
        Err(error) => error.kind() == ErrorKind::BrokenPipe,
    }
}
