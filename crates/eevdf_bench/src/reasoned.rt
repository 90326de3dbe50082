use std::io;
use std::io::Read;

/// A reader that remembers why its last call failed.
#[derive(Drop)]
pub struct Reasoned<R> {
    reader: R,
    reason: Option<io::Error>,
}

impl<R> Reasoned<R> {
    ghost use Rattle.std.specs.Prelude.{◌≡◌, None};

    /// A reader none of whose calls has failed yet.
    pub fn new(reader: R) -> Self
        ensures reader { result.reader ≡ reader }
        ensures fresh { result.reason ≡ None }
    {
        Reasoned {
            reader,
            reason: None,
        }
    }

    /// Why the last call failed, if it did.
    pub fn reason(&self) -> Option<io::Error>
        ensures { result ≡ self.now.reason }
    {
        let Reasoned { reader: _, reason } = self;
        *reason
    }
}

impl<R: Read> Read for Reasoned<R> {
    ghost remaining = { λ r. R.remaining r.reader };

    fn read(&mut self, buf: &mut [u8]) -> io::Result<usize> {
        let result = self.reader.read(buf);
        self.reason = match &result {
            Ok(_) => None,
            Err(error) => Some(*error),
        };
        result
    }
}
