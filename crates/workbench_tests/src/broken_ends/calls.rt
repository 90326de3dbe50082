//! The calls of one kind at an end: they are counted, and fail as a test tells them to.

use std::io;
use std::io::ErrorKind;

/// Which calls fail. The first one has the number 0.
#[derive(Clone, Copy)]
pub enum Failing {
    Never,
    /// This call and each one after it.
    From(usize),
    /// This call alone.
    Once(usize),
}

impl Failing {
    fn includes(self, call: usize) -> bool {
        match self {
            Failing::Never => false,
            Failing::From(first) => first <= call,
            Failing::Once(only) => only == call,
        }
    }
}

/// Which calls fail, and by which error.
#[derive(Clone, Copy)]
pub struct Failure {
    pub failing: Failing,
    pub kind: ErrorKind,
}

/// No call fails.
pub const NO_FAILURE: Failure = Failure {
    failing: Failing::Never,
    kind: ErrorKind::BrokenPipe,
};

/// How many calls there were, and which of them fail.
#[derive(Drop)]
pub struct Calls {
    pub count: usize,
    pub failure: Failure,
}

impl Calls {
    /// Counts a call, and gives its number, or the error by which it fails.
    pub fn begin(&mut self) -> io::Result<usize> {
        let call = self.count;
        self.count = call.saturating_add(1);
        if self.failure.failing.includes(call) {
            return Err(io::Error::from(self.failure.kind));
        }
        Ok(call)
    }
}
