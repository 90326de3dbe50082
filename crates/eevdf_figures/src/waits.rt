//! How long a task waits to be picked.

use std::alloc::{AllocError, Global};

/// A wait that has ended, in nanoseconds.
#[derive(Clone, Copy)]
pub(crate) struct Wait {
    /// When the task woke.
    woken: u64,
    length: u64,
}

/// The waits of a task, each from a wake to the next pick of it.
#[derive(Drop)]
pub(crate) struct Waits {
    /// In nanoseconds.
    pub lengths: Vec<u64>,
    /// When it woke before the first of the greatest of them.
    pub greatest_from: Option<u64>,
    greatest: u64,
    // when it woke, if it hasn't been picked since
    woken: Option<u64>,
}

impl Waits {
    pub(crate) fn new(alloc: Global) -> Waits {
        Waits {
            lengths: Vec::new(alloc),
            greatest_from: None,
            greatest: 0,
            woken: None,
        }
    }

    pub(crate) fn wake(&mut self, time: u64) {
        self.woken = Some(time);
    }

    /// Ends a wait with a pick at this time.
    pub(crate) fn end(&mut self, time: u64) -> Option<Wait> {
        let woken = self.woken?;
        self.woken = None;
        Some(Wait {
            woken,
            length: time.saturating_sub(woken),
        })
    }

    pub(crate) fn add(&mut self, wait: Option<Wait>) -> Result<(), AllocError> {
        let Some(Wait { woken, length }) = wait else {
            return Ok(());
        };
        if self.greatest_from.is_none() || length > self.greatest {
            self.greatest = length;
            self.greatest_from = Some(woken);
        }
        self.lengths.push(length)?;
        Ok(())
    }
}
