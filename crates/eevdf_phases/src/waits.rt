//! How long a task waits.

ghost use Rattle.std.specs.Prelude.{◌≡◌, ◌≤◌, ◌<◌, ◌+◌, ◌/◌, ◌^◌, max};

use std::alloc::{AllocError, Global};

/// In each doubling so many lengths are told apart.
const STEPS: u64 = 32;

/// There are so many doublings of `2 * STEPS`: a machine is driven for less than 2^52 ns.
const DOUBLINGS: u64 = 46;

/// So many lengths are told apart.
const LENGTHS: usize = ((DOUBLINGS + 2) * STEPS) as usize;

/// The waits of a task, in nanoseconds.
#[derive(Drop)]
pub(crate) struct Waits {
    /// How many there were.
    pub number: u64,
    pub longest: u64,
    /// How long all of them were.
    sum: u64,
    /// How many there were by length, where lengths of a step are taken together.
    by_length: Vec<u64>,
}

impl Waits {
    /// None so far.
    pub fn none(alloc: Global) -> Result<Waits, AllocError> {
        let mut by_length = Vec::with_capacity(alloc, LENGTHS)?;
        for _length in 0..LENGTHS {
            by_length.push(0)?;
        }
        Ok(Waits {
            number: 0,
            longest: 0,
            sum: 0,
            by_length,
        })
    }

    /// One more has come to its end.
    pub fn add(&mut self, wait: u64)
        ensures number { self.old.number + 1 < 2 ^ 64 → self.new.number ≡ self.old.number + 1 }
        ensures sum { self.old.sum + wait < 2 ^ 64 → self.new.sum ≡ self.old.sum + wait }
        ensures longest { self.new.longest ≡ max self.old.longest wait }
    {
        self.number = self.number.saturating_add(1);
        self.sum = self.sum.saturating_add(wait);
        self.longest = self.longest.max(wait);
        if let Some(count) = self.by_length.get_mut(step_of(wait)) {
            *count = count.saturating_add(1);
        }
    }

    /// Their mean, rounded down.
    pub fn mean(&self) -> u64
        ensures { 1 ≤ self.now.number → result ≡ self.now.sum / self.now.number }
    {
        self.sum.checked_div(self.number).unwrap_or(0)
    }

    /// What 99 of 100 don't pass: the last length of the step in which the last of them is, or the longest, where that is less.
    pub fn most_of_99(&self) -> u64
        ensures { result ≤ self.now.longest }
    {
        let over = self.number / 100;
        let mut left = self.number.saturating_sub(over);
        for (step, count) in self.by_length.iter().enumerate() {
            if left <= *count {
                return last_of(step).min(self.longest);
            }
            left = left.saturating_sub(*count);
        }
        self.longest
    }
}

/// The step of a length: below 64 each has its own, and from there on its first six binary digits tell.
fn step_of(length: u64) -> usize {
    let mut digits = length;
    for doublings in 0..DOUBLINGS + 1 {
        if digits < 2 * STEPS {
            return (digits + doublings * STEPS) as usize;
        }
        digits /= 2;
    }
    LENGTHS
}

/// The last length of a step.
fn last_of(step: usize) -> u64 {
    let step = step as u64;
    let doublings = (step / STEPS).saturating_sub(1);
    let mut behind = step
        .saturating_sub(doublings.saturating_mul(STEPS))
        .saturating_add(1);
    for _doubling in 0..doublings {
        behind = behind.saturating_mul(2);
    }
    behind.saturating_sub(1)
}
