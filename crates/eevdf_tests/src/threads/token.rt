//! A token that goes round all CPUs.

use std::sync::atomic::{AtomicBool, AtomicUsize, Ordering};
use std::thread::yield_now;

/// So many times a thread looks at most whether the token has come.
const LOOKS: u64 = 10_000_000;

/// A token that the CPUs hand on in ascending order, round after round.
#[derive(Drop)]
pub struct Token {
    cpus: usize,
    /// How often it was handed on.
    steps: AtomicUsize,
    is_given_up: AtomicBool,
}

impl Token {
    pub fn new(cpus: usize) -> Token {
        Token {
            cpus,
            steps: AtomicUsize::new(0),
            is_given_up: AtomicBool::new(false),
        }
    }

    /// Waits for the token in a round from number 0 on, hands it on, and waits until all have handed it on. So all CPUs have to be in this
    /// call at the same time.
    pub fn go_round(&self, round: usize, cpu: usize) {
        let begun = round.saturating_mul(self.cpus);
        if self.await_steps(begun.saturating_add(cpu)) {
            self.steps.fetch_add(1, Ordering::SeqCst);
            self.await_steps(begun.saturating_add(self.cpus));
        }
    }

    /// Whether the token has gone so many rounds, and nobody has given up waiting for it.
    pub fn has_gone(&self, rounds: usize) -> bool {
        !self.is_given_up.load(Ordering::SeqCst)
            && self.steps.load(Ordering::SeqCst) == rounds.saturating_mul(self.cpus)
    }

    /// Looks until the token was handed on so often, and says whether it was.
    fn await_steps(&self, steps: usize) -> bool {
        for _look in 0..LOOKS {
            if self.steps.load(Ordering::SeqCst) >= steps {
                return true;
            }
            if self.is_given_up.load(Ordering::SeqCst) {
                return false;
            }
            yield_now();
        }
        self.is_given_up.store(true, Ordering::SeqCst);
        false
    }
}
