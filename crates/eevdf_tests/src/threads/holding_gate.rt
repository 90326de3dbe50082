//! A gate that holds threads until others have come to a place.

use super::gate_call::{GateCall, Passing, PassingGate};
use std::hint::spin_loop;
use std::sync::atomic::{AtomicBool, Ordering};

/// So many turns a thread is held at most.
const TURNS: u64 = 100_000_000;

/// A call that is held until another one is made.
#[derive(Drop)]
struct Hold {
    held: GateCall,
    awaited: GateCall,
    is_made: AtomicBool,
    is_given_up: AtomicBool,
}

impl Hold {
    fn new(held: GateCall, awaited: GateCall) -> Hold {
        Hold {
            held,
            awaited,
            is_made: AtomicBool::new(false),
            is_given_up: AtomicBool::new(false),
        }
    }

    fn see(&self, call: GateCall) {
        if call == self.awaited {
            self.is_made.store(true, Ordering::SeqCst);
        }
    }

    fn hold(&self, call: GateCall) {
        if call == self.held && !self.turn_until_made() {
            self.is_given_up.store(true, Ordering::SeqCst);
        }
    }

    /// Turns until the awaited call is made, and says whether it was.
    fn turn_until_made(&self) -> bool {
        for _turn in 0..TURNS {
            if self.is_made.load(Ordering::SeqCst) {
                return true;
            }
            spin_loop();
        }
        false
    }
}

/// Two calls that are held, each until another one is made.
#[derive(Drop)]
pub struct Holding {
    holds: [Hold; 2],
}

impl Holding {
    /// A gate that holds the first of each pair of calls until the second is made.
    pub fn gate(first: (GateCall, GateCall), second: (GateCall, GateCall)) -> PassingGate<Holding> {
        PassingGate {
            passing: Holding {
                holds: [Hold::new(first.0, first.1), Hold::new(second.0, second.1)],
            },
        }
    }

    /// Whether a call was held for all of its turns and what it waited for didn't come.
    pub fn has_given_up(&self) -> bool {
        self.holds
            .iter()
            .any(|hold| hold.is_given_up.load(Ordering::SeqCst))
    }
}

impl Passing for Holding {
    fn pass(&self, call: GateCall) {
        for hold in &self.holds {
            hold.see(call);
        }
        for hold in &self.holds {
            hold.hold(call);
        }
    }
}
