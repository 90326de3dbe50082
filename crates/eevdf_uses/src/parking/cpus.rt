//! What the CPUs say of themselves before they wait for an interrupt.

use std::sync::Wait;
use std::sync::atomic::{AtomicU64, Ordering};
use std::thread::Parker;

/// It takes turns, and drains in each.
const AT_WORK: u64 = 0;

/// It waits, or is about to, while its task runs on.
const RUNS_ON: u64 = 1;

/// It waits, or is about to, and has nothing to run: its flag is up.
const IDLES: u64 = 2;

/// What the threads share of a CPU.
#[derive(Drop)]
pub struct WaitingCpu {
    said: AtomicU64,
    parker: Parker,
}

impl WaitingCpu {
    pub fn new() -> WaitingCpu {
        WaitingCpu {
            said: AtomicU64::new(AT_WORK),
            parker: Parker::new(),
        }
    }

    /// Says that the CPU will wait, and that it idles, or that its task runs on.
    pub fn say(&self, idles: bool) {
        let said = if idles { IDLES } else { RUNS_ON };
        self.said.store(said, Ordering::SeqCst);
    }

    /// Takes back that the CPU waits. Whoever does is to send it an interrupt, but for itself; `false` where somebody has.
    pub fn take_back(&self) -> bool {
        self.said.swap(AT_WORK, Ordering::SeqCst) != AT_WORK
    }

    /// Takes back that the CPU idles, if it does.
    pub fn take_flag_down(&self) -> bool {
        self.said
            .compare_exchange(IDLES, AT_WORK, Ordering::SeqCst, Ordering::SeqCst)
            .is_ok()
    }

    pub fn interrupt(&self) {
        self.parker.unpark();
    }

    /// Waits until an interrupt, which may have come before.
    pub fn wait<R: Wait>(&self, rt: &R) {
        self.parker.park(rt);
    }
}
