//! How the lock of a queue is taken, which the others hold for a microsecond or two.

use std::hint::spin_loop;
use std::sync::{Mutex, MutexGuard, Wait};

/// How often a lock that is held is tried before the thread sleeps. With the pauses that is some microseconds.
const TRIES: u32 = 32;

/// How many pauses come before each try. A try takes the lock's cache line from the thread that holds the lock.
const PAUSES: u32 = 4;

/// Takes a lock that was held a moment ago. The thread tries again for some microseconds before it sleeps, since to sleep and to be woken
/// takes both threads longer than that.
pub(super) fn lock_when_free<'a, T, R: Wait>(rt: &R, lock: &'a Mutex<T>) -> MutexGuard<'a, T> {
    for _ in 0..TRIES {
        for _ in 0..PAUSES {
            spin_loop();
        }
        if let Some(guard) = lock.try_lock() {
            return guard;
        }
    }
    lock.lock(rt)
}
