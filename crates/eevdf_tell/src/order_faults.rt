//! What is wrong with an order, and where.

use eevdf_steps::PlayFault;
use eevdf_workload::Key;
use std::fmt;

/// What is said of a place of an order, or of all of it.
#[derive(Clone, Copy)]
pub(crate) enum OrderReason {
    /// What is told without a number of the workload.
    Says(&'static str),
    /// A caller that is to take a lock that is held.
    Blocked { cpu: u64 },
    /// An order that ends before a caller is done.
    Short { caller: usize },
}

impl fmt::Display for OrderReason {
    fn fmt<W: fmt::Write>(&self, f: &mut fmt::Formatter<W>) -> fmt::Result {
        match *self {
            OrderReason::Says(text) => f.write_str(text),
            OrderReason::Blocked { cpu } => write!(
                f,
                "the next step of this caller takes the lock of CPU {cpu}, which another one holds"
            ),
            OrderReason::Short { caller } => write!(
                f,
                "the order ends before caller {caller} has done its program"
            ),
        }
    }
}

/// What is wrong with an order, and where. `None` of the fault of memory.
pub(crate) fn order_fault(fault: &PlayFault) -> Option<(Key, OrderReason)> {
    let (key, reason) = match *fault {
        PlayFault::NoCaller { at } => (
            Key::Order(at),
            OrderReason::Says(
                "there is no such caller; a caller is the number of a CPU of the workload",
            ),
        ),
        PlayFault::Done { at } => (
            Key::Order(at),
            OrderReason::Says("this caller has done its program before"),
        ),
        PlayFault::Blocked { at, cpu } => (Key::Order(at), OrderReason::Blocked { cpu: cpu.get() }),
        PlayFault::Short { caller } => (Key::Orders, OrderReason::Short { caller }),
        PlayFault::TooLong => (
            Key::Orders,
            OrderReason::Says("an order has at most 1000000 places"),
        ),
        PlayFault::Memory => return None,
    };
    Some((key, reason))
}
