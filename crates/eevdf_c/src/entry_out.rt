ghost use Rattle.std.specs.Prelude.{◌≡◌};

use eevdf_queue::Entry;
use std::mem::{align_of, size_of};

/// What is kept of a runnable task, as C sees it.
#[repr(C)]
#[derive(Clone, Copy)]
pub struct EntryOut {
    /// The virtual runtime.
    pub vruntime: i64,
    /// The virtual deadline.
    pub deadline: i64,
    /// The nice level, from -20 to 19.
    pub nice: i64,
    /// The length of each of its requests, in nanoseconds.
    pub slice_ns: u64,
}

impl EntryOut {
    /// An entry in numbers.
    pub fn of(entry: &Entry) -> EntryOut
        ensures vruntime { result.vruntime ≡ entry.now.v }
        ensures deadline { result.deadline ≡ entry.now.d }
        ensures nice { result.nice ≡ entry.now.nice }
        ensures slice { result.slice_ns ≡ entry.now.slice }
    {
        EntryOut {
            vruntime: entry.v,
            deadline: entry.d,
            nice: entry.nice.get(),
            slice_ns: entry.slice.get(),
        }
    }
}

// the bytes that the header for C gives an entry
const _: () = prove!(size_of::<EntryOut>() == 32 && align_of::<EntryOut>() == 8);
