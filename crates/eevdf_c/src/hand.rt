use eevdf_queue::Parcel;
use std::alloc::Global;
use std::marker::Model;
use std::mem::{align_of, size_of};

/// A task on its way between two queues, or nothing, as it lies in the caller's memory, and the allocator of its node. That takes no
/// bytes, and is kept so that a call which gives the node's memory to the caller needs none of its own. Contracts see the task.
///
/// A hand isn't `Drop`, as a parcel isn't: a task in it goes into a queue or ends.
pub struct Hand {
    pub(crate) parcel: Option<Parcel>,
    pub(crate) alloc: Global,
}

impl Model for Hand {
    ghost use Rattle.std.specs.Prelude.{Option};
    ghost use Rattle.eevdf_queue.specs.State.{Contents};

    ghost Value = { Option Contents };

    ghost view = { λ a. a.parcel };
}

impl Hand {
    ghost use Rattle.std.specs.Prelude.{◌≡◌, Some, None};

    /// An empty hand. Takes no memory.
    pub fn open(alloc: Global) -> Hand
        ensures { result ≡ None }
    {
        Hand {
            parcel: None,
            alloc,
        }
    }
    /// Puts a task into the hand. One that it held ends.
    pub fn fill(&mut self, parcel: Parcel)
        ensures { self.new ≡ Some parcel }
    {
        if let Some(other) = self.parcel.replace(parcel) {
            other.retire();
        }
    }

    /// Ends the task that the hand holds, if any.
    pub fn close(&mut self)
        ensures { self.new ≡ None }
    {
        if let Some(parcel) = self.parcel.take() {
            parcel.retire();
        }
    }
}

// the bytes that the header for C gives a hand, which it aligns to 16
const _: () = prove!(size_of::<Hand>() == 16 && align_of::<Hand>() == 8);
