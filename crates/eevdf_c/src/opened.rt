use eevdf_queue::Queue;
use std::alloc::Global;
use std::marker::Model;
use std::mem::{align_of, size_of};

/// An opened queue as it lies in the caller's memory: the queue, and the allocator of its tasks' nodes. That takes no bytes, and is
/// kept so that a call which admits a task needs none of its own. Contracts see the queue's state.
#[derive(Drop)]
pub struct Opened {
    pub(crate) queue: Queue,
    pub(crate) alloc: Global,
}

impl Model for Opened {
    ghost use Rattle.eevdf_queue.specs.{State.State, Codes.state_code};

    ghost Value = { State };

    ghost coded = { state_code };

    ghost view = { λ a. a.queue.state };
}

impl Opened {
    ghost use Rattle.std.specs.Prelude.{◌≡◌};
    ghost use Rattle.eevdf_queue.specs.State.{empty_state};

    /// A queue without tasks, at the virtual time 0. Takes no memory.
    pub fn open(alloc: Global) -> Opened
        ensures { result ≡ empty_state }
    {
        Opened {
            queue: Queue::open(),
            alloc,
        }
    }
}

// the bytes that the header for C gives a queue
const _: () = prove!(size_of::<Opened>() == 24688 && align_of::<Opened>() == 16);
