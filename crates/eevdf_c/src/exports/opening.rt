//! How a queue is opened and closed.

ghost use Rattle.std.specs.Borrow.{sem};
ghost use Rattle.eevdf_queue.specs.State.{State, empty_state};
ghost use Rattle.eevdf_c.specs.Leaving.{IsEmptied, closed};
ghost use Rattle.eevdf_c.specs.Memory.{queue_at, room_for_queue};

use crate::calls;
use crate::opened::Opened;
use std::alloc::Global;

/// Opens a queue in memory of the caller's: it has no tasks, and is at the virtual time 0. Takes no memory.
#[unsafe(no_mangle)]
pub unsafe extern "C" fn eevdf_open(alloc: Global, queue: *mut u8)
    requires* { sem 𝓛 (room_for_queue queue) }
    ensures* { sem 𝓛 (queue_at queue empty_state) }
{
    (queue as *mut Opened).write(Opened::open(alloc));
}

/// Ends each task that is here, in ascending number, and gives its memory back. The queue is then empty, at the virtual time that the
/// last of them has left.
#[unsafe(no_mangle)]
pub unsafe extern "C" fn eevdf_close(queue: *mut u8)
    ghost q: { State }
    requires* { sem 𝓛 (queue_at queue q) }
    ensures* after { sem 𝓛 (queue_at queue (closed q)) }
    ensures emptied { IsEmptied (closed q) }
{
    calls::closing::close(&mut *(queue as *mut Opened))
}
