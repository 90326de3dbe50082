//! That a queue, a hand, bounds and shares may lie elsewhere from one call to the next.
//!
//! Nobody calls these: C copies the bytes itself. Their contracts say what C may rely on then. The bytes alone tell the queue, wherever
//! they lie, so nothing that the library keeps leads back to where they lay; and where they lay is room of the caller's again.

ghost use Rattle.std.specs.Prelude.{Option};
ghost use Rattle.std.specs.Borrow.{sem};
ghost use Rattle.eevdf_queue.specs.State.{State, Contents};
ghost use Rattle.eevdf_fair_queue.specs.declared.bounds.Bounds.{Bounds};
ghost use Rattle.eevdf_fair_queue.specs.Beside.{SharesView};
ghost use Rattle.eevdf_c.specs.Memory.{bounds_at, hand_at, queue_at, room_for_bounds, room_for_hand, room_for_queue, room_for_shares, shares_at};

use crate::fair_bounds::FairBounds;
use crate::fair_shares::FairShares;
use crate::hand::Hand;
use crate::opened::Opened;

/// Copies a queue's bytes to another place, where it is the same queue.
pub unsafe fn move_queue(from: *mut u8, to: *mut u8)
    ghost q: { State }
    requires* here { sem 𝓛 (queue_at from q) }
    requires* there { sem 𝓛 (room_for_queue to) }
    ensures* moved { sem 𝓛 (queue_at to q) }
    ensures* left { sem 𝓛 (room_for_queue from) }
{
    (to as *mut Opened).write((from as *mut Opened).read());
}

/// Copies a hand's bytes to another place, where it is the same hand.
pub unsafe fn move_hand(from: *mut u8, to: *mut u8)
    ghost h: { Option Contents }
    requires* here { sem 𝓛 (hand_at from h) }
    requires* there { sem 𝓛 (room_for_hand to) }
    ensures* moved { sem 𝓛 (hand_at to h) }
    ensures* left { sem 𝓛 (room_for_hand from) }
{
    (to as *mut Hand).write((from as *mut Hand).read());
}

/// Copies the bytes of bounds to another place, where they are the same bounds.
pub unsafe fn move_bounds(from: *mut u8, to: *mut u8)
    ghost b: { Bounds }
    requires* here { sem 𝓛 (bounds_at from b) }
    requires* there { sem 𝓛 (room_for_bounds to) }
    ensures* moved { sem 𝓛 (bounds_at to b) }
    ensures* left { sem 𝓛 (room_for_bounds from) }
{
    (to as *mut FairBounds).write((from as *mut FairBounds).read());
}

/// Copies the bytes of shares to another place, where they are the same shares.
pub unsafe fn move_shares(from: *mut u8, to: *mut u8)
    ghost s: { SharesView }
    requires* here { sem 𝓛 (shares_at from s) }
    requires* there { sem 𝓛 (room_for_shares to) }
    ensures* moved { sem 𝓛 (shares_at to s) }
    ensures* left { sem 𝓛 (room_for_shares from) }
{
    (to as *mut FairShares).write((from as *mut FairShares).read());
}
