//! A pointer of the caller's to a block of memory, or null.

ghost use Rattle.std.specs.Prelude.{◌≡◌, is_some, true, false};
ghost use Rattle.eevdf_queue.specs.Spare.{is_block, spare};

use crate::room::Room;
use std::alloc::Global;
use std::marker::Model;
use std::ptr::null_mut;

/// A pointer to memory for a value, which it owns, or null.
///
/// A spot isn't `Drop`, as a room isn't.
#[repr(C)]
pub struct Spot<T> {
    at: *mut T,
}

impl<T> Model for Spot<T> {
    ghost also_owns = { λ s. spare T.row s.at };
}

impl<T> Spot<T> {
    /// Null.
    pub fn none() -> Spot<T>
        ensures { is_block result.at ≡ false }
    {
        Spot { at: null_mut() }
    }

    /// The memory of a room.
    pub fn of(room: Room<T, Global>) -> Spot<T>
        ensures { is_block result.at ≡ true }
    {
        let Room { at, alloc: _ } = room;
        Spot { at }
    }

    /// Lets null go.
    pub fn leave(self)
        requires { is_block self.at ≡ false }
    {
        let Spot { at: _ } = self;
    }

    /// The memory as a room of the allocator. `None` where the pointer is null.
    pub fn into_room(self, alloc: Global) -> Option<Room<T, Global>>
        ensures { is_some result ≡ is_block self.at }
    {
        let Spot { at } = self;
        if at.is_null() {
            None
        } else {
            Some(Room { at, alloc })
        }
    }
}
