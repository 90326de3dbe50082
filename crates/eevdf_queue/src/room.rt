//! A block of memory that holds no value.

ghost use Rattle.std.specs.Prelude.{◌≡◌};
ghost use Rattle.std.specs.Vacant.{vacant};

use std::alloc::Allocator;
use std::marker::Model;

/// Memory for a value, which an allocator takes back.
///
/// A room isn't `Drop`, so a program that lets one go isn't accepted.
pub struct Room<T, A: Allocator> {
    pub(crate) at: *mut T,
    pub(crate) alloc: A,
}

impl<T, A: Allocator> Model for Room<T, A> {
    ghost also_owns = { λ r. vacant (A.dealloc_token r.alloc) T.row r.at };
}

impl<T: Drop, A: Allocator> Room<T, A> {
    /// A box of a value, in this memory.
    pub fn fill(self, value: T) -> Box<T, A>
        ensures { result.value ≡ value }
    {
        let Room { at, alloc } = self;
        unsafe {
            at.write(value);
            Box::from_raw(alloc, at)
        }
    }

    /// The memory of a box. Its value is forgotten, and not dropped.
    pub fn of(emptied: Box<T, A>) -> Room<T, A> {
        let (at, alloc) = Box::into_raw_with_allocator(emptied);
        Room { at, alloc }
    }
}
