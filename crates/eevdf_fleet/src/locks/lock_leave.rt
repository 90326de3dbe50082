ghost use Rattle.std.specs.Prelude.{◌≡◌};

use crate::names::Names;
use crate::seat_parts::SeatParts;
use std::marker::PhantomData;

/// A seat's leave to hold locks, which is lent for as long as they are held. It has no bytes.
#[derive(Drop)]
pub(crate) struct LockLeave {
    alone: PhantomData<()>,
}

impl LockLeave {
    /// The leave of the seat that is put together of these parts. It takes them by value and gives them back: an operation has the parts
    /// of its seat by reference alone, so none can make itself a second leave.
    pub(crate) fn beside<N: Names>(parts: SeatParts<N>) -> (SeatParts<N>, LockLeave)
        ensures { result.0 ≡ parts }
    {
        (parts, LockLeave { alone: PhantomData })
    }

    /// The leave to take the journal's lock for as long as this one is lent for.
    #[inline(always)]
    pub(super) fn with_queues(&mut self) -> JournalLeave<'_> {
        JournalLeave { held: PhantomData }
    }
}

/// The leave to take the journal's lock, which comes with the locks of queues and lasts no longer than the seat's leave is lent. It is
/// lent for as long as the journal's lock is held. It has no bytes.
#[derive(Drop)]
pub(crate) struct JournalLeave<'a> {
    held: PhantomData<&'a ()>,
}
