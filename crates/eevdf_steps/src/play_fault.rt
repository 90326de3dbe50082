use eevdf_ops::CpuId;
use std::alloc::AllocError;

/// What is wrong with an order. A place counts from 0.
#[derive(Clone, Copy, PartialEq, Eq, Debug)]
pub enum PlayFault {
    /// The order has more than 1000000 places.
    TooLong,
    /// Out of memory.
    Memory,
    /// There is no such caller.
    NoCaller { at: usize },
    /// The caller has done its program.
    Done { at: usize },
    /// The caller is to take a lock that is held.
    Blocked { at: usize, cpu: CpuId },
    /// The order ends before this caller is done, the least such.
    Short { caller: usize },
}

impl From<AllocError> for PlayFault {
    ghost use Rattle.std.specs.Prelude.{◌≡◌};
    ghost use Rattle.eevdf_steps.specs.declared.play_fault.PlayFault.TheVariants.{Memory};

    ghost from_gives = { λ _ fault. fault ≡ Memory };

    fn from(_out_of_memory: AllocError) -> PlayFault {
        PlayFault::Memory
    }
}
