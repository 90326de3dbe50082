use std::alloc::AllocError;

/// Why programs couldn't be run.
#[derive(Clone, Copy, PartialEq, Eq, Debug, Drop)]
pub enum RunFault {
    /// Out of memory.
    Memory,
    /// A thread couldn't be started. The threads that had started have ended.
    Start,
}

impl From<AllocError> for RunFault {
    ghost use Rattle.std.specs.Prelude.{◌≡◌};
    ghost use Rattle.eevdf_fleet.specs.declared.run_fault.RunFault.TheVariants.{Memory};

    ghost from_gives = { λ _ fault. fault ≡ Memory };

    fn from(_refused: AllocError) -> RunFault {
        RunFault::Memory
    }
}
