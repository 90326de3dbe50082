ghost use Rattle.std.specs.Prelude.{◌≡◌};
ghost use Rattle.eevdf_bench.specs.declared.workbench_fault.BenchFault.TheVariants.{Memory};
ghost use Rattle.eevdf_bench.specs.Runs.{play_refusal, run_refusal};

use eevdf_fleet::RunFault;
use eevdf_steps::PlayFault;
use eevdf_workload::LoadFault;
use std::alloc::AllocError;
use thiserror::Error;

/// Why a run of the workbench failed.
#[derive(Clone, Copy, PartialEq, Eq, Debug, Error)]
pub enum BenchFault {
    /// The workload is refused, or lacks the part that the command needs.
    #[error(transparent)]
    Load(LoadFault),
    /// The order can't be played.
    #[error(transparent)]
    Play(PlayFault),
    /// The programs couldn't be run by threads.
    #[error(transparent)]
    Run(RunFault),
    /// The reader failed.
    #[error("reading")]
    Read,
    /// The writer failed.
    #[error("writing")]
    Write,
    /// Out of memory.
    #[error("memory")]
    Memory,
}

impl From<AllocError> for BenchFault {
    ghost from_gives = { λ _ fault. fault ≡ Memory };

    fn from(_error: AllocError) -> BenchFault {
        BenchFault::Memory
    }
}

impl From<PlayFault> for BenchFault {
    ghost from_gives = { λ refused fault. fault ≡ play_refusal refused };

    fn from(refused: PlayFault) -> BenchFault {
        match refused {
            PlayFault::Memory => BenchFault::Memory,
            refused => BenchFault::Play(refused),
        }
    }
}

impl From<RunFault> for BenchFault {
    ghost from_gives = { λ refused fault. fault ≡ run_refusal refused };

    fn from(refused: RunFault) -> BenchFault {
        match refused {
            RunFault::Memory => BenchFault::Memory,
            RunFault::Start => BenchFault::Run(refused),
        }
    }
}
