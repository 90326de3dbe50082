use eevdf_fair_queue::Shares;
use std::marker::Model;
use std::mem::{align_of, size_of};

/// What is kept of a queue to tell the shares of its tasks, as it lies in the caller's memory, beside the queue and its bounds.
#[derive(Drop)]
pub struct FairShares {
    pub(crate) kept: Shares,
}

impl Model for FairShares {
    ghost use Rattle.eevdf_fair_queue.specs.Beside.{SharesView, shares_view_code};

    ghost Value = { SharesView };

    ghost coded = { shares_view_code };

    ghost view = { λ a. a.kept };
}

impl FairShares {
    ghost use Rattle.std.specs.Prelude.{◌≡◌};
    ghost use Rattle.eevdf_fair_queue.specs.Beside as beside;

    /// Those of a queue that was charged for nothing yet.
    pub fn open() -> FairShares
        ensures { result ≡ beside.fresh_shares }
    {
        FairShares {
            kept: Shares::start(),
        }
    }
}

// the bytes that the header for C gives them
const _: () = prove!(size_of::<FairShares>() == 64 && align_of::<FairShares>() == 16);
