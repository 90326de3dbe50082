use eevdf_fair_queue::Bounds;
use std::marker::Model;
use std::mem::{align_of, size_of};

/// The bounds of a queue as they lie in the caller's memory, beside the queue. Contracts see the bounds.
pub struct FairBounds {
    pub(crate) kept: Bounds,
}

impl Model for FairBounds {
    ghost use Rattle.eevdf_fair_queue.specs.{declared.bounds.Bounds.Bounds, Fair.bounds_code};

    ghost Value = { Bounds };

    ghost coded = { bounds_code };

    ghost view = { λ a. a.kept };
}

impl FairBounds {
    ghost use Rattle.std.specs.Prelude.{◌≡◌};
    ghost use Rattle.eevdf_fair_queue.specs.Bounds as bounds;

    /// Those of a queue in which nothing is runnable.
    pub fn open() -> FairBounds
        ensures { result ≡ bounds.fresh }
    {
        FairBounds {
            kept: Bounds::fresh(),
        }
    }
}

// the bytes that the header for C gives bounds, in words of eight
const _: () = prove!(size_of::<FairBounds>() == 40 && align_of::<FairBounds>() == 8);
