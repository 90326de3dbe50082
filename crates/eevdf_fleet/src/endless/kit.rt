ghost use Rattle.std.specs.Prelude.{◌≡◌, ◌≤◌, IfOk};
ghost use Rattle.eevdf_fleet.specs.Fleets.{capacity_of, most_requests, setup_of};

use crate::kit_parts::KitParts;
use eevdf_ops::Setup;
use std::alloc::{AllocError, Global};
use std::marker::Model;

/// What a fleet that keeps no history is opened from: the queues as the setup has them at the start, and the rings between the CPUs.
#[derive(Drop)]
pub struct Kit {
    pub(super) parts: KitParts,
}

impl Model for Kit {
    ghost use Rattle.std.specs.Coded.{codes};
    ghost use Rattle.eevdf_queue.specs.Codes.{state_code};
    ghost use Rattle.std.specs.Prelude.{◌≡◌, None};
    ghost use Rattle.eevdf_fleet.specs.Fleets.{Kit};

    ghost Value = { Kit };

    ghost coded = { Prim.hlevel (codes, state_code) };

    ghost view = { λ k. k.parts };

    ghost invariant = { λ k. k.parts.terms.quota ≡ None };
}

impl Kit {
    /// A ring has room for at most so many requests.
    pub const MOST_REQUESTS: usize = 1_000_000;

    /// A kit for a fleet with the CPUs and the tasks of the setup, whose programs aren't used. Each ring has room for `rings` requests,
    /// which may be 0. Memory is taken for `rings` requests, at least one, twice for each pair of a sender and a home. The answer is
    /// `AllocError` where it is out of memory, and nothing else is refused.
    pub fn make(alloc: Global, setup: &Setup, rings: usize) -> Result<Kit, AllocError>
        requires { rings ≤ most_requests }
        ensures setup { IfOk result (λ k. setup_of k ≡ setup.now) }
        ensures rings { IfOk result (λ k. capacity_of k ≡ rings) }
    {
        let parts = KitParts::make(alloc, setup, None, rings)?;
        Ok(Kit { parts })
    }
}
