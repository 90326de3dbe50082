ghost use Rattle.std.specs.Prelude.{◌≡◌, ◌≤◌, IfOk};
ghost use Rattle.eevdf_fleet.specs.Fleets.{capacity_of, most_lines, most_requests, quota_of};
ghost use Rattle.eevdf_fleet.specs.Fleets.{setup_of};

use crate::kit_parts::KitParts;
use eevdf_ops::Setup;
use std::alloc::{AllocError, Global};
use std::marker::Model;

/// What a fleet is opened from: the queues as the setup has them at the start, the rings between the CPUs, and room for
/// the lines of every CPU.
#[derive(Drop)]
pub struct Kit {
    pub(crate) parts: KitParts,
}

impl Model for Kit {
    ghost use Rattle.std.specs.Coded.{codes};
    ghost use Rattle.eevdf_queue.specs.Codes.{state_code};
    ghost use Rattle.std.specs.Prelude.{◌≡◌, is_some, true};
    ghost use Rattle.eevdf_fleet.specs.Fleets.{Kit};

    ghost Value = { Kit };

    ghost coded = { Prim.hlevel (codes, state_code) };

    ghost view = { λ k. k.parts };

    ghost invariant = { λ k. is_some k.parts.terms.quota ≡ true };
}

impl Kit {
    /// A CPU's seat may have at most so many lines over all.
    pub const MOST_LINES: usize = 1_000_000;

    /// A ring has room for at most so many requests.
    pub const MOST_REQUESTS: usize = 1_000_000;

    /// A kit for a fleet with the CPUs and the tasks of the setup, whose programs aren't used. Each CPU may have `quota` lines
    /// over all, and each ring has room for `rings` requests; both may be 0. Memory is taken for twice `quota` lines of each
    /// CPU, and for `rings` requests, at least one, twice for each pair of a sender and a home. The answer is `AllocError`
    /// where it is out of memory, and nothing else is refused.
    pub fn make(alloc: Global, setup: &Setup, quota: usize, rings: usize) -> Result<Kit, AllocError>
        requires quota { quota ≤ most_lines }
        requires rings { rings ≤ most_requests }
        ensures setup { IfOk result (λ k. setup_of k ≡ setup.now) }
        ensures quota { IfOk result (λ k. quota_of k ≡ quota) }
        ensures rings { IfOk result (λ k. capacity_of k ≡ rings) }
    {
        let parts = KitParts::make(alloc, setup, Some(quota), rings)?;
        Ok(Kit { parts })
    }
}
