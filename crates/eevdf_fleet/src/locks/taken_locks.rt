ghost use Rattle.std.specs.Prelude.{◌≡◌, ◌<◌, IfSome, None, Some};

use eevdf_ops::CpuId;
use std::snapshot::Snapshot;

/// Which locks of queues are taken so far: contracts see the greatest of their numbers. It takes no memory.
#[derive(Drop)]
pub(super) struct TakenLocks {
    pub(super) highest: Snapshot<Option<CpuId>>,
}

impl TakenLocks {
    /// No lock so far.
    pub(super) fn none() -> TakenLocks
        ensures { result.highest.value ≡ None }
    {
        TakenLocks {
            highest: Snapshot::of(&None),
        }
    }

    /// One more, whose number is above those of the others.
    pub(super) fn add(&mut self, cpu: CpuId)
        requires { IfSome self.old.highest.value (λ highest. highest < cpu) }
        ensures { self.new.highest.value ≡ Some cpu }
    {
        self.highest = Snapshot::of(&Some(cpu));
    }
}
