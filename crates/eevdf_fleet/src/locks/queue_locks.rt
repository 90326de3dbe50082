//! How the locks of queues are taken: in ascending order.

ghost use Rattle.std.specs.{Prelude.◌≡◌, Prelude.◌≢◌, Prelude.◌<◌, Sync.Mutex.mutex_guard_value};
ghost use Rattle.std.specs.Prelude.{IfSome, Some};
ghost use Rattle.eevdf_ops.specs.Setup.{cpus_of};
ghost use Rattle.eevdf_fleet.specs.Fleets.{setup_of};

use crate::locks::adaptive_lock::lock_when_free;
use crate::locks::lock_leave::{JournalLeave, LockLeave};
use crate::locks::taken_locks::TakenLocks;
use crate::names::Names;
use crate::run_queues::RunQueues;
use crate::slot::Slot;
use crossbeam_utils::CachePadded;
use eevdf_ops::CpuId;
use std::sync::{Mutex, MutexGuard, Wait};

/// A CPU's queue in its lock.
#[derive(Drop)]
pub(crate) struct QueueLock<N: Names> {
    slot: CachePadded<Mutex<Slot<N>>>,
}

impl<N: Names> QueueLock<N> {
    pub(crate) fn new(slot: Slot<N>) -> QueueLock<N> {
        QueueLock {
            slot: CachePadded::new(Mutex::new(slot)),
        }
    }

    /// What stands in the lock, when no thread shares it any more.
    pub(crate) fn into_slot(self) -> Slot<N> {
        self.slot.into_inner().into_inner()
    }
}

impl<N: Names> RunQueues<N> {
    /// Takes the locks of the queues of two CPUs, the lower number first.
    pub(crate) fn hold_both<'a, R: Wait>(
        &'a self,
        rt: &R,
        held: &'a mut LockLeave,
        cpu: CpuId,
        other: CpuId,
    ) -> (
        MutexGuard<'a, Slot<N>>,
        MutexGuard<'a, Slot<N>>,
        JournalLeave<'a>,
    )
        requires cpu { cpu < cpus_of (setup_of N.kit) }
        requires other { other < cpus_of (setup_of N.kit) }
        requires apart { cpu ≢ other }
        ensures cpu { (mutex_guard_value result.0).number ≡ cpu }
        ensures other { (mutex_guard_value result.1).number ≡ other }
    {
        let mut taken = TakenLocks::none();
        if cpu.get() < other.get() {
            let guard = self.take(rt, &mut taken, cpu);
            let other_guard = self.take(rt, &mut taken, other);
            (guard, other_guard, held.with_queues())
        } else {
            let other_guard = self.take(rt, &mut taken, other);
            let guard = self.take(rt, &mut taken, cpu);
            (guard, other_guard, held.with_queues())
        }
    }

    /// Takes the lock of a CPU's queue.
    #[inline(always)]
    pub(crate) fn hold<'a, R: Wait>(
        &'a self,
        rt: &R,
        held: &'a mut LockLeave,
        cpu: CpuId,
    ) -> (MutexGuard<'a, Slot<N>>, JournalLeave<'a>)
        requires cpu { cpu < cpus_of (setup_of N.kit) }
        ensures number { (mutex_guard_value result.0).number ≡ cpu }
    {
        let guard = self.take(rt, &mut TakenLocks::none(), cpu);
        (guard, held.with_queues())
    }

    /// Takes the lock of a CPU's queue, whose number is above those of the locks that are taken.
    #[inline(always)]
    pub(super) fn take<R: Wait>(
        &self,
        rt: &R,
        taken: &mut TakenLocks,
        cpu: CpuId,
    ) -> MutexGuard<'_, Slot<N>>
        requires cpu { cpu < cpus_of (setup_of N.kit) }
        requires ascending { IfSome taken.old.highest.value (λ highest. highest < cpu) }
        ensures number { (mutex_guard_value result).number ≡ cpu }
        ensures taken { taken.new.highest.value ≡ Some cpu }
    {
        taken.add(cpu);
        let lock = &self.locks[cpu.index()].slot;
        let guard = match lock.try_lock() {
            Some(guard) => guard,
            None => lock_when_free(rt, lock),
        };
        // No type says which lock keeps which number. They stand in order from the opening on.
        if guard.number().get() == cpu.get() {
            return guard;
        }
        for _ in rt.forever() {}
        unreachable!()
    }
}
