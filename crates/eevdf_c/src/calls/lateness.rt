//! How late a request can be.

ghost use Rattle.std.specs.Prelude.{◌≡◌, unsigned_abs};
ghost use Rattle.eevdf_fair_queue.specs.Fair.{IsFair};
ghost use Rattle.eevdf_fair_queue.specs.InTime.{NoneIsLaterInTime};
ghost use Rattle.eevdf_fair_queue.specs.Lateness.{IsLateBy, NoneIsLaterThan};
ghost use Rattle.eevdf_fair_queue.specs.Lateness as latenesses;
ghost use Rattle.eevdf_c.specs.Codes.{done};
ghost use Rattle.eevdf_c.specs.Errors.{KeepsOnError};
ghost use Rattle.eevdf_c.specs.Fair as fairs;
ghost use Rattle.eevdf_c.specs.LatenessInTime as in_time;

use crate::calls::times::tell;
use crate::codes::{ABSENT, DONE, INVALID};
use crate::fair_bounds::FairBounds;
use crate::opened::Opened;
use eevdf_queue::TaskId;

/// By how much the virtual time can be past the deadline of any runnable task, at most.
pub fn lateness_bound(bounds: &FairBounds, opened: &Opened) -> i64
    ensures answer { result ≡ latenesses.lateness_bound opened.now bounds.now }
    ensures late { IsFair opened.now bounds.now → NoneIsLaterThan opened.now result }
{
    bounds.kept.lateness_bound(&opened.queue)
}

/// The same in nanoseconds, rounded up, which `ns` gets. Else `ns` stays as it was.
pub fn lateness_bound_in_time(bounds: &FairBounds, opened: &Opened, ns: &mut i64) -> i64
    ensures answer { result ≡ in_time.answer bounds.now opened.now }
    ensures told { ns.new ≡ in_time.told bounds.now opened.now ns.old }
    ensures late { result ≡ done → IsFair opened.now bounds.now → NoneIsLaterInTime opened.now (unsigned_abs ns.new) }
    ensures kept { KeepsOnError result ns.old ns.new }
{
    tell(bounds.kept.lateness_bound_in_time(&opened.queue), ns)
}

/// By how much the virtual time can be past the deadline of a runnable task, at most, which `by` gets. Else `by` stays as it was.
pub fn lateness_bound_of(bounds: &FairBounds, opened: &Opened, number: u64, by: &mut i64) -> i64
    ensures answer { result ≡ fairs.lateness opened.now number }
    ensures told { by.new ≡ fairs.told_lateness bounds.now opened.now by.old number }
    ensures late { result ≡ done → IsFair opened.now bounds.now → IsLateBy opened.now number by.new }
    ensures kept { KeepsOnError result by.old by.new }
{
    let Some(task) = TaskId::new(number) else {
        return INVALID;
    };
    match bounds.kept.lateness_bound_of(&opened.queue, task) {
        Some(found) => {
            *by = found;
            DONE
        }
        None => ABSENT,
    }
}
