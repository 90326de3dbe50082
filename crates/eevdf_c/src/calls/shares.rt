//! What tasks lack of their shares of the CPU, in a queue with bounds and shares beside it. An error changes nothing.

ghost use Rattle.std.specs.Prelude.{◌≡◌, ◌≤◌, ◌≤ℤ◌, pos, true, unsigned_abs};
ghost use Rattle.eevdf_queue.specs.Rebase as rebases;
ghost use Rattle.eevdf_queue.specs.Sums.{total_weight, virtual_time};
ghost use Rattle.eevdf_fair_queue.specs.Beside as beside;
ghost use Rattle.eevdf_fair_queue.specs.Beside.{IsOwedOf, LacksNoMoreOf};
ghost use Rattle.eevdf_fair_queue.specs.Fair.{IsFair};
ghost use Rattle.eevdf_fair_queue.specs.Owed.{no_share};
ghost use Rattle.eevdf_c.specs.Codes.{done};
ghost use Rattle.eevdf_c.specs.Errors.{KeepsOnError};
ghost use Rattle.eevdf_c.specs.Fair as fairs;
ghost use Rattle.eevdf_c.specs.Shares as shares_out;
ghost use Rattle.eevdf_c.specs.Tick as ticks;

use crate::calls::fair_turns;
use crate::calls::times::tell;
use crate::codes::{ABSENT, DONE, INVALID, RANGE};
use crate::fair_bounds::FairBounds;
use crate::fair_shares::FairShares;
use crate::opened::Opened;
use crate::place_out::PlaceOut;
use eevdf_fair_queue::ShareMark;
use eevdf_queue::TaskId;
use eevdf_weight::Ns;

/// Charges the running task for `ns` nanoseconds, of which each runnable task has its share.
pub fn tick(shares: &mut FairShares, bounds: &mut FairBounds, opened: &mut Opened, ns: u64) -> i64
    ensures answer { result ≡ (ticks.tick opened.old ns).0 }
    ensures shares { shares.new ≡ shares_out.tick shares.old opened.old ns }
    ensures bounds { bounds.new ≡ fairs.tick bounds.old opened.old ns }
    ensures after { opened.new ≡ (ticks.tick opened.old ns).1 }
    ensures fair { IsFair opened.old bounds.old → IsFair opened.new bounds.new }
    ensures kept { KeepsOnError result opened.old opened.new }
    ensures steady { KeepsOnError result bounds.old bounds.new }
    ensures still { KeepsOnError result shares.old shares.new }
{
    let Some(length) = Ns::new(ns) else {
        return INVALID;
    };
    let code = fair_turns::tick(bounds, opened, ns);
    charge(shares, code, length, opened);
    code
}

/// Makes shares those after a tick that was answered so. An error leaves them.
fn charge(shares: &mut FairShares, code: i64, ns: Ns, opened: &Opened)
    requires { pos 0 ≤ℤ code → 1 ≤ total_weight opened.now.runnable }
    ensures { shares.new ≡ shares_out.charged_with shares.old code ns (total_weight opened.now.runnable) }
{
    if 0 <= code {
        shares.kept.charge(ns, &opened.queue);
    }
}

/// Lowers all virtual times by one number, which `by` gets, so that the virtual time is 0.
pub fn rebase(
    shares: &mut FairShares,
    bounds: &mut FairBounds,
    opened: &mut Opened,
    by: &mut i64,
) -> i64
    ensures answer { result ≡ done }
    ensures shares { shares.new ≡ beside.shares_lowered shares.old (rebases.rebase opened.old).0 }
    ensures bounds { bounds.new ≡ fairs.rebase bounds.old opened.old }
    ensures after { opened.new ≡ (rebases.rebase opened.old).1 }
    ensures told { by.new ≡ (rebases.rebase opened.old).0 }
    ensures time { rebases.can_rebase opened.old ≡ true → virtual_time opened.new ≡ pos 0 }
    ensures fair { IsFair opened.old bounds.old → IsFair opened.new bounds.new }
{
    let code = fair_turns::rebase(bounds, opened, by);
    shares.kept.lower(*by);
    code
}

/// Marks this moment for a runnable task, by a number which `mark` gets. Else `mark` stays as it was.
pub fn mark(shares: &FairShares, opened: &Opened, number: u64, mark: &mut PlaceOut) -> i64
    ensures answer { result ≡ shares_out.mark_code shares.now opened.now number }
    ensures told { mark.new ≡ shares_out.told_mark shares.now opened.now mark.old number }
    ensures owed { result ≡ done
        → IsOwedOf shares.now opened.now number (shares_out.mark_in mark.new) no_share 0 }
    ensures kept { KeepsOnError result mark.old mark.new }
{
    let Some(task) = TaskId::new(number) else {
        return INVALID;
    };
    let Some(_) = opened.queue.entry(task) else {
        return ABSENT;
    };
    match shares.kept.share_mark(&opened.queue, task) {
        Some(found) => {
            *mark = PlaceOut::of(found.standing);
            DONE
        }
        None => RANGE,
    }
}

/// How many nanoseconds a runnable task lacks of its share since a mark, at most, which `ns` gets. Else `ns` stays as it was.
pub fn bound(
    shares: &FairShares,
    opened: &Opened,
    number: u64,
    mark: &PlaceOut,
    ns: &mut i64,
) -> i64
    ensures answer { result ≡ shares_out.lack_code shares.now opened.now number mark.now }
    ensures told { ns.new ≡ shares_out.told_lack shares.now opened.now number mark.now ns.old }
    ensures owed { result ≡ done → LacksNoMoreOf shares.now opened.now number
        (shares_out.mark_in mark.now) (unsigned_abs ns.new) }
    ensures kept { KeepsOnError result ns.old ns.new }
{
    let Some(task) = TaskId::new(number) else {
        return INVALID;
    };
    let Some(_) = opened.queue.entry(task) else {
        return ABSENT;
    };
    let standing = mark.value();
    match shares
        .kept
        .share_bound(&opened.queue, task, ShareMark { standing })
    {
        Some(found) => tell(found, ns),
        None => RANGE,
    }
}
