//! What tasks lack of their shares of the CPU, in a queue with bounds and shares beside it.

ghost use Rattle.std.specs.Prelude.{◌≡◌, ℤ, pos, true, unsigned_abs};
ghost use Rattle.std.specs.Borrow.{sem};
ghost use Rattle.eevdf_queue.specs.{State.State, Sums.virtual_time};
ghost use Rattle.eevdf_queue.specs.Rebase as rebases;
ghost use Rattle.eevdf_fair_queue.specs.{declared.bounds.Bounds.Bounds, Fair.IsFair};
ghost use Rattle.eevdf_fair_queue.specs.Beside as beside;
ghost use Rattle.eevdf_fair_queue.specs.Beside.{IsOwedOf, LacksNoMoreOf, SharesView};
ghost use Rattle.eevdf_fair_queue.specs.Owed.{no_share};
ghost use Rattle.eevdf_c.specs.Memory.{bounds_at, number_at, place_at, queue_at, room_for_shares, shares_at};
ghost use Rattle.eevdf_c.specs.PlaceOut.{PlaceOut};
ghost use Rattle.eevdf_c.specs.Codes as answers;
ghost use Rattle.eevdf_c.specs.Errors.{KeepsOnError};
ghost use Rattle.eevdf_c.specs.Fair as fairs;
ghost use Rattle.eevdf_c.specs.Shares as shares_out;
ghost use Rattle.eevdf_c.specs.Tick as ticks;

use crate::calls;
use crate::fair_bounds::FairBounds;
use crate::fair_shares::FairShares;
use crate::opened::Opened;
use crate::place_out::PlaceOut;

/// Opens shares in memory of the caller's, for any queue. Takes no memory.
#[unsafe(no_mangle)]
pub unsafe extern "C" fn eevdf_fair_share_open(shares: *mut u8)
    requires* { sem 𝓛 (room_for_shares shares) }
    ensures* { sem 𝓛 (shares_at shares beside.fresh_shares) }
{
    (shares as *mut FairShares).write(FairShares::open());
}

/// Charges the running task as `eevdf_fair_tick` does, and gives each runnable task its share. Answers 0, and 1 where it has used up its
/// request: time to pick. `INVALID`: the time is out of its range; `ABSENT`: nobody runs; `RANGE`: the runtime or deadline would leave the
/// range.
#[unsafe(no_mangle)]
pub unsafe extern "C" fn eevdf_fair_share_tick(
    shares: *mut u8,
    bounds: *mut u8,
    queue: *mut u8,
    ns: u64,
) -> i64
    ghost g: { SharesView × (Bounds × State) }
    requires* shares { sem 𝓛 (shares_at shares g.0) }
    requires* bounds { sem 𝓛 (bounds_at bounds g.1.0) }
    requires* queue { sem 𝓛 (queue_at queue g.1.1) }
    ensures* shares { sem 𝓛 (shares_at shares (shares_out.tick g.0 g.1.1 ns)) }
    ensures* bounds { sem 𝓛 (bounds_at bounds (fairs.tick g.1.0 g.1.1 ns)) }
    ensures* after { sem 𝓛 (queue_at queue (ticks.tick g.1.1 ns).1) }
    ensures answer { result ≡ (ticks.tick g.1.1 ns).0 }
    ensures fair { IsFair g.1.1 g.1.0 → IsFair (ticks.tick g.1.1 ns).1 (fairs.tick g.1.0 g.1.1 ns) }
    ensures kept { KeepsOnError result g.1.1 (ticks.tick g.1.1 ns).1 }
    ensures steady { KeepsOnError result g.1.0 (fairs.tick g.1.0 g.1.1 ns) }
    ensures still { KeepsOnError result g.0 (shares_out.tick g.0 g.1.1 ns) }
{
    calls::shares::tick(
        &mut *(shares as *mut FairShares),
        &mut *(bounds as *mut FairBounds),
        &mut *(queue as *mut Opened),
        ns,
    )
}

/// Lowers all virtual times as `eevdf_fair_rebase` does, and the shares with them; `by` gets the number. Answers 0.
#[unsafe(no_mangle)]
pub unsafe extern "C" fn eevdf_fair_share_rebase(
    shares: *mut u8,
    bounds: *mut u8,
    queue: *mut u8,
    by: *mut i64,
) -> i64
    ghost g: { SharesView × (Bounds × (State × ℤ)) }
    requires* shares { sem 𝓛 (shares_at shares g.0) }
    requires* bounds { sem 𝓛 (bounds_at bounds g.1.0) }
    requires* queue { sem 𝓛 (queue_at queue g.1.1.0) }
    requires* by { sem 𝓛 (number_at by g.1.1.1) }
    ensures* shares { sem 𝓛 (shares_at shares
        (beside.shares_lowered g.0 (rebases.rebase g.1.1.0).0)) }
    ensures* bounds { sem 𝓛 (bounds_at bounds (fairs.rebase g.1.0 g.1.1.0)) }
    ensures* after { sem 𝓛 (queue_at queue (rebases.rebase g.1.1.0).1) }
    ensures* told { sem 𝓛 (number_at by (rebases.rebase g.1.1.0).0) }
    ensures answer { result ≡ answers.done }
    ensures time { rebases.can_rebase g.1.1.0 ≡ true
        → virtual_time (rebases.rebase g.1.1.0).1 ≡ pos 0 }
    ensures fair { IsFair g.1.1.0 g.1.0
        → IsFair (rebases.rebase g.1.1.0).1 (fairs.rebase g.1.0 g.1.1.0) }
{
    calls::shares::rebase(
        &mut *(shares as *mut FairShares),
        &mut *(bounds as *mut FairBounds),
        &mut *(queue as *mut Opened),
        &mut *by,
    )
}

/// Marks this moment for a task, which from now on has had nothing of its share of the CPU and lacks nothing. `mark` gets the mark. Answers
/// 0. `INVALID`: no task has the number; `ABSENT`: the task isn't runnable here; `RANGE`: the shares have left their range.
#[unsafe(no_mangle)]
pub unsafe extern "C" fn eevdf_fair_share_mark(
    shares: *const u8,
    queue: *const u8,
    task: u64,
    mark: *mut PlaceOut,
) -> i64
    ghost g: { SharesView × (State × PlaceOut) }
    requires* shares { sem 𝓛 (shares_at shares g.0) }
    requires* queue { sem 𝓛 (queue_at queue g.1.0) }
    requires* mark { sem 𝓛 (place_at mark g.1.1) }
    ensures* shares { sem 𝓛 (shares_at shares g.0) }
    ensures* after { sem 𝓛 (queue_at queue g.1.0) }
    ensures* told { sem 𝓛 (place_at mark (shares_out.told_mark g.0 g.1.0 g.1.1 task)) }
    ensures answer { result ≡ shares_out.mark_code g.0 g.1.0 task }
    ensures owed { result ≡ answers.done → IsOwedOf g.0 g.1.0 task
        (shares_out.mark_in (shares_out.told_mark g.0 g.1.0 g.1.1 task)) no_share 0 }
    ensures kept { KeepsOnError result g.1.1 (shares_out.told_mark g.0 g.1.0 g.1.1 task) }
{
    calls::shares::mark(
        &*(shares as *const FairShares),
        &*(queue as *const Opened),
        task,
        &mut *mark,
    )
}

/// How many nanoseconds a task lacks of its share of the CPU since a mark, at most, which `ns` gets. Answers 0. `INVALID`: no task has the
/// number; `ABSENT`: the task isn't runnable here; `RANGE`: the shares, the mark or the number is out of range.
#[unsafe(no_mangle)]
pub unsafe extern "C" fn eevdf_fair_share_bound(
    shares: *const u8,
    queue: *const u8,
    task: u64,
    mark: *const PlaceOut,
    ns: *mut i64,
) -> i64
    ghost g: { SharesView × (State × (PlaceOut × ℤ)) }
    requires* shares { sem 𝓛 (shares_at shares g.0) }
    requires* queue { sem 𝓛 (queue_at queue g.1.0) }
    requires* mark { sem 𝓛 (place_at mark g.1.1.0) }
    requires* ns { sem 𝓛 (number_at ns g.1.1.1) }
    ensures* shares { sem 𝓛 (shares_at shares g.0) }
    ensures* after { sem 𝓛 (queue_at queue g.1.0) }
    ensures* mark { sem 𝓛 (place_at mark g.1.1.0) }
    ensures* told { sem 𝓛 (number_at ns (shares_out.told_lack g.0 g.1.0 task g.1.1.0 g.1.1.1)) }
    ensures answer { result ≡ shares_out.lack_code g.0 g.1.0 task g.1.1.0 }
    ensures owed { result ≡ answers.done → LacksNoMoreOf g.0 g.1.0 task
        (shares_out.mark_in g.1.1.0) (unsigned_abs (shares_out.told_lack g.0 g.1.0 task g.1.1.0 g.1.1.1)) }
    ensures kept { KeepsOnError result g.1.1.1
        (shares_out.told_lack g.0 g.1.0 task g.1.1.0 g.1.1.1) }
{
    calls::shares::bound(
        &*(shares as *const FairShares),
        &*(queue as *const Opened),
        task,
        &*mark,
        &mut *ns,
    )
}
