//! How a work of the caller's own is done with the seats of a fleet, each by a thread of its own.

ghost use Rattle.std.specs.Prelude.{◌≡◌, ◌*◌, ◌<◌, ℕ, IfOk, length, true};
ghost use Rattle.std.specs.List.{list_all};
ghost use Rattle.eevdf_ops.specs.{Histories.IsOneThread, Machine.start, Outcome.machine_of};
ghost use Rattle.eevdf_ops.specs.{Places.IsPlaced, Programs.deeds_of};
ghost use Rattle.eevdf_ops.specs.Setup.{allows, cpus_of, homes_of};
ghost use Rattle.eevdf_fleet.specs.Fleets.{fresh, quota_of, setup_of};
ghost use Rattle.eevdf_fleet.specs.Turns.{HasItsTurns, HasTurned};

use crate::fleet::{Closed, Fleet};
use crate::kit::Kit;
use crate::names::Names;
use crate::run_fault::RunFault;
use crate::seat::Seat;
use crate::seat_threads::run_seats;
use crate::seat_turn::SeatTurn;
use crate::seat_work::SeatWork;
use std::alloc::Global;
use std::marker::Brand;
use std::sync::Wait;
use std::thread::Threads;

/// Opens a fleet from the kit, does up to `turns` turns with each CPU's seat, each CPU's in a thread of its own, and closes the
/// fleet when all threads have ended.
///
/// Whatever the turns do and in whatever order the threads come, the outcome is that of one thread that does the deeds of its
/// lines one after the other, each at once: the same answers, the same queues.
///
/// Each CPU has had the turns 0, 1, 2 and so on, on a seat that was fresh before the first: `turns` of them, or those up to the
/// first `Break`. Each was as `SeatTurn::turn_gives` says of a turn of its number. The CPU's lines in the outcome, and the
/// requests that it posted, are those of the seat after its last turn.
///
/// `Memory` where it is out of memory, and `Start` where a thread was; there is no outcome then, and the threads
/// that had started have ended.
pub fn run_turns<R: Threads + Wait + Sync, T: SeatTurn + Sync>(
    rt: &R,
    alloc: Global,
    kit: Kit,
    turns: usize,
    each: &T,
) -> Result<Closed, RunFault>
    ensures one_thread { IfOk result (λ o. IsOneThread
        (homes_of (setup_of kit)) (start (setup_of kit)) (deeds_of o.lines) o) }
    ensures allowed { IfOk result (λ o.
        list_all (allows (setup_of kit)) (deeds_of o.lines) ≡ true) }
    ensures places { IfOk result (λ o. IsPlaced (homes_of (setup_of kit)) (machine_of o.queues)) }
    ensures turns { IfOk result (λ o. (cpu : ℕ) → cpu < cpus_of (setup_of kit)
        → HasItsTurns (T.turn_gives each.now kit) kit turns cpu o) }
    ensures left { IfOk result (λ o. length o.left
        ≡ cpus_of (setup_of kit) * cpus_of (setup_of kit)) }
{
    run_on_fleet::<Brand, _, _>(rt, alloc, kit, turns, each)
}

/// Does the turns on the fleet of a kit.
fn run_on_fleet<N: Names + Send + Sync, R: Threads + Wait + Sync, T: SeatTurn + Sync>(
    rt: &R,
    alloc: Global,
    kit: Kit,
    turns: usize,
    each: &T,
) -> Result<Closed, RunFault>
    requires kit { kit ≡ N.kit }
    ensures one_thread { IfOk result (λ o. IsOneThread
        (homes_of (setup_of kit)) (start (setup_of kit)) (deeds_of o.lines) o) }
    ensures allowed { IfOk result (λ o.
        list_all (allows (setup_of kit)) (deeds_of o.lines) ≡ true) }
    ensures places { IfOk result (λ o. IsPlaced (homes_of (setup_of kit)) (machine_of o.queues)) }
    ensures turns { IfOk result (λ o. (cpu : ℕ) → cpu < cpus_of (setup_of kit)
        → HasItsTurns (T.turn_gives each.now kit) kit turns cpu o) }
    ensures left { IfOk result (λ o. length o.left
        ≡ cpus_of (setup_of kit) * cpus_of (setup_of kit)) }
{
    let (fleet, seats) = Fleet::<N>::open(alloc, kit)?;
    let work = Turns {
        fleet: &fleet,
        turns,
        each,
    };
    let seats = run_seats(rt, alloc, seats, &work)?;
    Ok(fleet.close(seats))
}

/// So many turns, each of this kind.
#[derive(Drop)]
struct Turns<'a, N: Names, T> {
    fleet: &'a Fleet<N>,
    turns: usize,
    each: &'a T,
}

impl<'a, N: Names, T: SeatTurn> SeatWork<Seat<N>> for Turns<'a, N, T> {
    ghost fits = { λ _ number seat.
        seat ≡ fresh (quota_of N.kit) (cpus_of (setup_of N.kit)) number };

    ghost is_done = { λ work number seat. (seat.cpu ≡ number)
        × HasTurned (T.turn_gives work.each.now N.kit) 0 work.turns
        (fresh (quota_of N.kit) (cpus_of (setup_of N.kit)) number) seat };

    fn work<R: Wait>(&self, rt: &R, _number: usize, mut seat: Seat<N>) -> Seat<N> {
        for turn in 0..self.turns {
            if self.each.turn(rt, self.fleet, &mut seat, turn).is_break() {
                break;
            }
        }
        seat
    }

    fn note_refused_thread(&self) {
        self.fleet.note_refused_thread();
    }
}
