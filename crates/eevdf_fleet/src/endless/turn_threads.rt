//! How a work of the caller's own is done with the seats of a fleet that keeps no history, each by a thread of its own.

ghost use Rattle.std.specs.Prelude.{◌≡◌, IfOk, map};
ghost use Rattle.eevdf_ops.specs.Outcome.{machine_of};
ghost use Rattle.eevdf_fleet.specs.Endless.{fresh};
ghost use Rattle.eevdf_fleet.specs.EndlessTurns.{HasTurned, HaveTurned};

use crate::endless::closed::Closed;
use crate::endless::exchange::Exchange;
use crate::endless::exchange_turn::{Alone, ExchangeTurn};
use crate::endless::fleet::Fleet;
use crate::endless::kit::Kit;
use crate::endless::seat::Seat;
use crate::endless::seat_turn::SeatTurn;
use crate::names::Names;
use crate::run_fault::RunFault;
use crate::seat_threads::run_seats;
use crate::seat_work::SeatWork;
use std::alloc::Global;
use std::marker::Brand;
use std::sync::Wait;
use std::thread::Threads;

/// Opens a fleet from the kit, does turns with each CPU's seat, each CPU's in a thread of its own until one of its turns is `Break`, and
/// closes the fleet when all threads have ended.
///
/// Each CPU's turns began on a seat that had done nothing, and each was as `SeatTurn::turn_gives` says. There is one history of which each
/// seat after its last turn has its CPU's lines, and it leaves these queues and these requests.
///
/// `Memory` where it is out of memory, and `Start` where a thread was; nothing is given then, and the threads that had started have
/// ended.
pub fn run_turns<R: Threads + Wait + Sync, T: SeatTurn + Sync>(
    rt: &R,
    alloc: Global,
    kit: Kit,
    each: &T,
) -> Result<Closed, RunFault>
    ensures { IfOk result (λ o. HaveTurned (T.turn_gives each.now kit) kit
        (machine_of o.queues.items) (map (λ l. l.items) o.left.items)) }
{
    run_on_fleet::<Brand, _, _>(rt, alloc, kit, 0, &Alone { each })
}

/// As `run_turns`, with a place for each CPU where the threads may leave lines for one another while they run.
pub fn run_exchange_turns<R: Threads + Wait + Sync, T: ExchangeTurn + Sync>(
    rt: &R,
    alloc: Global,
    kit: Kit,
    each: &T,
) -> Result<Closed, RunFault>
    ensures { IfOk result (λ o. HaveTurned (T.turn_gives each.now kit) kit
        (machine_of o.queues.items) (map (λ l. l.items) o.left.items)) }
{
    let places = kit.parts.queues.len();
    run_on_fleet::<Brand, _, _>(rt, alloc, kit, places, each)
}

/// Does the turns on the fleet of a kit, with so many places where the threads may leave lines for one another.
fn run_on_fleet<N: Names + Send + Sync, R: Threads + Wait + Sync, T: ExchangeTurn + Sync>(
    rt: &R,
    alloc: Global,
    kit: Kit,
    places: usize,
    each: &T,
) -> Result<Closed, RunFault>
    requires { kit ≡ N.kit }
    ensures { IfOk result (λ o. HaveTurned (T.turn_gives each.now kit) kit
        (machine_of o.queues.items) (map (λ l. l.items) o.left.items)) }
{
    let (fleet, seats) = Fleet::<N>::open(alloc, kit)?;
    let exchange = Exchange::<N>::open(alloc, places)?;
    let work = Turns {
        fleet: &fleet,
        each,
        exchange: &exchange,
    };
    let seats = run_seats(rt, alloc, seats, &work)?;
    Ok(fleet.close(seats))
}

/// Turns of this kind, without end.
#[derive(Drop)]
struct Turns<'a, N: Names, T> {
    fleet: &'a Fleet<N>,
    each: &'a T,
    exchange: &'a Exchange<N>,
}

impl<'a, N: Names, T: ExchangeTurn> SeatWork<Seat<N>> for Turns<'a, N, T> {
    ghost fits = { λ _ number seat. seat ≡ fresh N.kit number };

    ghost is_done = { λ work number seat. (seat.cpu ≡ number)
        × HasTurned (T.turn_gives work.each.now N.kit) (fresh N.kit number) seat };

    fn work<R: Wait>(&self, rt: &R, _number: usize, mut seat: Seat<N>) -> Seat<N> {
        for _ in rt.forever() {
            let turned = self.each.turn(rt, self.fleet, &mut seat, self.exchange);
            if turned.is_break() {
                return seat;
            }
        }
        unreachable!()
    }

    fn note_refused_thread(&self) {
        self.fleet.note_refused_thread();
    }
}
