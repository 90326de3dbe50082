//! The rounds of a CPU, beside which its thread keeps what is known of its turns.

ghost use Rattle.std.specs.Prelude.{◌≡◌, IfSome};
ghost use Rattle.eevdf_fleet.specs.Fleets.{setup_of};
ghost use Rattle.measures.specs.BesideSeats.{IsBeside, NoneIsLaterHere};

use eevdf_fair_seat::SeatBound;
use eevdf_fleet::Names;
use eevdf_fleet::endless::{Fleet, Seat};
use eevdf_ops::Deed;
use eevdf_weight::{Nice, Ns};
use std::sync::Wait;

/// The CPU picks, and runs whoever was picked for two ticks of this length, so many times. Answers by how much the virtual time of the CPU
/// can be past the deadline of a request then, where no task there is lighter than one of the nice level.
pub fn run_rounds<N: Names, R: Wait>(
    rt: &R,
    fleet: &Fleet<N>,
    seat: &mut Seat<N>,
    rounds: u64,
    ns: Ns,
    lightest: Nice,
) -> Option<u128>
    ensures cpu { seat.new.cpu ≡ seat.old.cpu }
    ensures late { IfSome result (NoneIsLaterHere (setup_of N.kit) seat.new lightest) }
{
    let mut bound = first_pick(rt, fleet, seat);
    for _round in 0..rounds {
        tick(rt, fleet, seat, &mut bound, ns);
        tick(rt, fleet, seat, &mut bound, ns);
        pick(rt, fleet, seat, &mut bound);
    }
    bound.lateness_bound(lightest)
}

/// The CPU picks, and what is known of its turns begins.
fn first_pick<N: Names, R: Wait>(rt: &R, fleet: &Fleet<N>, seat: &mut Seat<N>) -> SeatBound
    ensures cpu { seat.new.cpu ≡ seat.old.cpu }
    ensures beside { IsBeside (setup_of N.kit) seat.new result }
{
    let cpu = seat.cpu();
    let _ = fleet.pick(rt, seat);
    let mut bound = SeatBound::fresh();
    bound.see(Deed::Pick { cpu });
    bound
}

/// The CPU picks, and hands it over.
fn pick<N: Names, R: Wait>(rt: &R, fleet: &Fleet<N>, seat: &mut Seat<N>, bound: &mut SeatBound)
    requires { IsBeside (setup_of N.kit) seat.old bound.old }
    ensures cpu { seat.new.cpu ≡ seat.old.cpu }
    ensures beside { IsBeside (setup_of N.kit) seat.new bound.new }
{
    let cpu = seat.cpu();
    let _ = fleet.pick(rt, seat);
    bound.see(Deed::Pick { cpu });
}

/// The CPU is ticked, and hands it over.
fn tick<N: Names, R: Wait>(
    rt: &R,
    fleet: &Fleet<N>,
    seat: &mut Seat<N>,
    bound: &mut SeatBound,
    ns: Ns,
)
    requires { IsBeside (setup_of N.kit) seat.old bound.old }
    ensures cpu { seat.new.cpu ≡ seat.old.cpu }
    ensures beside { IsBeside (setup_of N.kit) seat.new bound.new }
{
    let cpu = seat.cpu();
    let _ = fleet.tick(rt, seat, ns);
    bound.see(Deed::Tick { cpu, ns });
}
