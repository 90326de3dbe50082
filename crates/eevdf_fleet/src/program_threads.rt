//! How the programs of a setup are run, each by a thread of its own.

ghost use Rattle.std.specs.Prelude.{◌≡◌, ◌*◌, IfOk, length, true};
ghost use Rattle.std.specs.List.{list_all};
ghost use Rattle.eevdf_ops.specs.{Followed.FollowsPrograms, Followed.program_of};
ghost use Rattle.eevdf_ops.specs.{Histories.IsOneThread, Machine.start};
ghost use Rattle.eevdf_ops.specs.{Outcome.machine_of, OwnRequests.TakesOwnRequests};
ghost use Rattle.eevdf_ops.specs.{Places.IsPlaced, Programs.deeds_of};
ghost use Rattle.eevdf_ops.specs.Setup.{allows, cpus_of, homes_of};
ghost use Rattle.eevdf_fleet.specs.Fleets.{fresh, quota_of, setup_of};
ghost use Rattle.eevdf_fleet.specs.ProgramRuns.{HasRun, quota_for, rings_for};

use crate::fleet::{Closed, Fleet};
use crate::gate::Gate;
use crate::kit::Kit;
use crate::names::Names;
use crate::program_needs::{quota, rings};
use crate::run_fault::RunFault;
use crate::seat::Seat;
use crate::seat_threads::run_seats;
use crate::seat_work::SeatWork;
use eevdf_ops::Setup;
use std::alloc::Global;
use std::marker::Brand;
use std::sync::Wait;
use std::thread::Threads;

/// Runs the programs of the setup at the same time, each by a thread of its own on its CPU, and returns when all have ended.
/// The threads call the gate at their operations.
///
/// Whatever the order in which the threads came, the outcome is that of one thread that does the deeds of its lines one
/// after the other, each at once: the same answers, the same queues. The lines of each CPU are its program's operations, in
/// order and each once (a post has no line, a drain the wakes that it found), and each request that was posted was
/// either drained once, in order, or is left. Each drain has taken the oldest request that its own program had posted to its
/// own CPU before it and that wasn't taken yet, if there was one; of each other CPU it has taken one request or none.
///
/// `Memory` where it is out of memory, and `Start` where a thread was; there is no outcome then, and the
/// threads that had started have ended.
pub fn run_all<R: Threads + Wait + Sync, G: Gate + Sync>(
    rt: &R,
    alloc: Global,
    setup: &Setup,
    gate: &G,
) -> Result<Closed, RunFault>
    ensures one_thread { IfOk result (λ o.
        IsOneThread (homes_of setup.now) (start setup.now) (deeds_of o.lines) o) }
    ensures allowed { IfOk result (λ o. list_all (allows setup.now) (deeds_of o.lines) ≡ true) }
    ensures programs { IfOk result (λ o. FollowsPrograms setup.now o) }
    ensures own { IfOk result (λ o. TakesOwnRequests setup.now o) }
    ensures places { IfOk result (λ o. IsPlaced (homes_of setup.now) (machine_of o.queues)) }
    ensures left { IfOk result (λ o. length o.left ≡ cpus_of setup.now * cpus_of setup.now) }
{
    let kit = Kit::make(alloc, setup, quota(setup), rings(setup))?;
    run_on_fleet::<Brand, _, _>(rt, alloc, setup, gate, kit)
}

/// Runs the programs on the fleet of a kit that has room for them.
fn run_on_fleet<N: Names + Send + Sync, R: Threads + Wait + Sync, G: Gate + Sync>(
    rt: &R,
    alloc: Global,
    setup: &Setup,
    gate: &G,
    kit: Kit,
) -> Result<Closed, RunFault>
    requires kit { kit ≡ N.kit }
    requires setup { setup_of kit ≡ setup.now }
    requires quota { quota_of kit ≡ quota_for setup.now }
    requires rings { kit.rings.capacity ≡ rings_for setup.now }
    ensures one_thread { IfOk result (λ o.
        IsOneThread (homes_of setup.now) (start setup.now) (deeds_of o.lines) o) }
    ensures allowed { IfOk result (λ o. list_all (allows setup.now) (deeds_of o.lines) ≡ true) }
    ensures programs { IfOk result (λ o. FollowsPrograms setup.now o) }
    ensures own { IfOk result (λ o. TakesOwnRequests setup.now o) }
    ensures places { IfOk result (λ o. IsPlaced (homes_of setup.now) (machine_of o.queues)) }
    ensures left { IfOk result (λ o. length o.left ≡ cpus_of setup.now * cpus_of setup.now) }
{
    let (fleet, seats) = Fleet::<N>::open(alloc, kit)?;
    let programs = Programs {
        fleet: &fleet,
        setup,
        gate,
    };
    let seats = run_seats(rt, alloc, seats, &programs)?;
    Ok(fleet.close(seats))
}

/// The programs of a setup, each the work of its CPU's seat.
#[derive(Drop)]
struct Programs<'a, N: Names, G> {
    fleet: &'a Fleet<N>,
    setup: &'a Setup,
    gate: &'a G,
}

impl<'a, N: Names, G: Gate> SeatWork<Seat<N>> for Programs<'a, N, G> {
    ghost fits = { λ p number seat. (setup_of N.kit ≡ p.setup.now)
        × (quota_of N.kit ≡ quota_for p.setup.now)
        × (N.kit.rings.capacity ≡ rings_for p.setup.now)
        × (seat ≡ fresh (quota_of N.kit) (cpus_of (setup_of N.kit)) number) };

    ghost is_done = { λ _ number seat.
        HasRun (setup_of N.kit) number (program_of (setup_of N.kit) number) seat };

    fn work<R: Wait>(&self, rt: &R, _number: usize, seat: Seat<N>) -> Seat<N> {
        self.fleet.run_program(rt, self.gate, self.setup, seat)
    }

    fn note_refused_thread(&self) {
        self.fleet.note_refused_thread();
    }
}
