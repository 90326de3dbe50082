//! The operations of all threads in one thread, by a fleet with a history and again by one without.

ghost use Rattle.std.specs.Prelude.{◌≡◌, ◌*◌, length};

use crate::fleet::agreement::same_queues;
use crate::fleet::drawn_run::DrawnRun;
use crate::fleet::drawn_seat::DrawnSeat;
use crate::fleet::endless_run::closed;
use crate::fleet::fleet_run::{kit_of, rings};
use crate::fleet::one_place::all_stand_once;
use crate::fleet::run_fault::RunFault;
use crate::fleet::run_report::Report;
use crate::fleet::thread_seats::{seats_by_thread, seats_of};
use crate::fleet::thread_work::{Came, is_done, work_in_turn};
use eevdf_fleet::{Fleet, Kit, Names, endless};
use eevdf_ops::Outcome;
use std::alloc::AllocError;
use std::marker::Brand;
use std::sync::Wait;

/// What came of each operation of a run, and what the fleet is closed to.
#[derive(Drop)]
struct Twin {
    came: Vec<Came>,
    outcome: Outcome,
}

/// Does the operations of a run by both fleets, and tells whether they agree.
pub fn twins_report<R: Wait>(run: &DrawnRun<'_, R>) -> Result<Report, RunFault> {
    let kept = kept_twin::<Brand, R>(run, kit_of(run)?)?;
    let kit = endless::Kit::make(run.alloc, &run.setup, rings(&run.asked))?;
    let endless = endless_twin::<Brand, R>(run, kit)?;
    let agrees = agree(&kept, &endless) && all_stand_once(&endless.outcome, run.asked.tasks as u64);
    let done = endless.came.iter().filter(|came| is_done(came)).count();
    Ok(Report::compared(done as u64, agrees, "its twin"))
}

/// The run by a fleet that keeps its history.
fn kept_twin<N: Names, R: Wait>(run: &DrawnRun<'_, R>, kit: Kit) -> Result<Twin, RunFault>
    requires { kit ≡ N.kit }
{
    let (fleet, seats) = Fleet::<N>::open(run.alloc, kit)?;
    let (came, seats) = came_of(run, &fleet, seats)?;
    if !fleet.has_all_seats(&seats) {
        return Err(RunFault::Seats);
    }
    let outcome = fleet.close(seats);
    Ok(Twin { came, outcome })
}

/// The run by a fleet that keeps no history.
fn endless_twin<N: Names, R: Wait>(
    run: &DrawnRun<'_, R>,
    kit: endless::Kit,
) -> Result<Twin, RunFault>
    requires { kit ≡ N.kit }
{
    let (fleet, seats) = endless::Fleet::<N>::open(run.alloc, kit)?;
    let (came, seats) = came_of(run, &fleet, seats)?;
    let outcome = closed(run.alloc, fleet, seats)?;
    Ok(Twin { came, outcome })
}

/// Does the operations of a run with a fleet's seats, and gives what came of each, and the seats back.
fn came_of<S: DrawnSeat + Drop, R: Wait>(
    run: &DrawnRun<'_, R>,
    fleet: &S::Fleet,
    seats: Vec<S>,
) -> Result<(Vec<Came>, Vec<S>), AllocError> {
    let (rt, alloc, asked) = (run.rt, run.alloc, &run.asked);
    let mut threads = seats_by_thread(alloc, asked, seats)?;
    let came = work_in_turn(rt, alloc, fleet, asked.operations, threads.as_mut_slice())?;
    Ok((came, seats_of(alloc, threads)?))
}

/// Whether the same came of the operations, and the queues and the requests that are left are the same.
fn agree(one: &Twin, other: &Twin) -> bool {
    one.came == other.came
        && same_queues(&one.outcome, &other.outcome)
        && same_requests(&one.outcome, &other.outcome)
}

/// Whether the same requests are left.
fn same_requests(one: &Outcome, other: &Outcome) -> bool {
    if one.cpus() != other.cpus() {
        return false;
    }
    for sender in 0..one.cpus() {
        for home in 0..one.cpus() {
            if one.left(sender, home) != other.left(sender, home) {
                return false;
            }
        }
    }
    true
}
