//! A run by a fleet that keeps no history: each thread does the operations of its own CPUs.

ghost use Rattle.std.specs.Prelude.{◌≡◌, ◌≤◌};

use crate::fleet::asked_run::AskedRun;
use crate::fleet::drawn_run::DrawnRun;
use crate::fleet::mix::Mix;
use crate::fleet::one_place::all_stand_once;
use crate::fleet::run_fault::RunFault;
use crate::fleet::run_report::Report;
use crate::fleet::thread_work::worked;
use eevdf_fleet::Names;
use eevdf_fleet::endless::{Closed, Fleet, Kit, Seat};
use eevdf_ops::Outcome;
use std::alloc::Global;
use std::marker::Brand;
use std::sync::Wait;
use std::thread::Threads;

/// Does the operations of a run, and tells how many were done, where each task stands in one place afterwards.
pub fn endless_report<R: Threads + Wait + Sync>(run: &DrawnRun<'_, R>) -> Result<Report, RunFault> {
    let kit = Kit::make(run.alloc, &run.setup, rings(&run.asked))?;
    let (done, outcome) = worked_out::<Brand, R>(run, kit)?;
    if !all_stand_once(&outcome, run.asked.tasks as u64) {
        return Err(RunFault::Places);
    }
    Ok(Report::of(done))
}

/// How many requests to a home a CPU may have posted that the home has not taken yet.
fn rings(run: &AskedRun) -> usize
    ensures some { 1 ≤ result }
    ensures few { result ≤ 1000000 }
{
    match run.mix {
        Mix::All => 4,
        _ => 64,
    }
}

/// How many operations were done, and what the fleet is closed to.
fn worked_out<N: Names + Send + Sync, R: Threads + Wait + Sync>(
    run: &DrawnRun<'_, R>,
    kit: Kit,
) -> Result<(u64, Outcome), RunFault>
    requires { kit ≡ N.kit }
{
    let (fleet, seats) = Fleet::<N>::open(run.alloc, kit)?;
    let (done, seats) = worked(run, &fleet, seats)?;
    Ok((done, closed(run.alloc, fleet, seats)?))
}

/// Closes a fleet, and gives its queues and requests as an outcome without lines.
pub fn closed<N: Names>(
    alloc: Global,
    fleet: Fleet<N>,
    seats: Vec<Seat<N>>,
) -> Result<Outcome, RunFault> {
    if !fleet.has_all_seats(&seats) {
        return Err(RunFault::Seats);
    }
    let Closed { queues, left } = fleet.close(seats);
    let cpus = queues.len();
    if cpus <= 64 && left.len() == cpus * cpus {
        Ok(Outcome::of(Vec::new(alloc), queues, left))
    } else {
        Err(RunFault::Places)
    }
}
