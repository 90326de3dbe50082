//! A run by a fleet: each thread does the operations of its own CPUs.

ghost use Rattle.std.specs.Prelude.{◌≡◌, ◌≤◌, IfOk};
ghost use Rattle.eevdf_fleet.specs.Fleets.{setup_of};

use crate::fleet::agreement::agrees;
use crate::fleet::asked_run::{AskedRun, MOST_KEPT};
use crate::fleet::drawn_run::DrawnRun;
use crate::fleet::mix::Mix;
use crate::fleet::one_place::all_stand_once;
use crate::fleet::run_fault::RunFault;
use crate::fleet::run_report::Report;
use crate::fleet::thread_work::worked;
use crate::fleet::way::Way;
use eevdf_fleet::{Fleet, Kit, Names};
use std::alloc::AllocError;
use std::marker::Brand;
use std::sync::Wait;
use std::thread::Threads;

/// Does the operations of a run, and tells what came of it.
pub fn fleet_report<R: Threads + Wait + Sync>(run: &DrawnRun<'_, R>) -> Result<Report, RunFault> {
    report_of::<Brand, R>(run, kit_of(run)?)
}

/// What is told of a run, and of its comparison with one thread where that is asked for.
fn report_of<N: Names + Send + Sync, R: Threads + Wait + Sync>(
    run: &DrawnRun<'_, R>,
    kit: Kit,
) -> Result<Report, RunFault>
    requires kit { kit ≡ N.kit }
    requires setup { setup_of kit ≡ run.now.setup }
{
    let (fleet, seats) = Fleet::<N>::open(run.alloc, kit)?;
    let (done, seats) = worked(run, &fleet, seats)?;
    if !fleet.has_all_seats(&seats) {
        return Err(RunFault::Seats);
    }
    let outcome = fleet.close(seats);
    if run.asked.way != Way::Check {
        return Ok(Report::of(done));
    }
    let agrees = agrees(run.alloc, &run.setup, &outcome)?
        && all_stand_once(&outcome, run.asked.tasks as u64);
    Ok(Report::compared(done, agrees, "one thread"))
}

/// The kit of a fleet that has room for a run.
pub fn kit_of<R>(run: &DrawnRun<'_, R>) -> Result<Kit, AllocError>
    ensures { IfOk result (λ kit. setup_of kit ≡ run.now.setup) }
{
    Kit::make(run.alloc, &run.setup, quota(&run.asked), rings(&run.asked))
}

/// How many lines a CPU may have: one for each of its operations, and room for the wakes that others ask for. No run with a history
/// has more operations than `MOST_KEPT`.
fn quota(run: &AskedRun) -> usize
    ensures some { 1 ≤ result }
    ensures few { result ≤ 1000000 }
{
    let operations = run.operations.min(MOST_KEPT);
    let own = (operations / run.cpus_a_thread as u64) as usize + 1;
    match run.mix {
        Mix::Own | Mix::Pulls => own,
        Mix::Wakes | Mix::Comes => 2 * own + 128,
        // a drain may take a line for each CPU
        Mix::All => (own * run.cpus()).min(1_000_000),
    }
}

/// How many requests to a home a CPU may have posted that the home has not taken yet.
pub fn rings(run: &AskedRun) -> usize
    ensures some { 1 ≤ result }
    ensures few { result ≤ 1000000 }
{
    match run.mix {
        Mix::All => 4,
        _ => quota(run).min(4096),
    }
}
