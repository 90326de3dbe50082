//! What the operations of a fleet cost: `measures fleet WAY THREADS CPUS_A_THREAD TASKS MIX OPERATIONS SEED` lets each of so many threads
//! do so many operations of a mix, drawn from a seed, each on its own CPUs, and prints how many were done. `bench/threads.sh` measures it,
//! and `checks/agreement.py` compares such runs with those of one thread.

mod agreement;
mod asked_run;
mod drawn_operations;
mod drawn_run;
mod drawn_seat;
mod endless_run;
mod fleet_run;
mod mix;
mod one_place;
mod run_fault;
mod run_report;
mod solo_run;
mod thread_seats;
mod thread_work;
mod twins;
mod way;

use crate::endings::status_of;
pub use crate::fleet::asked_run::{AskedRun, WordFault};
use crate::fleet::drawn_run::DrawnRun;
use crate::fleet::endless_run::endless_report;
use crate::fleet::fleet_run::fleet_report;
use crate::fleet::run_fault::RunFault;
use crate::fleet::run_report::Report;
use crate::fleet::solo_run::solo_count;
use crate::fleet::twins::twins_report;
use crate::fleet::way::Way;
use std::alloc::Global;
use std::sync::Wait;
use std::thread::Threads;

/// Does the operations that are asked for and prints what came of them, and gives the exit status.
#[inline(never)]
pub fn measure<R: Print + Eprint + Threads + Wait + Sync>(
    rt: &R,
    alloc: Global,
    asked: &AskedRun,
) -> u8 {
    match outcome_of(rt, alloc, asked) {
        Ok(report) => print(rt, &report),
        Err(fault) => {
            let _ = eprintln!(rt; "measures fleet: {fault}");
            3
        }
    }
}

/// Does the operations that are asked for.
fn outcome_of<R: Threads + Wait + Sync>(
    rt: &R,
    alloc: Global,
    asked: &AskedRun,
) -> Result<Report, RunFault> {
    let run = DrawnRun::draw(rt, alloc, asked)?;
    match asked.way {
        Way::Fleet | Way::Check => fleet_report(&run),
        Way::Solo => Ok(Report::of(solo_count(&run)?)),
        Way::Endless => endless_report(&run),
        Way::Twins => twins_report(&run),
    }
}

/// Prints what came of a run, and gives the exit status.
fn print(rt: &impl Print, report: &Report) -> u8 {
    let done = report.done;
    let status = status_of(match report.agrees {
        None => println!(rt; "{done} operations"),
        Some((true, with)) => println!(rt; "{done} operations, agrees with {with}"),
        Some((false, with)) => println!(rt; "{done} operations, differs from {with}"),
    });
    if report.agrees.is_none_or(|(agrees, _)| agrees) {
        status
    } else {
        3
    }
}
