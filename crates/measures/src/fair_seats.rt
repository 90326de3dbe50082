//! How late the requests of each CPU of a fleet can be, by what its thread keeps beside its seat: `measures fair-seats ROUNDS` has two
//! threads run a CPU each for so many picks, with turns of 2 ms on the one and of 4 ms on the other, and prints for each by how much the
//! virtual time can be past the deadline of a request there.

mod asked_rounds;
mod rounds;
mod seat_rounds;

use crate::endings::fail;
pub use crate::fair_seats::asked_rounds::AskedRounds;
use crate::fair_seats::seat_rounds::SeatRounds;
use crate::machines::machine_of;
use eevdf_fleet::RunFault;
use eevdf_fleet::endless::{Kit, run_turns};
use eevdf_ops::{CpuId, Setup, TaskSpec};
use eevdf_weight::{Nice, Slice};
use std::alloc::{AllocError, Global};
use std::sync::Wait;
use std::thread::Threads;

/// Has the threads run, prints a line for each CPU, and gives the exit status.
#[inline(never)]
pub fn measure<R: Print + Eprint + Threads + Wait + Sync>(
    rt: &R,
    alloc: Global,
    asked: AskedRounds,
) -> u8 {
    let Ok(work) = run(rt, alloc, asked.rounds) else {
        return fail(rt, "fair-seats", "out of memory, or no thread was started");
    };
    for cpu in 0..2 {
        let Some(bound) = work.bound(cpu) else {
            return 1;
        };
        let Ok(()) = println!(rt; "cpu {cpu}: no request is later than {bound}") else {
            return 3;
        };
    }
    0
}

/// What the threads leave.
fn run<R: Threads + Wait + Sync>(
    rt: &R,
    alloc: Global,
    rounds: u64,
) -> Result<SeatRounds, RunFault> {
    let setup = two_cpus(alloc)?;
    let kit = Kit::make(alloc, &setup, 1)?;
    let work = SeatRounds::new(alloc, rounds)?;
    let _ = run_turns(rt, alloc, kit, &work)?;
    Ok(work)
}

/// Two CPUs, each with a task of nice level -5, one of 0 and one of 5.
fn two_cpus(alloc: Global) -> Result<Setup, AllocError> {
    let mut tasks = Vec::new(alloc);
    for cpu in 0..2 {
        for level in [-5, 0, 5] {
            tasks.push(TaskSpec {
                home: CpuId::new(cpu).unwrap(),
                nice: Nice::new(level).unwrap(),
                slice: Slice::new(3_000_000).unwrap(),
                start: 0,
                asleep: false,
            })?;
        }
    }
    machine_of(alloc, &tasks, 2)
}
