//! Makes each of the library's calls that take memory on the workload from standard input, and then those that take none. A
//! call that is refused memory is made once more on the same arguments. Printed is which call is made, whether it was
//! refused, and what it answered, so that `checks/refused/check.py`, which refuses its requests in turn, can compare.
//!
//! What it does itself takes no memory, but for the lists that calls are given: what is refused is a call's own request.
#![tactic(auto)]

mod called;
mod every_operation;
mod fleet_calls;
mod fleet_operations;
mod player_calls;
mod player_lines;
mod queue_calls;
mod queue_lines;
mod queue_moves;
mod setup_calls;
mod solo_calls;
mod solo_deeds;
mod stopped;
mod text_calls;
mod turn_calls;

use crate::called::{called, say_call};
use crate::fleet_calls::{fleet_calls, run_calls};
use crate::player_calls::{play_calls, player_calls};
use crate::queue_calls::queue_calls;
use crate::setup_calls::{copied_setup, copy_calls};
use crate::solo_calls::{script_calls, solo_calls};
use crate::stopped::Stopped;
use crate::text_calls::{engine_calls, fault_calls, text_calls};
use crate::turn_calls::turn_calls;
use eevdf_bench::{LoadFault, Workload, read_workload};
use eevdf_ops::{Setup, SetupFault};
use std::alloc::Global;
use std::io::Read;
use std::process::ExitCode;
use std::sync::Wait;
use std::thread::Threads;

/// The longest workload that is taken.
const MOST_BYTES: usize = 4096;

fn main(rt: HostRuntime) -> ExitCode {
    let mut buffer = [0u8; MOST_BYTES];
    let Ok(count) = rt.reader().read(&mut buffer) else {
        return ExitCode::from(3);
    };
    ExitCode::from(match all_calls(&rt, rt.alloc(), &buffer[..count]) {
        Ok(()) => 0,
        Err(Stopped) => 3,
    })
}

fn all_calls<R: Print + Threads + Wait + Sync>(
    rt: &R,
    alloc: Global,
    bytes: &[u8],
) -> Result<(), Stopped> {
    let workload = read(rt, alloc, bytes)?;
    calls_on_workload(rt, alloc, bytes, &workload)?;
    calls_on_copy(rt, alloc, workload.setup())?;
    say_call(rt, "end");
    Ok(())
}

fn read(rt: &impl Print, alloc: Global, bytes: &[u8]) -> Result<Workload, Stopped> {
    let workload = called!(
        rt,
        "read_workload",
        Err(LoadFault::Memory | LoadFault::Setup(SetupFault::Memory)),
        read_workload(alloc, bytes)
    );
    workload.map_err(|_| Stopped)
}

fn calls_on_workload<R: Print + Threads + Wait + Sync>(
    rt: &R,
    alloc: Global,
    bytes: &[u8],
    workload: &Workload,
) -> Result<(), Stopped> {
    fault_calls(rt, alloc)?;
    text_calls(rt, alloc, workload)?;
    engine_calls(rt, alloc, bytes)?;
    script_calls(rt, alloc, workload)?;
    play_calls(rt, alloc, workload)
}

/// The calls on a copy of a setup.
fn calls_on_copy<R: Print + Threads + Wait + Sync>(
    rt: &R,
    alloc: Global,
    setup: &Setup,
) -> Result<(), Stopped> {
    let copy = copied_setup(rt, alloc, setup)?;
    calls_on_setup(rt, alloc, &copy)
}

fn calls_on_setup<R: Print + Threads + Wait + Sync>(
    rt: &R,
    alloc: Global,
    setup: &Setup,
) -> Result<(), Stopped> {
    copy_calls(rt, alloc, setup)?;
    run_calls(rt, alloc, setup)?;
    turn_calls(rt, alloc, setup)?;
    queue_calls(rt, alloc)?;
    solo_calls(rt, alloc, setup)?;
    player_calls(rt, alloc, setup)?;
    fleet_calls(rt, alloc, setup)
}
