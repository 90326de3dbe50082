//! What it costs to look for work where there is none: `idle_sweeps CPUS SWEEPS` has the last of so many CPUs look for work so many times,
//! while the first has one task, which waits, and the others have none, and prints how often none was found. `bench/count` counts its
//! instructions.
#![tactic(auto)]

mod asked_sweeps;

ghost use Rattle.std.specs.Prelude.{◌≡◌};

use crate::asked_sweeps::AskedSweeps;
use drawn_values::words_of;
use eevdf_fleet::Names;
use eevdf_fleet::endless::{Fleet, Kit};
use eevdf_ops::{CpuId, Setup, TaskSpec};
use eevdf_weight::{Nice, Slice};
use std::alloc::{AllocError, Global};
use std::marker::Brand;
use std::process::ExitCode;
use std::rt::Env;
use std::sync::Wait;

fn main(rt: HostRuntime) -> ExitCode {
    let alloc = rt.alloc();
    ExitCode::from(match asked(&rt, alloc) {
        Some(asked) => print_count(&rt, alloc, &asked),
        None => refuse(&rt),
    })
}

/// The sweeps that the process's words ask for.
fn asked(rt: &(impl Env + AllocGlobal), alloc: Global) -> Option<AskedSweeps> {
    let words = words_of(rt, alloc)?;
    AskedSweeps::of(words.as_slice())
}

/// Makes the sweeps, prints how many found nothing, and gives the exit status.
fn print_count<R: Print + Eprint + Wait>(rt: &R, alloc: Global, asked: &AskedSweeps) -> u8 {
    let Ok(count) = sweep(rt, alloc, asked) else {
        let _ = rt.eprintln("idle_sweeps: out of memory");
        return 3;
    };
    match println!(rt; "{count} sweeps found nothing") {
        Ok(()) => 0,
        Err(_) => 3,
    }
}

/// How many of the sweeps found nothing.
fn sweep<R: Wait>(rt: &R, alloc: Global, asked: &AskedSweeps) -> Result<u64, AllocError> {
    let setup = one_task(alloc, asked.cpus)?;
    let kit = Kit::make(alloc, &setup, 1)?;
    sweep_on::<Brand, R>(rt, alloc, kit, asked.sweeps)
}

fn sweep_on<N: Names, R: Wait>(
    rt: &R,
    alloc: Global,
    kit: Kit,
    sweeps: u64,
) -> Result<u64, AllocError>
    requires { kit ≡ N.kit }
{
    let (fleet, mut seats) = Fleet::<N>::open(alloc, kit)?;
    let Some(last) = seats.last_mut() else {
        return Ok(0);
    };
    let mut count: u64 = 0;
    for _sweep in 0..sweeps {
        if fleet.find_work(rt, last).is_none() {
            count = count.saturating_add(1);
        }
    }
    Ok(count)
}

/// So many CPUs, of which the first has a task.
fn one_task(alloc: Global, cpus: usize) -> Result<Setup, AllocError> {
    let task = TaskSpec {
        home: CpuId::new(0).unwrap(),
        nice: Nice::new(0).unwrap(),
        slice: Slice::new(3_000_000).unwrap(),
        start: 0,
        asleep: false,
    };
    let mut programs = Vec::new(alloc);
    for _cpu in 0..cpus {
        programs.push(Vec::new(alloc))?;
    }
    Setup::make(alloc, &[task], &programs).map_err(|_| AllocError)
}

/// Says how the program is used, and gives the exit status.
fn refuse(rt: &impl Eprint) -> u8 {
    let _ = rt.eprintln(
        "idle_sweeps: from 2 to 64 CPUs and a number of sweeps are wanted; usage: idle_sweeps CPUS SWEEPS",
    );
    2
}
