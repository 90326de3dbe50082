//! What is measured of the library: what its calls cost, what they leave behind, and by how much requests can be late.
//! `measures WHAT WORD..` measures one thing:
//!
//! | WHAT | WORD.. | What is measured |
//! |---|---|---|
//! | `queue` | `MIX TASKS TURNS` | the calls of one run queue |
//! | `fleet` | `WAY THREADS CPUS_A_THREAD TASKS MIX OPERATIONS SEED` | the operations of a fleet, by threads or compared with one |
//! | `fair-loop` | `kernel SEED STEPS PROMISED`, `fair MIX TASKS TURNS`, `plain MIX TASKS TURNS` | the loop of a kernel on a fair queue |
//! | `fair-seats` | `ROUNDS` | how late the requests of each CPU of a fleet can be |
//! | `dropped-queue` | `RUNNABLE ASLEEP` | what a queue leaves behind |
//!
//! Each has a module of its name, which says more. The words are let go before it begins, and it is never compiled into `main`: what it
//! takes of memory, stack and instructions is its own.
#![tactic(auto)]

mod asked;
mod dropped_queue;
mod endings;
mod fair_loop;
mod fair_seats;
mod fleet;
mod machines;
mod queue;
mod refused_parcels;

use crate::asked::{Asked, WordFault};
use std::alloc::Global;
use std::process::ExitCode;
use std::sync::Wait;
use std::thread::Threads;

fn main(rt: HostRuntime) -> ExitCode {
    ExitCode::from(match Asked::read(&rt) {
        Ok(asked) => measure(&rt, rt.alloc(), &asked),
        Err(fault) => refuse(&rt, &fault),
    })
}

/// Measures what is asked for, and gives the exit status.
fn measure<R: Print + Eprint + Threads + Wait + Sync>(rt: &R, alloc: Global, asked: &Asked) -> u8 {
    match asked {
        Asked::Queue(run) => queue::measure(rt, alloc, run),
        Asked::Fleet(run) => fleet::measure(rt, alloc, run),
        Asked::FairLoop(run) => fair_loop::measure(rt, alloc, run),
        Asked::FairSeats(rounds) => fair_seats::measure(rt, alloc, *rounds),
        Asked::DroppedQueue(tasks) => dropped_queue::measure(rt, alloc, tasks),
    }
}

/// Says what is wrong with the words, and gives the exit status.
fn refuse(rt: &impl Eprint, fault: &WordFault) -> u8 {
    let _ = eprintln!(rt; "{fault}");
    2
}
