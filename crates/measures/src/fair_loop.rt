//! The loop of a kernel on a fair queue: `measures fair-loop kernel SEED STEPS PROMISED` makes so many calls that are drawn from a seed,
//! reads after each by how much a request can be late, and stops where that is above the promised number, in virtual time. It prints how
//! many calls were made, the greatest number that was read, and the most nanoseconds that a task lacked of its share since it came.
//!
//! `measures fair-loop fair MIX TASKS TURNS` makes turns of picks and ticks on a fair queue, and `measures fair-loop plain MIX TASKS TURNS`
//! the same on a queue. `bench/count` counts their instructions.

mod asked_run;
mod counted_queue;
mod counted_turns;
mod drawn_calls;
mod kernel;
mod lacks;

use crate::endings::{fail, status_of};
pub use crate::fair_loop::asked_run::{AskedRun, WordFault};
use crate::fair_loop::asked_run::{AskedKernel, AskedTurns};
use crate::fair_loop::counted_turns::sum_of;
use crate::fair_loop::kernel::{Kernel, Stopped};
use drawn_values::Draws;
use std::alloc::Global;

/// Runs the kernel or makes the turns, and gives the exit status.
#[inline(never)]
pub fn measure(rt: &(impl Print + Eprint), alloc: Global, asked: &AskedRun) -> u8 {
    match asked {
        AskedRun::Kernel(asked) => run_kernel(rt, alloc, asked),
        AskedRun::Turns(asked) => make_turns(rt, alloc, asked),
    }
}

/// Runs the kernel, prints how far it came, and gives the exit status: 1 where it has stopped.
fn run_kernel(rt: &impl Print, alloc: Global, asked: &AskedKernel) -> u8 {
    let mut kernel = Kernel::open();
    let mut draws = Draws::new(asked.seed, 0);
    let (done, status) = match kernel.run(alloc, &mut draws, asked.steps, asked.promised) {
        Ok(()) => (asked.steps, 0),
        Err(Stopped { after }) => (after, 1),
    };
    let (steps, greatest, lack) = (asked.steps, kernel.greatest, kernel.lacks.greatest);
    match println!(rt; "{done} of {steps} steps, greatest bound {greatest}, greatest lack {lack}") {
        Ok(()) => status,
        Err(_) => 3,
    }
}

/// Makes the turns, prints the sum of their answers, and gives the exit status.
fn make_turns(rt: &(impl Print + Eprint), alloc: Global, asked: &AskedTurns) -> u8 {
    match sum_of(alloc, asked) {
        Ok(sum) => status_of(println!(rt; "{sum}")),
        Err(_) => fail(rt, "fair-loop", "out of memory"),
    }
}
