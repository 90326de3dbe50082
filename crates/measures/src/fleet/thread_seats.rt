//! The threads of a run: each with the seats of its CPUs, in order.

ghost use Rattle.std.specs.Prelude.{◌<◌};

use crate::fleet::asked_run::AskedRun;
use crate::fleet::drawn_operations::DrawnOperations;
use eevdf_queue::TaskId;
use std::alloc::{AllocError, Global};
use std::vec::IntoIter;

/// A seat, and the task that runs on its CPU. The unused bytes keep it off the cache lines of the seats of another thread.
#[derive(Drop)]
#[repr(C)]
pub struct HeldSeat<S: Drop> {
    pub seat: S,
    pub running: Option<TaskId>,
    unused: [u64; 8],
}

/// What a thread has: its operations, the seats of its CPUs, which of them has the next operation, and how many operations it has done.
#[derive(Drop)]
pub struct ThreadSeats<S: Drop> {
    pub drawn: DrawnOperations,
    pub seats: Vec<HeldSeat<S>>,
    pub turn: usize,
    pub done: u64,
}

/// Whose turn it is after this one, of so many that take turns.
#[inline(always)]
pub fn turn_after(turn: usize, count: usize) -> usize {
    let next = turn.wrapping_add(1);
    if next < count { next } else { 0 }
}

/// Hands the seats to the threads.
pub fn seats_by_thread<S: Drop>(
    alloc: Global,
    run: &AskedRun,
    seats: Vec<S>,
) -> Result<Vec<ThreadSeats<S>>, AllocError> {
    let mut others = seats.into_iter();
    let mut threads = Vec::with_capacity(alloc, run.threads)?;
    for thread in 0..run.threads {
        threads.push(thread_seats(alloc, run, thread, &mut others)?)?;
    }
    Ok(threads)
}

/// What a thread has, of the seats that no other has been handed.
fn thread_seats<S: Drop>(
    alloc: Global,
    run: &AskedRun,
    thread: usize,
    others: &mut IntoIter<S>,
) -> Result<ThreadSeats<S>, AllocError>
    requires { thread < run.now.threads }
{
    let drawn = DrawnOperations::new(run, thread);
    let mut seats = Vec::with_capacity(alloc, run.cpus_a_thread)?;
    for _seat in 0..run.cpus_a_thread {
        if let Some(seat) = others.next() {
            seats.push(HeldSeat {
                seat,
                running: None,
                unused: [0; 8],
            })?;
        }
    }
    Ok(ThreadSeats {
        drawn,
        seats,
        turn: 0,
        done: 0,
    })
}

/// Takes the seats back.
pub fn seats_of<S: Drop>(
    alloc: Global,
    threads: Vec<ThreadSeats<S>>,
) -> Result<Vec<S>, AllocError> {
    let mut seats = Vec::with_capacity(alloc, 64)?;
    for own in threads {
        seats.extend(own.seats.into_iter().map(|held| held.seat))?;
    }
    Ok(seats)
}

/// How many operations all threads have done.
pub fn done_by<S: Drop>(threads: &[ThreadSeats<S>]) -> u64 {
    let mut done = 0u64;
    for own in threads {
        done = done.saturating_add(own.done);
    }
    done
}
