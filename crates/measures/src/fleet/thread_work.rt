//! What each thread does: its operations, on its CPUs in turn.

use crate::fleet::drawn_operations::running_after;
use crate::fleet::drawn_run::DrawnRun;
use crate::fleet::drawn_seat::DrawnSeat;
use crate::fleet::run_fault::RunFault;
use crate::fleet::thread_seats::{ThreadSeats, done_by, seats_by_thread, seats_of, turn_after};
use eevdf_fleet::{Operated, Refused};
use std::alloc::{AllocError, Global};
use std::sync::Wait;
use std::thread;
use std::thread::Threads;

/// What came of an operation. `None` where the thread has no CPU.
pub type Came = Option<Result<Operated, Refused>>;

/// Whether an operation was done. A post is done too where the ring is full and the request is lost.
pub fn is_done(came: &Came) -> bool {
    matches!(came, Some(Ok(_) | Err(Refused::RingFull(_))))
}

/// Has the threads of a run do its operations with a fleet's seats, and gives how many were done, and the seats back.
pub fn worked<F: Sync, S: DrawnSeat<Fleet = F> + Drop + Send, R: Threads + Wait + Sync>(
    run: &DrawnRun<'_, R>,
    fleet: &F,
    seats: Vec<S>,
) -> Result<(u64, Vec<S>), RunFault> {
    let threads = seats_by_thread(run.alloc, &run.asked, seats)?;
    let (rt, operations) = (run.rt, run.asked.operations);
    let threads = thread::map_vec(
        rt,
        threads,
        &move |own| { work::<S, R>(rt, fleet, operations, own) },
    )?;
    let done = done_by(threads.as_slice());
    Ok((done, seats_of(run.alloc, threads)?))
}

/// Does so many operations, and counts those that were done.
fn work<S: DrawnSeat + Drop, R: Wait>(
    rt: &R,
    fleet: &S::Fleet,
    operations: u64,
    mut own: ThreadSeats<S>,
) -> ThreadSeats<S> {
    for _number in 0..operations {
        if is_done(&step(rt, fleet, &mut own)) {
            own.done = own.done.wrapping_add(1);
        }
    }
    own
}

/// Does the operations of all threads in this one, one of each thread in turn, and gives what came of each.
pub fn work_in_turn<S: DrawnSeat + Drop, R: Wait>(
    rt: &R,
    alloc: Global,
    fleet: &S::Fleet,
    operations: u64,
    threads: &mut [ThreadSeats<S>],
) -> Result<Vec<Came>, AllocError> {
    let mut came = Vec::new(alloc);
    for _number in 0..operations {
        for own in threads.iter_mut() {
            came.push(step(rt, fleet, own))?;
        }
    }
    Ok(came)
}

/// Does the next operation of a thread, on its CPUs in turn.
#[inline(always)]
fn step<S: DrawnSeat + Drop, R: Wait>(rt: &R, fleet: &S::Fleet, own: &mut ThreadSeats<S>) -> Came {
    let turn = own.turn;
    own.turn = turn_after(turn, own.seats.len());
    let held = own.seats.get_mut(turn)?;
    let operation = own.drawn.next(held.seat.own_cpu(), held.running);
    let came = held.seat.operate(rt, fleet, operation);
    if let Ok(Operated::Answer(answer)) = &came {
        held.running = running_after(held.running, *answer);
    }
    Some(came)
}
