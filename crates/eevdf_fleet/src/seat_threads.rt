//! How a work is done with each of several seats, by a thread of its own.

ghost use Rattle.std.specs.Prelude.{ℕ, ◌<◌, IfOk, vec_len};
ghost use Rattle.eevdf_fleet.specs.SeatWorks.{AllFit, AreDone};

use crate::run_fault::RunFault;
use crate::seat_work::SeatWork;
use std::alloc::Global;
use std::marker::PhantomData;
use std::snapshot::Snapshot;
use std::sync::Wait;
use std::thread;
use std::thread::{Promise, Scope, Threads};

/// Does the work with each seat, each in a thread of its own, and gives the seats back, in order, when all threads have ended.
pub(crate) fn run_seats<'a, S: Send + Drop + 'a, R: Threads + Wait + Sync, W: SeatWork<S> + Sync>(
    rt: &'a R,
    alloc: Global,
    seats: Vec<S>,
    work: &'a W,
) -> Result<Vec<S>, RunFault>
    requires { AllFit (W.fits work.now) seats.items }
    ensures { IfOk result (λ done. AreDone (vec_len seats) (W.is_done work.now) done.items) }
{
    thread::scope(
        thread::scope_env(),
        rt,
        |scope| -> Result<Vec<S>, RunFault>
            requires { AllFit (W.fits work.now) seats.items }
            ensures { IfOk result (λ done.
                AreDone (vec_len seats) (W.is_done work.entry.now) done.items) }
        { run_in_threads(scope, rt, alloc, seats, work) },
    )
}

/// Does the work with each seat in a thread of the scope, and gives the seats back, in order.
fn run_in_threads<'s, E, S: Send + Drop + 's, R: Threads + Wait + Sync, W: SeatWork<S> + Sync>(
    scope: &'s Scope<'s, E>,
    rt: &'s R,
    alloc: Global,
    seats: Vec<S>,
    work: &'s W,
) -> Result<Vec<S>, RunFault>
    requires { AllFit (W.fits work.now) seats.items }
    ensures { IfOk result (λ done. AreDone (vec_len seats) (W.is_done work.now) done.items) }
{
    let mut threads = Vec::with_capacity(alloc, seats.len())?;
    let mut done = Vec::with_capacity(alloc, seats.len())?;
    for seat in seats {
        let number = threads.len();
        let promise = WorkDone::<S, W> {
            number,
            work: Snapshot::of(work),
            seats: PhantomData,
        };
        let run = move || work.work(rt, number, seat);
        let Ok(thread) = scope.spawn_with(promise, run) else {
            // the scope waits for the threads that have started, and those may wait for this one
            work.note_refused_thread();
            return Err(RunFault::Start);
        };
        threads.push_reserved(thread);
    }
    for thread in threads {
        done.push_reserved(thread.join(rt));
    }
    Ok(done)
}

/// Promises the seat of a number with which the work is done.
#[derive(Drop)]
struct WorkDone<S: Drop, W: SeatWork<S>> {
    number: usize,
    work: Snapshot<W>,
    seats: PhantomData<S>,
}

impl<S: Drop, W: SeatWork<S>> Promise<S> for WorkDone<S, W> {
    ghost kept_by = { λ p seat. W.is_done p.work.value p.number seat };
}
