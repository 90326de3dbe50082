//! Seats of fleets of both kinds, with a history and without, on which tests make the same calls.

use crate::operation_texts::calls_of;
use eevdf_fleet::{Fleet, Names, Operated, Refused, Seat, endless};
use eevdf_ops::{CpuId, Op};
use eevdf_queue::TaskId;
use std::alloc::Global;
use std::process::Abort;
use std::sync::Wait;

/// What comes of a call.
pub type Came = Result<Operated, Refused>;

/// A seat that makes calls.
pub trait CallingSeat {
    /// The fleet that the seat is of.
    type Fleet;

    /// Does an operation, and asks that its answer stands in the seat's log, where it has one.
    fn call<R: Wait + Abort>(&mut self, rt: &R, fleet: &Self::Fleet, operation: Op) -> Came;

    /// Posts a request, where the setup has the task. It has no handle `Wait`, so it compiles only as long as a post doesn't wait.
    fn posted(&mut self, fleet: &Self::Fleet, task: TaskId) -> Option<Operated>;

    /// What the fleet says is the home of a task.
    fn home_of(fleet: &Self::Fleet, task: TaskId) -> Option<CpuId>;
}

impl<N: Names> CallingSeat for Seat<N> {
    type Fleet = Fleet<N>;

    fn call<R: Wait + Abort>(&mut self, rt: &R, fleet: &Fleet<N>, operation: Op) -> Came {
        let came = fleet.try_operate(rt, self, operation);
        assert!(rt; is_logged(self, &came), "{operation}");
        came
    }

    fn posted(&mut self, fleet: &Fleet<N>, task: TaskId) -> Option<Operated> {
        if fleet.has_task(task) && self.post(task).is_ok() {
            Some(Operated::Posted)
        } else {
            None
        }
    }

    fn home_of(fleet: &Fleet<N>, task: TaskId) -> Option<CpuId> {
        fleet.home_of(task)
    }
}

/// Whether an answer is that of the seat's last line.
fn is_logged<N: Names>(seat: &Seat<N>, came: &Came) -> bool {
    match came {
        Ok(Operated::Answer(answer)) => match seat.log().last() {
            Some(line) => line.answer == *answer,
            None => false,
        },
        _ => true,
    }
}

impl<N: Names> CallingSeat for endless::Seat<N> {
    type Fleet = endless::Fleet<N>;

    fn call<R: Wait + Abort>(&mut self, rt: &R, fleet: &endless::Fleet<N>, operation: Op) -> Came {
        fleet.try_operate(rt, self, operation)
    }

    fn posted(&mut self, fleet: &endless::Fleet<N>, task: TaskId) -> Option<Operated> {
        if fleet.has_task(task) && self.post(task).is_ok() {
            Some(Operated::Posted)
        } else {
            None
        }
    }

    fn home_of(fleet: &endless::Fleet<N>, task: TaskId) -> Option<CpuId> {
        fleet.home_of(task)
    }
}

/// What came of a call, as it is printed.
fn text_of(rt: &impl Abort, alloc: Global, came: &Came) -> String {
    let text = match came {
        Ok(operated) => format!(in alloc; "{operated}"),
        Err(refused) => format!(in alloc; "{refused}"),
    };
    text.expect(rt, "memory")
}

/// Makes the calls of a case, each on the seat of a CPU, and asks that what comes of each is printed as is told.
pub fn make_told_calls<S: CallingSeat, R: Wait + Abort>(
    rt: &R,
    alloc: Global,
    fleet: &S::Fleet,
    seats: &mut [S],
    case: &str,
    calls: &[(usize, &'static str, &'static str)],
) {
    for (cpu, operation, text) in calls_of(rt, alloc, calls) {
        let seat = seats.get_mut(cpu).expect(rt, "seat");
        let came = seat.call(rt, fleet, operation);
        assert!(rt;
            text_of(rt, alloc, &came).as_str() == text,
            "{case}: {text}"
        );
    }
}
