//! How a CPU that has nothing to run finds work at another one.

ghost use Rattle.std.specs.Prelude.{◌≡◌, ◌+◌, ◌<◌, ◌↔◌, IsErr, MatchResult};
ghost use Rattle.eevdf_ops.specs.Setup.{cpus_of};
ghost use Rattle.eevdf_fleet.specs.{Fleets.setup_of, Sweeps.HasSwept};

use crate::fleet::{Fleet, SeatFull};
use crate::names::Names;
use crate::seat::Seat;
use eevdf_ops::Answer;
use eevdf_queue::TaskId;
use std::sync::Wait;

impl<N: Names> Fleet<N> {
    /// For a CPU that has nothing to run: pulls from each other CPU in turn, from the one after the seat's own on and round to the one
    /// before it, until one gives a task, and gives that. `None`: each of them was tried, and none gave one. So none of them had two tasks
    /// when it was tried, or the one that it offered couldn't be placed in range (`try_tells` of eevdf_balance). `SeatFull` where the room
    /// is less than the number of the other CPUs, however many are tried.
    pub fn find_work<R: Wait>(&self, rt: &R, seat: &mut Seat<N>) -> Result<Option<TaskId>, SeatFull>
        ensures cases { MatchResult result
            (λ found. HasSwept (cpus_of (setup_of N.kit)) found seat.old seat.new)
            (λ _. seat.new ≡ seat.old) }
        ensures full { IsErr result ↔ (seat.old.room + 1 < cpus_of (setup_of N.kit)) }
    {
        let cpu = seat.cpu();
        let cpus = self.queues.cpus();
        if seat.room() < cpus - 1 {
            return Err(SeatFull);
        }
        for steps in 1..cpus {
            let source = self.queues.cpu_after(cpu, steps);
            if let Answer::Pulled(task) = self.pull(rt, seat, source).unwrap() {
                return Ok(Some(task));
            }
        }
        Ok(None)
    }
}
