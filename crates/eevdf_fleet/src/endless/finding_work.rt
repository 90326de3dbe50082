//! How a CPU that has nothing to run finds work at another one.

ghost use Rattle.std.specs.Prelude.{IfNone};
ghost use Rattle.eevdf_fleet.specs.EndlessSweeps.{HasNothing, HasSwept, NoneWasCrowded};
ghost use Rattle.eevdf_fleet.specs.Fleets.{setup_of};

use crate::endless::fleet::Fleet;
use crate::endless::seat::Seat;
use crate::names::Names;
use eevdf_ops::Answer;
use eevdf_queue::TaskId;
use std::sync::Wait;

impl<N: Names> Fleet<N> {
    /// For a CPU that has nothing to run: pulls from each other CPU in turn, from the one after the seat's own on and round to the one
    /// before it, until one gives a task, and gives that. `None`: each of them was tried, and none gave one. So none of them had two tasks
    /// when it was tried, or the one that it offered couldn't be placed in range (`try_tells` of eevdf_balance).
    pub fn find_work<R: Wait>(&self, rt: &R, seat: &mut Seat<N>) -> Option<TaskId>
        ensures swept { HasSwept (setup_of N.kit) result seat.old seat.new }
        ensures idle { IfNone result (HasNothing (setup_of N.kit) seat.old
            → NoneWasCrowded (setup_of N.kit) seat.old seat.new) }
    {
        seat.parts.know();
        let cpu = seat.cpu();
        for steps in 1..self.cpus() {
            let source = self.queues.cpu_after(cpu, steps);
            if let Answer::Pulled(task) = self.pull(rt, seat, source) {
                return Some(task);
            }
        }
        None
    }
}
