//! What a CPU does that has nothing to run: it looks for work on the others, and what it does next on its queue is a pick. So the task that
//! it has pulled runs, and is pulled once for each turn that it takes. Where a wake came in between, or where a CPU pulled while it has
//! something to run, a task could be pulled from CPU to CPU without end, and never run.

ghost use Rattle.std.specs.Prelude.{◌≡◌, IfNone};
ghost use Rattle.eevdf_fleet.specs.EndlessSweeps.{HasNothing, NoneWasCrowded};
ghost use Rattle.eevdf_fleet.specs.Fleets.{setup_of};

use eevdf_fleet::Names;
use eevdf_fleet::endless::{Fleet, Seat};
use eevdf_queue::TaskId;
use std::sync::Wait;

/// Looks for work on the other CPUs. Where a CPU that has nothing to run finds none, no other one had two tasks when it was tried, but for
/// those whose task couldn't be placed in range.
pub fn find_work<N: Names, R: Wait>(rt: &R, fleet: &Fleet<N>, seat: &mut Seat<N>) -> Option<TaskId>
    ensures cpu { seat.new.cpu ≡ seat.old.cpu }
    ensures none { IfNone result (HasNothing (setup_of N.kit) seat.old
        → NoneWasCrowded (setup_of N.kit) seat.old seat.new) }
{
    fleet.find_work(rt, seat)
}
