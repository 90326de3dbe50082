//! The comparison of a fleet's outcome with that of one thread that does the deeds of its history.

ghost use Rattle.std.specs.Prelude.{◌≡◌, IfOk, IsTrue, true};
ghost use Rattle.std.specs.List.{list_all};
ghost use Rattle.eevdf_ops.specs.Histories.{IsOneThread};
ghost use Rattle.eevdf_ops.specs.Machine.{start};
ghost use Rattle.eevdf_ops.specs.Outcome.{machine_of};
ghost use Rattle.eevdf_ops.specs.Programs.{deeds_of};
ghost use Rattle.eevdf_ops.specs.Setup.{allows, homes_of};

use eevdf_ops::one_thread::solo;
use eevdf_ops::{Deed, Outcome, Setup};
use eevdf_queue::{Queue, TaskId};
use std::alloc::{AllocError, Global};

/// The numbers of tasks are below this.
const NUMBERS: u64 = 1024;

/// Whether one thread that does the same deeds gives the same answers, and leaves the same queues. It is proved that it
/// does, so another answer tells of what no proof covers, as the compiler.
pub fn agrees(alloc: Global, setup: &Setup, outcome: &Outcome) -> Result<bool, AllocError>
    requires allowed { list_all (allows setup.now) (deeds_of outcome.now.lines) ≡ true }
    requires one_thread { IsOneThread (homes_of setup.now) (start setup.now)
        (deeds_of outcome.now.lines) outcome.now }
    ensures { IfOk result (λ same. IsTrue same) }
{
    let deeds = deeds_of(alloc, outcome)?;
    let alone = solo(alloc, setup, &deeds)?;
    Ok(same_outcomes(&alone, outcome))
}

fn deeds_of(alloc: Global, outcome: &Outcome) -> Result<Vec<Deed>, AllocError>
    ensures { IfOk result (λ deeds. deeds.items ≡ deeds_of outcome.now.lines) }
{
    outcome
        .history()
        .iter()
        .map(|line| line.deed)
        .collect(alloc)
}

fn same_outcomes(one: &Outcome, other: &Outcome) -> bool
    ensures { one.now.lines ≡ other.now.lines
        → machine_of one.now.queues ≡ machine_of other.now.queues → IsTrue result }
{
    one.history() == other.history() && same_queues(one, other)
}

/// Whether all that is told of the queues is the same.
pub fn same_queues(one: &Outcome, other: &Outcome) -> bool
    ensures { machine_of one.now.queues ≡ machine_of other.now.queues → IsTrue result }
{
    if one.cpus() != other.cpus() {
        return false;
    }
    for cpu in 0..one.cpus() {
        if !same_queue(one.queue(cpu), other.queue(cpu)) {
            return false;
        }
    }
    true
}

/// Whether all that is told of a queue is the same.
fn same_queue(one: &Queue, other: &Queue) -> bool
    ensures { one.now.state ≡ other.now.state → IsTrue result }
{
    if one.running() != other.running()
        || one.load() != other.load()
        || one.floor_time() != other.floor_time()
    {
        return false;
    }
    for number in 0..NUMBERS {
        if let Some(task) = TaskId::new(number)
            && !same_task(one, other, task)
        {
            return false;
        }
    }
    true
}

fn same_task(one: &Queue, other: &Queue, task: TaskId) -> bool
    ensures { one.now.state ≡ other.now.state → IsTrue result }
{
    one.entry(task) == other.entry(task)
        && one.asleep(task) == other.asleep(task)
        && one.lag_of(task) == other.lag_of(task)
}
