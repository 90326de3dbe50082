//! How one queue pulls a task from another.

ghost use Rattle.std.specs.Prelude.{◌≡◌, ◌+◌, ◌↔◌, ℕ, pos, nat_lt, Some};
ghost use Rattle.eevdf_weight.specs.Weight.{weight_of};
ghost use Rattle.eevdf_queue.specs.Candidate.{IsCandidate, NoneWaits};
ghost use Rattle.eevdf_c.specs.Codes.{absent};
ghost use Rattle.eevdf_c.specs.Errors.{KeepsOnError};
ghost use Rattle.eevdf_c.specs.Pulls as pulls;

use crate::codes::{ABSENT, BALANCED, INVALID, PRESENT, RANGE};
use crate::opened::Opened;
use eevdf_queue::{Queue, TaskId};
use eevdf_weight::{Nice, weight};

/// The candidate of `from` comes to `to`, where that brings the two loads closer.
pub fn pull(to: &mut Opened, from: &mut Opened) -> i64
    ensures answer { result ≡ (pulls.pull to.old from.old).answer }
    ensures to { to.new ≡ (pulls.pull to.old from.old).to }
    ensures from { from.new ≡ (pulls.pull to.old from.old).from }
    ensures last { (t : ℕ) → result ≡ pos t → IsCandidate from.old.runnable from.old.running t }
    ensures nobody { (result ≡ absent) ↔ NoneWaits from.old.runnable from.old.running }
    ensures kept { KeepsOnError result to.old to.new }
    ensures held { KeepsOnError result from.old from.new }
{
    pull_candidate(&mut to.queue, &mut from.queue)
}

fn pull_candidate(to: &mut Queue, from: &mut Queue) -> i64
    ensures answer { result ≡ (pulls.pull to.old.state from.old.state).answer }
    ensures to { to.new.state ≡ (pulls.pull to.old.state from.old.state).to }
    ensures from { from.new.state ≡ (pulls.pull to.old.state from.old.state).from }
    ensures last { (t : ℕ) → result ≡ pos t → IsCandidate from.old.state.runnable from.old.state.running t }
    ensures nobody { (result ≡ absent) ↔ NoneWaits from.old.state.runnable from.old.state.running }
{
    let Some(offer) = from.offer() else {
        return ABSENT;
    };
    if !is_lighter(to.load(), offer.nice(), from.load()) {
        return BALANCED;
    }
    let task = offer.task();
    if to.contains(task) {
        return PRESENT;
    }
    if !to.can_place(offer.nice(), offer.slice(), offer.lag()) {
        return RANGE;
    }
    to.attach(from.detach(task));
    task.get() as i64
}

/// A task that waits in `from` comes to `to`, where that brings the two loads closer.
pub fn pull_task(to: &mut Opened, from: &mut Opened, number: u64) -> i64
    ensures answer { result ≡ (pulls.pull_task to.old from.old number).answer }
    ensures to { to.new ≡ (pulls.pull_task to.old from.old number).to }
    ensures from { from.new ≡ (pulls.pull_task to.old from.old number).from }
    ensures kept { KeepsOnError result to.old to.new }
    ensures held { KeepsOnError result from.old from.new }
{
    match TaskId::new(number) {
        Some(task) => pull_waiting(&mut to.queue, &mut from.queue, task),
        None => INVALID,
    }
}

fn pull_waiting(to: &mut Queue, from: &mut Queue, task: TaskId) -> i64
    ensures answer { result ≡ (pulls.pull_task_by to.old.state from.old.state (Some task)).answer }
    ensures to { to.new.state ≡ (pulls.pull_task_by to.old.state from.old.state (Some task)).to }
    ensures from { from.new.state ≡ (pulls.pull_task_by to.old.state from.old.state (Some task)).from }
{
    if from.running() == Some(task) {
        return ABSENT;
    }
    let Some(entry) = from.entry(task) else {
        return ABSENT;
    };
    if !is_lighter(to.load(), entry.nice, from.load()) {
        return BALANCED;
    }
    if to.contains(task) {
        return PRESENT;
    }
    let Some(lag) = from.lag_of(task) else {
        return ABSENT;
    };
    if !to.can_place(entry.nice, entry.slice, lag) {
        return RANGE;
    }
    to.attach(from.detach(task));
    task.get() as i64
}

/// Whether a load stays below another with a task of this nice level.
fn is_lighter(load: u64, nice: Nice, other: u64) -> bool
    ensures { result ≡ nat_lt (load + weight_of nice) other }
{
    // no sum of the load and the weight, which 64 bits might not hold
    weight(nice) < other.saturating_sub(load)
}
