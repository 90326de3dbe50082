//! A task that one queue pulls from another.

ghost use Rattle.std.specs.Prelude.{◌≡◌, ◌↔◌, ℕ, pos};
ghost use Rattle.std.specs.Borrow.{sem};
ghost use Rattle.eevdf_queue.specs.State.{State};
ghost use Rattle.eevdf_queue.specs.Candidate.{IsCandidate, NoneWaits};
ghost use Rattle.eevdf_c.specs.Memory.{queue_at};
ghost use Rattle.eevdf_c.specs.Codes as answers;
ghost use Rattle.eevdf_c.specs.Errors.{KeepsOnError};
ghost use Rattle.eevdf_c.specs.Pulls as pulls;

use crate::calls;
use crate::opened::Opened;

/// The candidate of a queue comes to another one, where that brings their loads closer. Answers its number. `ABSENT`: no task waits;
/// `BALANCED`: the one that it comes to would be loaded no less than the other was; `PRESENT`: its number is here already; `RANGE`: its
/// runtime or deadline would be out of range. On an error both queues are as before.
#[unsafe(no_mangle)]
pub unsafe extern "C" fn eevdf_pull(to: *mut u8, from: *mut u8) -> i64
    ghost g: { State × State }
    requires* to { sem 𝓛 (queue_at to g.0) }
    requires* from { sem 𝓛 (queue_at from g.1) }
    ensures* to { sem 𝓛 (queue_at to (pulls.pull g.0 g.1).to) }
    ensures* from { sem 𝓛 (queue_at from (pulls.pull g.0 g.1).from) }
    ensures answer { result ≡ (pulls.pull g.0 g.1).answer }
    ensures last { (t : ℕ) → result ≡ pos t → IsCandidate g.1.runnable g.1.running t }
    ensures nobody { (result ≡ answers.absent) ↔ NoneWaits g.1.runnable g.1.running }
    ensures kept { KeepsOnError result g.0 (pulls.pull g.0 g.1).to }
    ensures held { KeepsOnError result g.1 (pulls.pull g.0 g.1).from }
{
    calls::pulling::pull(&mut *(to as *mut Opened), &mut *(from as *mut Opened))
}

/// A task that waits in a queue comes to another one, where that brings their loads closer. Answers its number. `INVALID`: no task has
/// the number; `ABSENT`: it doesn't wait in the queue; `BALANCED`: the one that it comes to would be loaded no less than the other was;
/// `PRESENT`: its number is here already; `RANGE`: its runtime or deadline would be out of range. On an error both queues are as before.
#[unsafe(no_mangle)]
pub unsafe extern "C" fn eevdf_pull_task(to: *mut u8, from: *mut u8, task: u64) -> i64
    ghost g: { State × State }
    requires* to { sem 𝓛 (queue_at to g.0) }
    requires* from { sem 𝓛 (queue_at from g.1) }
    ensures* to { sem 𝓛 (queue_at to (pulls.pull_task g.0 g.1 task).to) }
    ensures* from { sem 𝓛 (queue_at from (pulls.pull_task g.0 g.1 task).from) }
    ensures answer { result ≡ (pulls.pull_task g.0 g.1 task).answer }
    ensures kept { KeepsOnError result g.0 (pulls.pull_task g.0 g.1 task).to }
    ensures held { KeepsOnError result g.1 (pulls.pull_task g.0 g.1 task).from }
{
    calls::pulling::pull_task(&mut *(to as *mut Opened), &mut *(from as *mut Opened), task)
}
