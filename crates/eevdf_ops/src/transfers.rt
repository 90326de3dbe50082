//! How an act is done across the two run queues that it touches.

ghost use Rattle.std.specs.Prelude.{◌≡◌, IfSome};
ghost use Rattle.eevdf_ops.specs.Halves.{CanTake, HasRoom, after_putting, answer_of_taking};
ghost use Rattle.eevdf_ops.specs.{Halves.taken_out, Parts.after_leaving};
ghost use Rattle.eevdf_ops.specs.Transfers.{NoneTwice, transferred};
ghost use Rattle.eevdf_ops.specs.declared.acts.Transfer.TheVariants as transfer;

use crate::acts::Transfer;
use crate::deeds::Answer;
use crate::halves::{Putting, Taking};
use crate::pull::decide;
use eevdf_queue::{Queue, TaskId};

impl Transfer {
    /// Does the act on the queue of its CPU and on the other one that it touches, and answers it. It takes no memory.
    pub fn apply(self, queue: &mut Queue, other: &mut Queue) -> Answer
        requires { NoneTwice queue.old.state other.old.state }
        ensures answer { result ≡ (transferred self queue.old.state other.old.state).0 }
        ensures queue { queue.new.state
            ≡ (transferred self queue.old.state other.old.state).1.0 }
        ensures other { other.new.state
            ≡ (transferred self queue.old.state other.old.state).1.1 }
    {
        match self {
            Transfer::Sleep(task) => sleep_away(queue, other, task),
            Transfer::Pull => pull(queue, other),
            Transfer::End(task) => end_away(queue, other, task),
        }
    }
}

/// Puts a task to sleep in another queue than the one where it runs.
fn sleep_away(queue: &mut Queue, home: &mut Queue, task: TaskId) -> Answer
    requires { NoneTwice queue.old.state home.old.state }
    ensures answer { result ≡ (transferred (transfer.Sleep task) queue.old.state home.old.state).0 }
    ensures queue { queue.new.state
        ≡ (transferred (transfer.Sleep task) queue.old.state home.old.state).1.0 }
    ensures other { home.new.state
        ≡ (transferred (transfer.Sleep task) queue.old.state home.old.state).1.1 }
{
    moved(Taking::Sleep(task), queue, Putting::Asleep, home)
}

/// Brings the candidate of the source to the queue, where that levels their loads.
fn pull(queue: &mut Queue, source: &mut Queue) -> Answer
    requires { NoneTwice queue.old.state source.old.state }
    ensures answer { result ≡ (transferred transfer.Pull queue.old.state source.old.state).0 }
    ensures queue { queue.new.state
        ≡ (transferred transfer.Pull queue.old.state source.old.state).1.0 }
    ensures other { source.new.state
        ≡ (transferred transfer.Pull queue.old.state source.old.state).1.1 }
{
    let taking = Taking::Pull(decide(queue, source));
    moved(taking, source, Putting::Runnable, queue)
}

/// Ends a task in another queue than that of its home.
fn end_away(queue: &mut Queue, home: &mut Queue, task: TaskId) -> Answer
    requires { NoneTwice queue.old.state home.old.state }
    ensures answer { result ≡ (transferred (transfer.End task) queue.old.state home.old.state).0 }
    ensures queue { queue.new.state
        ≡ (transferred (transfer.End task) queue.old.state home.old.state).1.0 }
    ensures other { home.new.state
        ≡ (transferred (transfer.End task) queue.old.state home.old.state).1.1 }
{
    moved(Taking::End(task), queue, Putting::Asleep, home)
}

/// Takes a task out of a queue and puts it into another.
#[inline(always)]
fn moved(taking: Taking, giver: &mut Queue, putting: Putting, taker: &mut Queue) -> Answer
    requires taking { CanTake taking giver.old.state }
    requires once { NoneTwice giver.old.state taker.old.state }
    requires room { IfSome (taken_out taking giver.old.state) (HasRoom putting taker.old.state) }
    ensures answer { result ≡ answer_of_taking taking (taken_out taking giver.old.state) }
    ensures giver { giver.new.state
        ≡ after_leaving (taken_out taking giver.old.state) giver.old.state }
    ensures taker { taker.new.state
        ≡ after_putting putting (taken_out taking giver.old.state) taker.old.state }
{
    let (answer, parcel) = taking.take(giver);
    putting.put(taker, parcel);
    answer
}
