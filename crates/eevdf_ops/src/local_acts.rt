//! How an act is done on the one run queue that it touches.

ghost use Rattle.std.specs.Prelude.{◌≡◌, IfSome};
ghost use Rattle.eevdf_queue.specs.Leaving.{leave};
ghost use Rattle.eevdf_ops.specs.Halves.{CanTake, HasRoom, after_putting, answer_of_taking, taken_out};
ghost use Rattle.eevdf_ops.specs.{LocalActs.local_done, PickDepths.HasActDepth};
ghost use Rattle.eevdf_ops.specs.OneQueue.{one_begin, one_rebase, one_set, one_wake, one_yield};
ghost use Rattle.eevdf_ops.specs.Parts.{after_leaving};
ghost use Rattle.eevdf_ops.specs.declared.acts.LocalAct.TheVariants as local;

use crate::acts::LocalAct;
use crate::deeds::Answer;
use crate::halves::{Putting, Taking};
use eevdf_queue::{Queue, TaskId};
use eevdf_weight::{Nice, Slice};

impl LocalAct {
    /// Does the act on the queue of its CPU, and answers it. It takes no memory. A pick goes no deeper than `Queue::pick` says.
    #[inline(always)]
    pub fn apply(self, queue: &mut Queue) -> Answer
        ensures answer { result ≡ (local_done self queue.old.state).0 }
        ensures after { queue.new.state ≡ (local_done self queue.old.state).1 }
        ensures depth { HasActDepth self queue.old.state queue.new.pick_depth }
    {
        match self {
            LocalAct::Tick(ns) => Answer::from(queue.tick(ns)),
            LocalAct::Pick => Answer::from(queue.pick()),
            LocalAct::Yield => yield_now(queue),
            LocalAct::Sleep(task) => sleep_here(queue, task),
            LocalAct::Doze(task) => doze_here(queue, task),
            LocalAct::Wake { task, .. } => wake(queue, task),
            LocalAct::Renice(task, nice) => Answer::from(queue.renice(task, nice)),
            LocalAct::Begin(task, nice, slice) => begin(queue, task, nice, slice),
            LocalAct::End(task) => end_here(queue, task),
            LocalAct::Set(task, nice, slice) => set(queue, task, nice, slice),
            LocalAct::Rebase => rebase(queue),
        }
    }
}

// `apply` stands in the code of whoever calls it, and what is compiled into it saves registers for each deed. So what is done less often than a
// tick and a pick stands apart, and a half is made where it is used.

/// Lets a task fall asleep in the queue where it runs, at its home.
#[inline(never)]
fn sleep_here(queue: &mut Queue, task: TaskId) -> Answer
    ensures answer { result ≡ (local_done (local.Sleep task) queue.old.state).0 }
    ensures after { queue.new.state ≡ (local_done (local.Sleep task) queue.old.state).1 }
{
    fall_asleep(queue, Taking::Sleep(task), Putting::Asleep)
}

/// Lets a task doze off in the queue where it runs, at its home.
#[inline(never)]
fn doze_here(queue: &mut Queue, task: TaskId) -> Answer
    ensures answer { result ≡ (local_done (local.Doze task) queue.old.state).0 }
    ensures after { queue.new.state ≡ (local_done (local.Doze task) queue.old.state).1 }
{
    fall_asleep(queue, Taking::Sleep(task), Putting::Dozing)
}

/// Lets a task end in the queue that is its home.
#[inline(never)]
fn end_here(queue: &mut Queue, task: TaskId) -> Answer
    ensures answer { result ≡ (local_done (local.End task) queue.old.state).0 }
    ensures after { queue.new.state ≡ (local_done (local.End task) queue.old.state).1 }
{
    fall_asleep(queue, Taking::End(task), Putting::Asleep)
}

/// Takes a task out of the queue and puts it to sleep there, at its home.
#[inline(always)]
fn fall_asleep(queue: &mut Queue, taking: Taking, putting: Putting) -> Answer
    requires taking { CanTake taking queue.old.state }
    requires room { IfSome (taken_out taking queue.old.state) (λ parcel.
        HasRoom putting (leave queue.old.state parcel.task) parcel) }
    ensures answer { result ≡ answer_of_taking taking (taken_out taking queue.old.state) }
    ensures after { queue.new.state ≡ after_putting putting (taken_out taking queue.old.state)
        (after_leaving (taken_out taking queue.old.state) queue.old.state) }
{
    let (answer, parcel) = taking.take(queue);
    putting.put(queue, parcel);
    answer
}

/// Lets a task begin anew that sleeps in the queue.
fn begin(queue: &mut Queue, task: TaskId, nice: Nice, slice: Slice) -> Answer
    ensures answer { result ≡ (one_begin queue.old.state task nice slice).0 }
    ensures after { queue.new.state ≡ (one_begin queue.old.state task nice slice).1 }
{
    if queue.begin(task, nice, slice) {
        Answer::Begun
    } else {
        Answer::Awake
    }
}

/// Lets the running task yield.
#[inline(never)]
fn yield_now(queue: &mut Queue) -> Answer
    ensures answer { result ≡ (one_yield queue.old.state).0 }
    ensures after { queue.new.state ≡ (one_yield queue.old.state).1 }
{
    Answer::from(queue.yield_now())
}

/// Wakes a task that sleeps in the queue.
#[inline(never)]
fn wake(queue: &mut Queue, task: TaskId) -> Answer
    ensures answer { result ≡ (one_wake queue.old.state task).0 }
    ensures after { queue.new.state ≡ (one_wake queue.old.state task).1 }
{
    Answer::from(queue.wake(task))
}

/// Gives a task in the queue another nice level and slice.
#[inline(never)]
fn set(queue: &mut Queue, task: TaskId, nice: Nice, slice: Slice) -> Answer
    ensures answer { result ≡ (one_set queue.old.state task nice slice).0 }
    ensures after { queue.new.state ≡ (one_set queue.old.state task nice slice).1 }
{
    Answer::from(queue.set(task, nice, slice))
}

/// Lowers all virtual times of the queue.
#[inline(never)]
fn rebase(queue: &mut Queue) -> Answer
    ensures answer { result ≡ (one_rebase queue.old.state).0 }
    ensures after { queue.new.state ≡ (one_rebase queue.old.state).1 }
{
    Answer::Rebased(queue.rebase())
}
