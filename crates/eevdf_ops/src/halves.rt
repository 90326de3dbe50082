//! The two halves of a move, each on one queue: a task is taken out of one, and put into another or into the same.

ghost use Rattle.std.specs.Prelude.{◌≡◌, IfSome};
ghost use Rattle.eevdf_queue.specs.Leaving.{IsNowhere};
ghost use Rattle.eevdf_ops.specs.{Halves.CanTake, Halves.HasRoom, Halves.after_putting};
ghost use Rattle.eevdf_ops.specs.{Halves.answer_of_taking, Halves.putting_of_doze, Halves.taken_out, Parts.after_leaving};

use crate::cpu_id::CpuId;
use crate::deeds::Answer;
use eevdf_queue::{Parcel, Queue, TaskId};

/// Which task is taken out of a queue: the half in which a sleep, a doze, an end and a pull are answered.
#[derive(Clone, Copy)]
pub enum Taking {
    /// This task, where it runs: it falls asleep with the lag that it keeps, or dozes off.
    Sleep(TaskId),
    /// This task, where it is runnable: it ends, without its lag.
    End(TaskId),
    /// The task that a CPU has decided to pull, or why it pulls none.
    Pull(Result<TaskId, Answer>),
}

impl Taking {
    /// Takes the task out of the queue, and says what its deed is answered. Where no task leaves nothing has changed.
    #[inline(always)]
    pub fn take(self, giver: &mut Queue) -> (Answer, Option<Parcel>)
        requires { CanTake self giver.old.state }
        ensures answer { result.0 ≡ answer_of_taking self result.1 }
        ensures parcel { result.1 ≡ taken_out self giver.old.state }
        ensures after { giver.new.state ≡ after_leaving result.1 giver.old.state }
        ensures nowhere { IfSome result.1 (λ parcel. IsNowhere giver.new.state parcel.task) }
    {
        match self {
            Taking::Sleep(task) => match giver.detach_running(task) {
                None => (Answer::NotRunning, None),
                Some(parcel) => (Answer::Slept(parcel.lag()), Some(parcel)),
            },
            Taking::End(task) => match giver.detach_runnable(task) {
                None => (Answer::NotHere, None),
                Some(parcel) => (Answer::Ended, Some(parcel.without_lag())),
            },
            Taking::Pull(decided) => match decided {
                Ok(task) => (Answer::Pulled(task), Some(giver.detach(task))),
                Err(refusal) => (refusal, None),
            },
        }
    }
}

/// How a task is put into a queue: the half that has no answer.
#[derive(Clone, Copy)]
pub enum Putting {
    /// It sleeps there.
    Asleep,
    /// It dozes there, in the queue that it left.
    Dozing,
    /// It is runnable there, placed as by `Queue::attach`.
    Runnable,
}

impl Putting {
    /// How a task that dozes off on a CPU is put into the queue of its home: away from there a doze is a sleep.
    pub fn dozing(cpu: CpuId, home: CpuId) -> Putting
        ensures { result ≡ putting_of_doze cpu home }
    {
        if home.get() == cpu.get() {
            Putting::Dozing
        } else {
            Putting::Asleep
        }
    }

    /// Puts the task that was taken into the queue, where one was.
    #[inline(always)]
    pub fn put(self, taker: &mut Queue, parcel: Option<Parcel>)
        requires nowhere { IfSome parcel (λ p. IsNowhere taker.old.state p.task) }
        requires room { IfSome parcel (HasRoom self taker.old.state) }
        ensures { taker.new.state ≡ after_putting self parcel taker.old.state }
    {
        if let Some(parcel) = parcel {
            match self {
                Putting::Asleep => taker.put_asleep(parcel),
                Putting::Dozing => taker.put_dozing(parcel),
                Putting::Runnable => taker.attach(parcel),
            }
        }
    }
}
