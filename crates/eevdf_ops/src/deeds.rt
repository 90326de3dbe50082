use crate::acts::LocalAct;
use crate::cpu_id::CpuId;
use eevdf_queue::TaskId;
use eevdf_weight::{Nice, Ns, Slice};

/// An operation of a CPU's program. On a CPU it becomes a `Deed`, by `Op::on`.
#[derive(Clone, Copy, PartialEq, Eq, Debug)]
pub enum Op {
    /// The running task is charged so many nanoseconds.
    Tick(Ns),
    /// The eligible task of earliest virtual deadline runs.
    Pick,
    /// The running task's virtual deadline grows by one request.
    Yield,
    /// This task, if it runs here, falls asleep at its home.
    Sleep(TaskId),
    /// This task, if it runs here, dozes off at its home. Where that is another CPU, it falls asleep there as by a sleep.
    Doze(TaskId),
    /// A wake of this task is posted to its home.
    Post(TaskId),
    /// The wakes that were posted here are done, at most one of each sender.
    Drain,
    /// A task is pulled from this CPU.
    Pull(CpuId),
    /// This task, if it is runnable here, gets this nice level.
    Renice(TaskId, Nice),
    /// This task, if it sleeps here, its home, begins anew with this nice level and slice.
    Begin(TaskId, Nice, Slice),
    /// This task, if it is runnable here, running or waiting, ends: it falls asleep at its home without a lag.
    End(TaskId),
    /// This task, if it is runnable here or sleeps here, gets this nice level and slice.
    Set(TaskId, Nice, Slice),
    /// All virtual times here are lowered by one number.
    Rebase,
}

impl Op {
    ghost use Rattle.std.specs.Prelude.{◌≡◌};
    ghost use Rattle.eevdf_ops.specs.{Acts.local_of, Programs.deed_of};

    /// The deed of the operation on a CPU. `None` of a post and of a drain, which are no deeds: what comes of them are
    /// wakes. The deed becomes its CPU and an act, by `parted`.
    pub fn on(self, cpu: CpuId) -> Option<Deed>
        ensures { result ≡ deed_of cpu self }
    {
        match self {
            Op::Tick(ns) => Some(Deed::Tick { cpu, ns }),
            Op::Pick => Some(Deed::Pick { cpu }),
            Op::Yield => Some(Deed::Yield { cpu }),
            Op::Sleep(task) => Some(Deed::Sleep { cpu, task }),
            Op::Doze(task) => Some(Deed::Doze { cpu, task }),
            Op::Pull(source) => Some(Deed::Pull { cpu, source }),
            Op::Renice(task, nice) => Some(Deed::Renice { cpu, task, nice }),
            Op::Begin(task, nice, slice) => Some(Deed::Begin {
                cpu,
                task,
                nice,
                slice,
            }),
            Op::End(task) => Some(Deed::End { cpu, task }),
            Op::Set(task, nice, slice) => Some(Deed::Set {
                cpu,
                task,
                nice,
                slice,
            }),
            Op::Rebase => Some(Deed::Rebase { cpu }),
            Op::Post(_) | Op::Drain => None,
        }
    }

    /// What the operation does, where it touches its CPU's run queue alone, whatever homes the tasks have. `None` of a sleep, a doze,
    /// an end, a post, a drain and a pull. Of a deed `parted` says the same, and by the homes what a sleep, a doze and an end do.
    pub fn local(self) -> Option<LocalAct>
        ensures { result ≡ local_of self }
    {
        match self {
            Op::Tick(ns) => Some(LocalAct::Tick(ns)),
            Op::Pick => Some(LocalAct::Pick),
            Op::Yield => Some(LocalAct::Yield),
            Op::Renice(task, nice) => Some(LocalAct::Renice(task, nice)),
            Op::Begin(task, nice, slice) => Some(LocalAct::Begin(task, nice, slice)),
            Op::Set(task, nice, slice) => Some(LocalAct::Set(task, nice, slice)),
            Op::Rebase => Some(LocalAct::Rebase),
            Op::Sleep(_) | Op::Doze(_) | Op::End(_) | Op::Post(_) | Op::Drain | Op::Pull(_) => None,
        }
    }
}

/// What is done on the machine at once. It becomes its CPU and what it comes from, by `Deed::parts`, and an `Act`, by `parted`.
#[derive(Clone, Copy, PartialEq, Eq, Debug)]
pub enum Deed {
    /// The CPU's running task is charged so many nanoseconds.
    Tick {
        cpu: CpuId,
        ns: Ns,
    },
    /// The CPU's eligible task of earliest virtual deadline runs.
    Pick {
        cpu: CpuId,
    },
    /// The virtual deadline of the CPU's running task grows by one request.
    Yield {
        cpu: CpuId,
    },
    /// The task, if it runs on the CPU, falls asleep at its home with the lag that it keeps.
    Sleep {
        cpu: CpuId,
        task: TaskId,
    },
    /// The task, if it runs on the CPU, dozes off at its home: it keeps of its lag what it is owed and no debt, and its place, the
    /// virtual runtime at which it leaves, before which no wake puts it (this project's own profile). Where its home is another CPU,
    /// it falls asleep there as by a sleep, since virtual times of two queues can't be compared.
    Doze {
        cpu: CpuId,
        task: TaskId,
    },
    /// The task, if it sleeps on the CPU, becomes runnable there. `sender` is the CPU that asked for it.
    Wake {
        cpu: CpuId,
        task: TaskId,
        sender: CpuId,
    },
    /// The waiting task of latest virtual deadline comes from `source` to the CPU, if that levels their loads.
    Pull {
        cpu: CpuId,
        source: CpuId,
    },
    /// The task, if it is runnable on the CPU, gets the nice level, and joins again with the lag that it keeps, rescaled.
    Renice {
        cpu: CpuId,
        task: TaskId,
        nice: Nice,
    },
    /// The task, if it sleeps on the CPU, its home, begins anew: it sleeps on as one that has just been made, with the nice level,
    /// the slice and the lag 0.
    Begin {
        cpu: CpuId,
        task: TaskId,
        nice: Nice,
        slice: Slice,
    },
    /// The task, if it is runnable on the CPU, running or waiting, ends: it falls asleep at its home with the lag 0.
    End {
        cpu: CpuId,
        task: TaskId,
    },
    /// The task, if it is runnable on the CPU or sleeps there, gets the nice level and the slice. A runnable one joins again as at
    /// a renice, and the request after the one that then stands is of the new slice; the lag that a sleeping one keeps is rescaled,
    /// and cut to the limit that it then has.
    Set {
        cpu: CpuId,
        task: TaskId,
        nice: Nice,
        slice: Slice,
    },
    /// All virtual times of the CPU's queue are lowered by one number, so that its virtual time is 0.
    Rebase {
        cpu: CpuId,
    },
}

/// What a deed is answered. After `Idle`, `NotRunning`, `Awake`, `Balanced`, `Nothing`, `Range` and `NotHere` the
/// machine is as it was.
#[derive(Clone, Copy, PartialEq, Eq, Debug)]
pub enum Answer {
    /// A tick charged this task; `resched` says that it had used up its request and got a new deadline.
    Charged { task: TaskId, resched: bool },
    /// A pick chose this task, which runs.
    Picked(TaskId),
    /// Nobody runs, or there is nothing to pick.
    Idle,
    /// The running task yielded.
    Yielded,
    /// The task fell asleep, and this lag is kept, in virtual time; of a doze at home no debt is kept.
    Slept(i64),
    /// The task that was to sleep or to doze doesn't run on the CPU.
    NotRunning,
    /// The task woke.
    Woken,
    /// The task that was to wake or to begin doesn't sleep on the CPU.
    Awake,
    /// This task was pulled.
    Pulled(TaskId),
    /// With the candidate the CPU would be loaded no less than the source.
    Balanced,
    /// No task waits at the source.
    Nothing,
    /// A virtual runtime or deadline would have left the range.
    Range,
    /// The task has the nice level.
    Reniced,
    /// The task that was to get a nice level, or to end, isn't runnable on the CPU; one that was to get a slice besides doesn't
    /// sleep there either.
    NotHere,
    /// The task has begun, and sleeps.
    Begun,
    /// The task has ended, and its number sleeps at its home.
    Ended,
    /// The task has the nice level and the slice.
    Set,
    /// All virtual times of the queue are lower by this number: 0 where one of them would have left the range.
    Rebased(i64),
}

/// A deed with its answer.
#[derive(Clone, Copy, PartialEq, Eq, Debug)]
pub struct Line {
    pub deed: Deed,
    pub answer: Answer,
}
