//! Each call of both fleets on CPUs of a fleet of sixty-four, in one thread. What touches a second queue, or a ring between two CPUs,
//! is tried with the CPU below and with the one above. A call that waits for ever for some CPU doesn't end here.

mod with_history;
mod without_history;

use crate::fixtures;
use crate::fixtures::{ns, setup_of, task, task_at};
use crate::seats::CallingSeat;
use eevdf_fleet::{Drained, Operated};
use eevdf_ops::{Answer, Op, Setup};
use eevdf_queue::TaskId;
use eevdf_weight::{Nice, Slice};
use std::alloc::Global;
use std::process::Abort;
use std::sync::Wait;

/// How many CPUs there are. Tasks c and `CPUS + c` have CPU c as their home.
const CPUS: u64 = 64;

/// The CPUs whose calls are tried.
const TRIED: [u64; 8] = [0, 1, 2, 4, 8, 16, 32, 63];

/// Each CPU whose calls are tried, with each of the CPUs beside it.
fn pairs(rt: &impl Abort, alloc: Global) -> Vec<(u64, u64)> {
    let mut pairs = Vec::new(alloc);
    for cpu in TRIED {
        let above = cpu.saturating_add(1);
        if let Some(below) = cpu.checked_sub(1) {
            pairs.push((cpu, below)).expect(rt, "memory");
        }
        if above < CPUS {
            pairs.push((cpu, above)).expect(rt, "memory");
        }
    }
    pairs
}

/// A setup with two runnable tasks of nice level 0 on each CPU.
fn two_tasks_each(rt: &impl Abort, alloc: Global) -> Setup {
    let mut tasks = Vec::new(alloc);
    for number in 0..CPUS.saturating_mul(2) {
        tasks
            .push(task_at(rt, number % CPUS, false))
            .expect(rt, "memory");
    }
    setup_of(rt, alloc, &tasks, CPUS as usize, 0)
}

/// An operation of the seat of a CPU, and what comes of it.
type Told = (u64, Op, Operated);

/// A CPU, and its neighbour. The CPU's own tasks are one of its number and a second one, and the third task is the neighbour's second.
#[derive(Drop)]
struct Pair {
    cpu: u64,
    neighbour: u64,
    own: TaskId,
    second: TaskId,
    third: TaskId,
}

impl Pair {
    fn of(rt: &impl Abort, cpu: u64, neighbour: u64) -> Pair {
        Pair {
            cpu,
            neighbour,
            own: task(rt, cpu),
            second: task(rt, cpu.saturating_add(CPUS)),
            third: task(rt, neighbour.saturating_add(CPUS)),
        }
    }

    /// The CPU's tasks sleep and doze, and it pulls the neighbour's second task three times: it falls asleep, it dozes, which is a sleep
    /// away from its home, and then it ends and begins anew.
    fn pulls(&self, rt: &impl Abort, calls: &mut Vec<Told>) {
        let (cpu, neighbour) = (self.cpu, self.neighbour);
        let pull = (
            cpu,
            Op::Pull(fixtures::cpu(rt, neighbour)),
            answered(Answer::Pulled(self.third)),
        );
        self.pick_and_sleep(rt, calls, self.own);
        self.pick_and_doze(rt, calls, self.second);
        push(rt, calls, &[pull]);
        self.pick_and_sleep(rt, calls, self.third);
        push(rt, calls, &wake(cpu, neighbour, self.third));
        push(rt, calls, &[pull]);
        self.pick_and_doze(rt, calls, self.third);
        push(rt, calls, &wake(cpu, neighbour, self.third));
        let end = (cpu, Op::End(self.third), answered(Answer::Ended));
        push(rt, calls, &[pull, end]);
        let begin = Op::Begin(self.third, Nice::default(), Slice::default());
        push(rt, calls, &[(neighbour, begin, answered(Answer::Begun))]);
        push(rt, calls, &wake(cpu, neighbour, self.third));
    }

    /// A task is picked on the CPU, and falls asleep with the lag 0.
    fn pick_and_sleep(&self, rt: &impl Abort, calls: &mut Vec<Told>, task: TaskId) {
        let pick = (self.cpu, Op::Pick, answered(Answer::Picked(task)));
        let sleep = (self.cpu, Op::Sleep(task), answered(Answer::Slept(0)));
        push(rt, calls, &[pick, sleep]);
    }

    /// A task is picked on the CPU, and dozes off with the lag 0.
    fn pick_and_doze(&self, rt: &impl Abort, calls: &mut Vec<Told>, task: TaskId) {
        let pick = (self.cpu, Op::Pick, answered(Answer::Picked(task)));
        let doze = (self.cpu, Op::Doze(task), answered(Answer::Slept(0)));
        push(rt, calls, &[pick, doze]);
    }

    /// The CPU's tasks wake. One is charged, and the other ends, so that it is alone when its CPU is rebased.
    fn rebases(&self, rt: &impl Abort, calls: &mut Vec<Told>) {
        let cpu = self.cpu;
        let charged = Answer::Charged {
            task: self.own,
            resched: false,
        };
        push(rt, calls, &wake(self.neighbour, cpu, self.own));
        push(rt, calls, &wake(cpu, cpu, self.second));
        let turn = [
            (cpu, Op::Pick, answered(Answer::Picked(self.own))),
            (cpu, Op::Tick(ns(rt, 1_000)), answered(charged)),
            (cpu, Op::End(self.second), answered(Answer::Ended)),
            (cpu, Op::Rebase, answered(Answer::Rebased(1_000))),
        ];
        push(rt, calls, &turn);
    }

    /// The task that has ended begins anew, is set to another level and slice, and the one that runs yields and gets another level.
    fn changes(&self, rt: &impl Abort, calls: &mut Vec<Told>) {
        let (cpu, second) = (self.cpu, self.second);
        let light = Nice::new(5).expect(rt, "nice");
        let begin = Op::Begin(second, light, Slice::default());
        push(rt, calls, &[(cpu, begin, answered(Answer::Begun))]);
        push(rt, calls, &wake(cpu, cpu, second));
        let short = Slice::new(1_000_000).expect(rt, "slice");
        let set = Op::Set(second, Nice::default(), short);
        let changes = [
            (cpu, set, answered(Answer::Set)),
            (cpu, Op::Yield, answered(Answer::Yielded)),
            (cpu, Op::Renice(self.own, light), answered(Answer::Reniced)),
        ];
        push(rt, calls, &changes);
    }
}

fn answered(answer: Answer) -> Operated {
    Operated::Answer(answer)
}

/// A CPU posts a task to its home, where it wakes.
fn wake(sender: u64, home: u64, task: TaskId) -> [Told; 2] {
    let woken = Drained { taken: 1, woken: 1 };
    [
        (sender, Op::Post(task), Operated::Posted),
        (home, Op::Drain, Operated::Drained(woken)),
    ]
}

fn push(rt: &impl Abort, calls: &mut Vec<Told>, more: &[Told]) {
    calls.extend_from_slice(more).expect(rt, "memory");
}

/// Calls of a CPU and of a neighbour, with what comes of them. All tasks keep lag 0, so that each falls asleep with it, and of two that
/// are runnable the one of the lower number is picked.
fn calls(rt: &impl Abort, alloc: Global, cpu: u64, neighbour: u64) -> Vec<Told> {
    let pair = Pair::of(rt, cpu, neighbour);
    let mut calls = Vec::new(alloc);
    pair.pulls(rt, &mut calls);
    pair.rebases(rt, &mut calls);
    pair.changes(rt, &mut calls);
    calls
}

/// Makes a call, and says what comes of it.
fn came<S: CallingSeat, R: Wait + Abort>(
    rt: &R,
    fleet: &S::Fleet,
    seat: &mut S,
    operation: Op,
) -> Option<Operated> {
    match operation {
        Op::Post(task) => seat.posted(fleet, task),
        _ => seat.call(rt, fleet, operation).ok(),
    }
}

/// Whether a fleet says that a CPU is the home of its two tasks, and that there is no task behind the last one.
fn tells_homes<S: CallingSeat>(rt: &impl Abort, fleet: &S::Fleet, cpu: u64) -> bool {
    let home = Some(fixtures::cpu(rt, cpu));
    S::home_of(fleet, task(rt, cpu)) == home
        && S::home_of(fleet, task(rt, cpu.saturating_add(CPUS))) == home
        && S::home_of(fleet, task(rt, CPUS.saturating_mul(2))).is_none()
}

/// Makes the calls of a CPU and of a neighbour on the seats of a fleet.
fn call_both<S: CallingSeat, R: Wait + Abort>(
    rt: &R,
    alloc: Global,
    fleet: &S::Fleet,
    seats: &mut [S],
    cpu: u64,
    neighbour: u64,
) {
    assert!(rt; tells_homes::<S>(rt, fleet, cpu), "CPU {cpu}");
    for (caller, operation, wanted) in calls(rt, alloc, cpu, neighbour) {
        let seat = seats.get_mut(caller as usize).expect(rt, "seat");
        let came = came(rt, fleet, seat, operation);
        assert!(rt; came == Some(wanted), "CPU {cpu} beside {neighbour}");
    }
}
