//! How the report prints lines of all kinds, requests that are left, and times below 0.

use crate::fixtures::{cpu, nice, ns, slice, task};
use eevdf_ops::{Answer, CpuId, Deed, Line, Outcome, Solo};
use eevdf_queue::{Parcel, Queue, TaskId};
use eevdf_report::{Form, report};
use eevdf_weight::Nice;
use eevdf_workload::read_workload;
use std::alloc::Global;
use std::process::Abort;

/// A schedule of CPU 11 with each kind of deed and each of its own answers, after those of eleven CPUs that did nothing.
const REPORT_OF_ALL_KINDS: &str = "cpu 0
load 0 floor 0
cpu 1
load 0 floor 0
cpu 2
load 0 floor 0
cpu 3
load 0 floor 0
cpu 4
load 0 floor 0
cpu 5
load 0 floor 0
cpu 6
load 0 floor 0
cpu 7
load 0 floor 0
cpu 8
load 0 floor 0
cpu 9
load 0 floor 0
cpu 10
load 0 floor 0
cpu 11
tick 3000000: charged 1023
tick 3000000: charged 1023 resched
tick 3000000: idle
pick: picked 1023
yield: yielded
sleep 1023: slept -200000
sleep 1023: not running
doze 1023: slept 200000
doze 1023: not running
wake 1023 from 2: woken
wake 1023 from 2: awake
pull 2: pulled 1023
pull 2: balanced
pull 2: nothing
pull 2: range
renice 1023 -20: reniced
renice 1023 -20: not here
begin 1023 19 100000000: begun
begin 1023 19 100000000: awake
end 1023: ended
end 1023: not here
set 1023 0 100000: set
set 1023 0 100000: not here
set 1023 0 100000: range
rebase: rebased -1
rebase: rebased 0
load 0 floor 0
script = [
\"11 tick 3000000\",
\"11 tick 3000000\",
\"11 tick 3000000\",
\"11 pick\",
\"11 yield\",
\"11 sleep 1023\",
\"11 sleep 1023\",
\"11 doze 1023\",
\"11 doze 1023\",
\"11 wake 1023 from 2\",
\"11 wake 1023 from 2\",
\"11 pull 2\",
\"11 pull 2\",
\"11 pull 2\",
\"11 pull 2\",
\"11 renice 1023 -20\",
\"11 renice 1023 -20\",
\"11 begin 1023 19 100000000\",
\"11 begin 1023 19 100000000\",
\"11 end 1023\",
\"11 end 1023\",
\"11 set 1023 0 100000\",
\"11 set 1023 0 100000\",
\"11 set 1023 0 100000\",
\"11 rebase\",
\"11 rebase\",
]
";

/// The lines of that schedule.
fn lines_of_all_kinds(rt: &impl Abort, alloc: Global) -> Vec<Line> {
    let task = task(rt, 1023);
    let source = cpu(rt, 2);
    let cpu = cpu(rt, 11);
    let mut lines = Vec::new(alloc);
    push_turn_lines(rt, &mut lines, cpu, task);
    push_moving_lines(rt, &mut lines, cpu, task, source);
    push_later_lines(rt, &mut lines, cpu, task);
    lines
}

/// Adds those of the deeds of a turn.
fn push_turn_lines(rt: &impl Abort, lines: &mut Vec<Line>, cpu: CpuId, task: TaskId) {
    let tick = Deed::Tick {
        cpu,
        ns: ns(rt, 3_000_000),
    };
    let charged = Answer::Charged {
        task,
        resched: false,
    };
    let rescheduled = Answer::Charged {
        task,
        resched: true,
    };
    push_lines(rt, lines, &tick, &[charged, rescheduled, Answer::Idle]);
    push_lines(rt, lines, &Deed::Pick { cpu }, &[Answer::Picked(task)]);
    push_lines(rt, lines, &Deed::Yield { cpu }, &[Answer::Yielded]);
}

/// Adds those of the deeds by which a task sleeps, dozes, wakes, is pulled and gets another level.
fn push_moving_lines(
    rt: &impl Abort,
    lines: &mut Vec<Line>,
    cpu: CpuId,
    task: TaskId,
    source: CpuId,
) {
    let sleep = Deed::Sleep { cpu, task };
    let slept = Answer::Slept(-200_000);
    push_lines(rt, lines, &sleep, &[slept, Answer::NotRunning]);
    let doze = Deed::Doze { cpu, task };
    let dozed = Answer::Slept(200_000);
    push_lines(rt, lines, &doze, &[dozed, Answer::NotRunning]);
    let wake = Deed::Wake {
        cpu,
        task,
        sender: source,
    };
    push_lines(rt, lines, &wake, &[Answer::Woken, Answer::Awake]);
    let pull = Deed::Pull { cpu, source };
    let pulls = [
        Answer::Pulled(task),
        Answer::Balanced,
        Answer::Nothing,
        Answer::Range,
    ];
    push_lines(rt, lines, &pull, &pulls);
    let renice = Deed::Renice {
        cpu,
        task,
        nice: nice(rt, -20),
    };
    push_lines(rt, lines, &renice, &[Answer::Reniced, Answer::NotHere]);
}

/// Adds those of the deeds by which tasks come and go.
fn push_later_lines(rt: &impl Abort, lines: &mut Vec<Line>, cpu: CpuId, task: TaskId) {
    let begin = Deed::Begin {
        cpu,
        task,
        nice: nice(rt, 19),
        slice: slice(rt, 100_000_000),
    };
    push_lines(rt, lines, &begin, &[Answer::Begun, Answer::Awake]);
    let end = Deed::End { cpu, task };
    push_lines(rt, lines, &end, &[Answer::Ended, Answer::NotHere]);
    let set = Deed::Set {
        cpu,
        task,
        nice: nice(rt, 0),
        slice: slice(rt, 100_000),
    };
    let sets = [Answer::Set, Answer::NotHere, Answer::Range];
    push_lines(rt, lines, &set, &sets);
    let rebases = [Answer::Rebased(-1), Answer::Rebased(0)];
    push_lines(rt, lines, &Deed::Rebase { cpu }, &rebases);
}

/// Adds a line of a deed for each of these answers.
fn push_lines(rt: &impl Abort, lines: &mut Vec<Line>, deed: &Deed, answers: &[Answer]) {
    for answer in answers {
        let line = Line {
            deed: *deed,
            answer: *answer,
        };
        lines.push(line).expect(rt, "memory");
    }
}

/// The outcome of these parts.
fn outcome_of(
    rt: &impl Abort,
    lines: Vec<Line>,
    queues: Vec<Queue>,
    left: Vec<Vec<TaskId>>,
) -> Outcome {
    assert!(rt; queues.len() < 100 && left.len() == queues.len() * queues.len());
    Outcome::of(lines, queues, left)
}

/// The requests that are left of each pair of CPUs.
fn requests_of(rt: &impl Abort, alloc: Global, pairs: &[&[TaskId]]) -> Vec<Vec<TaskId>> {
    let mut left = Vec::new(alloc);
    for pair in pairs {
        let requests = Vec::from_slice(alloc, pair).expect(rt, "memory");
        left.push(requests).expect(rt, "memory");
    }
    left
}

fn empty_queues(rt: &impl Abort, alloc: Global, cpus: usize) -> Vec<Queue> {
    let mut queues = Vec::new(alloc);
    for _cpu in 0..cpus {
        queues.push(Queue::open()).expect(rt, "memory");
    }
    queues
}

/// The outcome of lines of all kinds on twelve CPUs, whose queues are empty and to which nothing is posted.
fn outcome_of_all_kinds(rt: &impl Abort, alloc: Global) -> Outcome {
    let lines = lines_of_all_kinds(rt, alloc);
    let none: &[TaskId] = &[];
    let left = requests_of(rt, alloc, &[none; 144]);
    let queues = empty_queues(rt, alloc, 12);
    outcome_of(rt, lines, queues, left)
}

const TWO_CPUS: &[u8] =
    b"version = 1\nprogram = [[], []]\n[[task]]\nstart = -1\n[[task]]\nhome = 1\nasleep = true\n[[task]]\nhome = 1\n";

const REPORT_OF_REQUESTS: &str =
    "cpu 0\npull 1: nothing\nload 1024 floor -1\ntask 0 v -1 d 2999999 lag 0\nleft 2 from 1\nleft 1 from 1\ncpu 1\npick: idle\nload 1024 floor 0\ntask 2 v 0 d 3000000 lag 0\nasleep 1 lag 0\nleft 0 from 0\nscript = [\n\"1 pick\",\n\"0 pull 1\",\n]\n";

/// A pick and a pull.
fn two_lines(rt: &impl Abort) -> [Line; 2] {
    let pick = Line {
        deed: Deed::Pick { cpu: cpu(rt, 1) },
        answer: Answer::Idle,
    };
    let pull = Line {
        deed: Deed::Pull {
            cpu: cpu(rt, 0),
            source: cpu(rt, 1),
        },
        answer: Answer::Nothing,
    };
    [pick, pull]
}

/// The queues in which the tasks of a workload begin.
fn beginning(rt: &impl Abort, alloc: Global, bytes: &[u8]) -> Vec<Queue> {
    let workload = read_workload(alloc, bytes).expect(rt, "workload");
    let solo = Solo::open(alloc, workload.setup()).expect(rt, "memory");
    solo.into_queues()
}

/// The outcome of two lines on two CPUs, with a request that is left on the one and two on the other.
fn outcome_with_requests(rt: &impl Abort, alloc: Global) -> Outcome {
    let to_first = [task(rt, 2), task(rt, 1)];
    let to_second = [task(rt, 0)];
    let lines = Vec::from_slice(alloc, &two_lines(rt)).expect(rt, "memory");
    let left = requests_of(rt, alloc, &[&[], &to_second, &to_first, &[]]);
    let queues = beginning(rt, alloc, TWO_CPUS);
    outcome_of(rt, lines, queues, left)
}

/// Makes a task that isn't in a queue runnable there at this virtual runtime.
fn admit(rt: &impl Abort, alloc: Global, queue: &mut Queue, task: TaskId, start: i64) {
    assert!(rt; !queue.contains(task));
    let slice = slice(rt, 3_000_000);
    let parcel = Parcel::make(alloc, task, Nice::default(), slice, start).expect(rt, "memory");
    match queue.admit(parcel) {
        Ok(()) => {}
        Err(refused) => {
            refused.retire();
            panic!(rt; "out of range");
        }
    }
}

/// A queue that task 0 left at 0 to doze, and whose virtual times were lowered by 2^59 twenty times since.
fn lowered_past_a_doze(rt: &impl Abort, alloc: Global) -> Queue {
    let (dozing, other) = (task(rt, 0), task(rt, 1));
    let mut queue = Queue::open();
    admit(rt, alloc, &mut queue, dozing, 0);
    assert!(rt; queue.pick() == Some(dozing));
    assert!(rt; queue.doze(dozing) == Some(0));
    for _time in 0..20 {
        admit(rt, alloc, &mut queue, other, 1 << 59);
        assert!(rt; queue.rebase() == 1 << 59);
        let left = queue.detach_runnable(other).expect(rt, "not runnable");
        left.retire();
    }
    queue
}

/// 20 times 2^59 are more than 64 bits with a sign hold.
const REPORT_OF_A_FAR_PLACE: &str =
    "cpu 0\nload 0 floor 0\nasleep 0 lag 0 place -11529215046068469760\nscript = [\n]\n";

/// Asks that this is the report of an outcome, with its history.
fn is_reported(rt: &impl Abort, alloc: Global, outcome: &Outcome, text: &str) {
    let printed = report(alloc, outcome, Form::WITH_HISTORY).expect(rt, "memory");
    assert!(rt; printed.as_slice() == text.as_bytes());
}

#[test]
fn every_kind_of_line_is_printed(rt: HostRuntime) {
    let outcome = outcome_of_all_kinds(&rt, rt.alloc());
    is_reported(&rt, rt.alloc(), &outcome, REPORT_OF_ALL_KINDS)
}

#[test]
fn requests_are_left_on_two_cpus(rt: HostRuntime) {
    let outcome = outcome_with_requests(&rt, rt.alloc());
    is_reported(&rt, rt.alloc(), &outcome, REPORT_OF_REQUESTS)
}

#[test]
fn a_place_of_more_than_64_bits_is_printed(rt: HostRuntime) {
    let alloc = rt.alloc();
    let mut queues = Vec::new(alloc);
    queues
        .push(lowered_past_a_doze(&rt, alloc))
        .expect(&rt, "memory");
    let left = requests_of(&rt, alloc, &[&[]]);
    let outcome = outcome_of(&rt, Vec::new(alloc), queues, left);
    is_reported(&rt, alloc, &outcome, REPORT_OF_A_FAR_PLACE)
}
