//! Tasks that begin and end under the numbers of a machine, get other levels and slices, and virtual times that are lowered.

use crate::fixtures::{cpu, on_two_cpus, task};
use crate::operation_texts::operations_at;
use crate::stand::Stand::{Asleep, Runnable};
use crate::stand::{Stand, stand_of};
use eevdf_ops::{Answer, Deed, Solo};
use eevdf_queue::Queue;
use std::alloc::Global;
use std::process::Abort;

/// Two CPUs and three tasks with the first as their home: task 0 is runnable, tasks 1 and 2 sleep.
fn machine(rt: &impl Abort, alloc: Global) -> Solo {
    let setup = on_two_cpus(rt, alloc, &[(0, false), (0, true), (0, true)]);
    Solo::open(alloc, &setup).expect(rt, "memory")
}

/// The deed of an operation of this text on a CPU.
fn deed(rt: &(impl Abort + AllocGlobal), at: u64, line: &str) -> Deed {
    let operations = operations_at(rt, rt.alloc(), at, line);
    let operation = operations.first().expect(rt, "operation");
    operation.on(cpu(rt, at)).expect(rt, "deed")
}

/// Asks that an operation of this text on a CPU comes to this.
fn comes_to(rt: &(impl Abort + AllocGlobal), solo: &mut Solo, at: u64, line: &str, answer: Answer) {
    let deed = deed(rt, at, line);
    assert_eq!(rt; solo.try_apply(deed), Some(answer), "{deed}");
}

/// Asks that a task wakes on CPU 0, which asks for it itself.
fn wakes(rt: &impl Abort, solo: &mut Solo, number: u64) {
    let cpu = cpu(rt, 0);
    let wake = Deed::Wake {
        cpu,
        task: task(rt, number),
        sender: cpu,
    };
    assert_eq!(rt; solo.try_apply(wake), Some(Answer::Woken), "{wake}");
}

/// Lets CPU 0 pick task 0 and charge it for so many nanoseconds, after which it is to be preempted or not.
fn charge_first(rt: &(impl Abort + AllocGlobal), solo: &mut Solo, ns: u64, resched: bool) {
    let task = task(rt, 0);
    let tick = format!(in rt.alloc(); "tick {ns}").expect(rt, "memory");
    comes_to(rt, solo, 0, "pick", Answer::Picked(task));
    comes_to(
        rt,
        solo,
        0,
        tick.as_str(),
        Answer::Charged { task, resched },
    );
}

/// The queue of a CPU.
fn queue_of<'a>(rt: &impl Abort, solo: &'a Solo, number: u64) -> &'a Queue {
    let cpu = cpu(rt, number);
    assert!(rt; solo.has_cpu(cpu));
    solo.queue(cpu)
}

/// Asks that a task stands like this on CPU 0.
fn stands(rt: &impl Abort, solo: &Solo, number: u64, stand: Stand) {
    let queue = queue_of(rt, solo, 0);
    assert_eq!(rt; stand_of(rt, queue, number), stand, "task {number}");
}

/// Asks that a task ends on a CPU, and doesn't end there again. Nobody runs there then, so many tasks wait, and the task sleeps at its home
/// without a lag, with the nice level and the slice that it began with.
fn ends(rt: &(impl Abort + AllocGlobal), solo: &mut Solo, at: u64, number: u64, waiting: usize) {
    let end = format!(in rt.alloc(); "end {number}").expect(rt, "memory");
    comes_to(rt, solo, at, end.as_str(), Answer::Ended);
    comes_to(rt, solo, at, end.as_str(), Answer::NotHere);
    let queue = queue_of(rt, solo, at);
    assert_eq!(rt; queue.running(), None);
    assert_eq!(rt; queue.len(), waiting);
    stands(rt, solo, number, Asleep(0, 0, 3_000_000));
}

#[test]
fn a_number_begins_wakes_and_ends(rt: HostRuntime) {
    let rt = &rt;
    let mut solo = machine(rt, rt.alloc());

    // A number that sleeps begins, at its home alone; one that is runnable doesn't.
    comes_to(rt, &mut solo, 0, "begin 1 5 6000000", Answer::Begun);
    comes_to(rt, &mut solo, 0, "begin 0 5 6000000", Answer::Awake);
    let elsewhere = deed(rt, 1, "begin 2 5 6000000");
    assert!(rt; solo.try_apply(elsewhere).is_none());
    stands(rt, &solo, 1, Asleep(0, 5, 6_000_000));

    // 6000000 ns at the weight 335 of level 5 are 18340298 units.
    wakes(rt, &mut solo, 1);
    stands(rt, &solo, 1, Runnable(0, 18_340_298, 5, 6_000_000));

    // The running task ends, and its number keeps its level and slice.
    charge_first(rt, &mut solo, 1_000_000, false);
    ends(rt, &mut solo, 0, 0, 1);
}

#[test]
fn a_task_that_was_pulled_ends_at_its_home(rt: HostRuntime) {
    let rt = &rt;
    let mut solo = machine(rt, rt.alloc());
    wakes(rt, &mut solo, 2);
    comes_to(rt, &mut solo, 0, "pick", Answer::Picked(task(rt, 0)));
    comes_to(rt, &mut solo, 1, "pull 0", Answer::Pulled(task(rt, 2)));

    // It waits on the other CPU, and no deed of its home ends it.
    comes_to(rt, &mut solo, 0, "end 2", Answer::NotHere);
    ends(rt, &mut solo, 1, 2, 0);
}

#[test]
fn a_task_gets_another_level_and_slice_where_it_is(rt: HostRuntime) {
    let rt = &rt;
    let mut solo = machine(rt, rt.alloc());

    // A sleeping one keeps them for its wake; a runnable one's next request is of the new slice, and not the one that it joins with.
    comes_to(rt, &mut solo, 0, "set 1 5 100000", Answer::Set);
    stands(rt, &solo, 1, Asleep(0, 5, 100_000));
    comes_to(rt, &mut solo, 1, "set 1 5 100000", Answer::NotHere);
    comes_to(rt, &mut solo, 0, "set 0 0 1000000", Answer::Set);
    stands(rt, &solo, 0, Runnable(0, 3_000_000, 0, 1_000_000));
    charge_first(rt, &mut solo, 3_000_000, true);
    stands(rt, &solo, 0, Runnable(3_000_000, 4_000_000, 0, 1_000_000));

    // Alone it stands at the virtual time, which becomes 0.
    comes_to(rt, &mut solo, 0, "rebase", Answer::Rebased(3_000_000));
    stands(rt, &solo, 0, Runnable(0, 1_000_000, 0, 1_000_000));
    comes_to(rt, &mut solo, 1, "rebase", Answer::Rebased(0));
}
