//! Who may step next, and where a task stands, while callers wait for each other's locks.

use crate::fixtures::{cpu, task};
use eevdf_ops::{CpuId, Outcome, Setup};
use eevdf_queue::TaskId;
use eevdf_report::{Form, report};
use eevdf_steps::{Place, Player, StepFault};
use eevdf_workload::{Workload, read_workload};
use std::alloc::Global;
use std::process::Abort;

/// Two callers each of whom pulls from the other's CPU.
const CROSSED_PULLS: &[u8] = b"version = 1\nprogram = [[\"pull 1\"], [\"pull 0\"]]\n[[task]]\n";

const CROSSED_REPORT: &str =
    "cpu 0\npull 1: nothing\nload 1024 floor 0\ntask 0 v 0 d 3000000 lag 0\ncpu 1\npull 0: balanced\nload 0 floor 0\nscript = [\n\"0 pull 1\",\n\"1 pull 0\",\n]\n";

/// A pull and two picks, with an order in which the pull goes first.
const PULL_UNDER_WAY: &[u8] =
    b"version = 1\norder = [1, 1, 1, 2, 1, 1, 1, 1, 2, 2, 2, 0, 0, 0, 0]\nprogram = [[\"pick\"], [\"pull 0\"], [\"pick\"]]\n[[task]]\n[[task]]\n[[task]]\n";

const PULL_FIRST: [usize; 15] = [1, 1, 1, 2, 1, 1, 1, 1, 2, 2, 2, 0, 0, 0, 0];

fn workload_of(rt: &impl Abort, alloc: Global, bytes: &[u8]) -> Workload {
    read_workload(alloc, bytes).expect(rt, "workload")
}

fn player_of(rt: &impl Abort, alloc: Global, setup: &Setup) -> Player {
    Player::open(alloc, setup).expect(rt, "memory")
}

/// Does so many steps of a caller, which nothing is to refuse.
fn step_on(rt: &impl Abort, player: &mut Player, caller: usize, steps: usize) {
    for _step in 0..steps {
        assert!(rt; player.step(caller) == Ok(()));
    }
}

/// Both callers want the lesser lock first.
fn crossed_pulls(rt: &impl Abort, player: &mut Player) {
    let cpu = cpu(rt, 0);
    assert!(rt; player.ready() == Some(0));
    step_on(rt, player, 0, 1);
    assert!(rt; player.ready() == Some(0));
    assert!(rt; player.step(1) == Err(StepFault::Blocked { cpu, holder: 0 }));
    step_on(rt, player, 0, 6);
    assert!(rt; player.ready() == Some(1));
    step_on(rt, player, 1, 7);
    assert!(rt; player.ready() == None);
}

#[test]
fn crossed_pulls_take_the_lesser_lock_first(rt: HostRuntime) {
    let workload = workload_of(&rt, rt.alloc(), CROSSED_PULLS);
    let outcome = outcome_of_crossed_pulls(&rt, rt.alloc(), workload.setup());
    is_reported(&rt, rt.alloc(), &outcome);
}

fn outcome_of_crossed_pulls(rt: &impl Abort, alloc: Global, setup: &Setup) -> Outcome {
    let mut player = player_of(rt, alloc, setup);
    crossed_pulls(rt, &mut player);
    player.outcome().ok().expect(rt, "outcome")
}

/// Asks that the report of crossed pulls is that of this outcome, with its history.
fn is_reported(rt: &impl Abort, alloc: Global, outcome: &Outcome) {
    let text = report(alloc, outcome, Form::WITH_HISTORY).expect(rt, "memory");
    assert!(rt; text.as_slice() == CROSSED_REPORT.as_bytes());
}

/// Where a task stands, who holds the lock of a CPU, and the load of its queue.
fn seen(player: &Player, task: TaskId, cpu: CpuId) -> Option<(Place, Option<usize>, u64)> {
    if player.has_task(task) && player.has_cpu(cpu) {
        let load = player.queue(cpu).load();
        Some((player.place_of(task), player.holder(cpu), load))
    } else {
        None
    }
}

/// The caller that pulls has the task in its hand. It is ready before the one that waits for its lock.
fn pull_under_way(rt: &impl Abort, player: &mut Player) {
    let task = task(rt, 2);
    let cpu = cpu(rt, 0);
    assert!(rt; player.ready() == Some(0));
    assert!(rt; seen(player, task, cpu) == Some((Place::Runnable(cpu), None, 3072)));
    step_on(rt, player, 1, 3);
    assert!(rt; player.ready() == Some(1));
    assert!(rt; seen(player, task, cpu) == Some((Place::InHand(1), Some(1), 2048)));
    step_on(rt, player, 2, 1);
    assert!(rt; player.step(0) == Err(StepFault::Blocked { cpu, holder: 1 }));
}

#[test]
fn a_pulled_task_is_in_its_callers_hand(rt: HostRuntime) {
    let workload = workload_of(&rt, rt.alloc(), PULL_UNDER_WAY);
    has_pull_first(&rt, &workload);
    let mut player = player_of(&rt, rt.alloc(), workload.setup());
    pull_under_way(&rt, &mut player);
}

/// Asks that a workload has three CPUs, three tasks, and the order in which the pull goes first.
fn has_pull_first(rt: &impl Abort, workload: &Workload) {
    let setup = workload.setup();
    assert!(rt; (setup.cpus(), setup.tasks()) == (3, 3));
    assert!(rt; workload.order() == Some(PULL_FIRST.as_slice()));
}
