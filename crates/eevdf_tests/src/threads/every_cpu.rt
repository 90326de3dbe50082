//! Each CPU does each kind of operation, beside all others. Two CPUs post to one another, and pull from one another and let each
//! other's task doze, for which a thread takes the locks of both: if two threads took them in different orders, they could wait for
//! one another for ever.

use super::call_turns::{CallTurns, TurnCalls};
use crate::fixtures::one_task_each;
use crate::kits::{endless_kit_of, kit_of};
use crate::operation_texts::operations_at;
use eevdf_fleet::{Closed, endless, run_turns};
use eevdf_ops::{Deed, Op};
use std::alloc::Global;
use std::process::Abort;

/// Each operation once in each turn. CPU c pulls from CPU `cpus - 1 - c` and posts to it, and lets its task doze.
#[derive(Drop)]
struct EachOperation {
    turns: Vec<Vec<Op>>,
}

impl EachOperation {
    fn of(rt: &impl Abort, alloc: Global, cpus: usize) -> EachOperation {
        let mut turns = Vec::new(alloc);
        for own in 0..cpus {
            let other = cpus.saturating_sub(own).saturating_sub(1);
            let lines = lines_of(rt, alloc, own, other);
            let turn = operations_at(rt, alloc, own as u64, lines.as_str());
            turns.push(turn).expect(rt, "memory");
        }
        EachOperation { turns }
    }
}

/// The operations of a turn, a line each.
fn lines_of(rt: &impl Abort, alloc: Global, own: usize, other: usize) -> String {
    let mut lines = String::new(alloc);
    write!(
        lines,
        "pick\ntick 1000\nyield\nrenice {own} 5\npull {other}\npost {other}\ndrain\n"
    )
    .expect(rt, "memory");
    write!(
        lines,
        "sleep {own}\ndoze {other}\nset {own} 0 3000000\nend {own}\nbegin {own} 0 1000000\nrebase\n"
    )
    .expect(rt, "memory");
    lines
}

impl TurnCalls for EachOperation {
    fn call_at(&self, own: u64, _turn: usize, at: usize) -> Option<Op> {
        self.turns.get(own as usize)?.get(at).copied()
    }
}

/// So many lines each turn has besides those of its drain.
const LINES: usize = 11;

/// How many requests were taken.
fn taken(closed: &Closed) -> usize {
    closed
        .history()
        .iter()
        .filter(|line| matches!(line.deed, Deed::Wake { .. }))
        .count()
}

/// How many requests are left.
fn left(closed: &Closed) -> usize {
    let mut requests = 0usize;
    for sender in 0..closed.cpus() {
        for home in 0..closed.cpus() {
            requests = requests.saturating_add(closed.left(sender, home).len());
        }
    }
    requests
}

/// Asks that so many CPUs have done each operation in so many turns.
fn have_done_each(rt: &impl Abort, closed: &Closed, cpus: usize, turns: usize) {
    let of_each_kind = turns.saturating_mul(cpus);
    let taken = taken(closed);
    let lines = of_each_kind.saturating_mul(LINES).saturating_add(taken);
    assert!(rt; closed.history().len() == lines, "{cpus} CPUs");
    let requests = taken.saturating_add(left(closed));
    assert!(rt; requests == of_each_kind, "{cpus} CPUs");
}

#[test]
fn every_cpu_does_each_operation(rt: HostRuntime) {
    for (cpus, turns, quota) in [(2, 10_000, 120_002), (64, 10, 184)] {
        let setup = one_task_each(&rt, rt.alloc(), cpus);
        let kit = kit_of(&rt, rt.alloc(), &setup, quota, turns);
        let each = EachOperation::of(&rt, rt.alloc(), cpus);
        let calls = CallTurns { each };
        let closed = run_turns(&rt, rt.alloc(), kit, turns, &calls).expect(&rt, "turns");
        have_done_each(&rt, &closed, cpus, turns);
    }
}

#[test]
fn every_cpu_does_each_operation_without_a_history(rt: HostRuntime) {
    for cpus in [2, 64] {
        let setup = one_task_each(&rt, rt.alloc(), cpus);
        let kit = endless_kit_of(&rt, rt.alloc(), &setup, 1);
        let each = EachOperation::of(&rt, rt.alloc(), cpus);
        let calls = CallTurns { each };
        let closed = endless::run_turns(&rt, rt.alloc(), kit, &calls).expect(&rt, "turns");
        assert!(rt; closed.queues.len() == cpus, "{cpus} CPUs");
    }
}
