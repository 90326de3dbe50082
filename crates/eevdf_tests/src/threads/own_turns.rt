//! A caller's own turns are done by a thread for each CPU, until it has had them all or ends them.

use super::call_turns::{CallTurns, TurnCalls};
use crate::fixtures::one_task_each;
use eevdf_fleet::{Kit, run_turns};
use eevdf_ops::Op;
use std::alloc::Global;
use std::process::Abort;
use std::sync::atomic::{AtomicBool, AtomicUsize, Ordering};

const CPUS: usize = 64;

/// A pick in each turn. The CPUs of odd number end the turns with the one of number 1.
#[derive(Drop)]
struct CountedPicks {
    /// How many turns each CPU has had.
    counts: Vec<AtomicUsize>,
    is_misnumbered: AtomicBool,
}

impl CountedPicks {
    fn new(rt: &impl Abort, alloc: Global) -> CountedPicks {
        let mut counts = Vec::new(alloc);
        for _cpu in 0..CPUS {
            counts.push(AtomicUsize::new(0)).expect(rt, "memory");
        }
        CountedPicks {
            counts,
            is_misnumbered: AtomicBool::new(false),
        }
    }

    fn count(&self, cpu: usize, turn: usize) {
        let number = match self.counts.get(cpu) {
            Some(count) => count.fetch_add(1, Ordering::SeqCst),
            None => CPUS,
        };
        if number != turn {
            self.is_misnumbered.store(true, Ordering::SeqCst);
        }
    }

    /// Whether the CPUs of even number have had so many turns, and the others two.
    fn has_counted(&self, turns: usize) -> bool {
        self.counts.iter().enumerate().all(|(cpu, count)| {
            let wanted = if cpu % 2 == 0 { turns } else { 2 };
            count.load(Ordering::SeqCst) == wanted
        })
    }
}

impl TurnCalls for CountedPicks {
    fn call_at(&self, cpu: u64, turn: usize, at: usize) -> Option<Op> {
        if at > 0 {
            return None;
        }
        self.count(cpu as usize, turn);
        Some(Op::Pick)
    }

    fn ends(&self, cpu: u64, turn: usize) -> bool {
        turn == 1 && cpu % 2 == 1
    }
}

/// There is room for three lines on each CPU, and a seat that is full has its turns all the same.
#[test]
fn each_cpu_has_its_turns_until_it_ends_them(rt: HostRuntime) {
    let setup = one_task_each(&rt, rt.alloc(), CPUS);
    let kit = Kit::make(rt.alloc(), &setup, 3, 1).expect(&rt, "memory");
    let each = CountedPicks::new(&rt, rt.alloc());
    let turns = CallTurns { each };
    let closed = run_turns(&rt, rt.alloc(), kit, 5, &turns).expect(&rt, "turns");
    assert!(rt; turns.each.has_counted(5));
    assert!(rt; !turns.each.is_misnumbered.load(Ordering::SeqCst));
    assert!(rt; closed.history().len() == CPUS / 2 * 3 + CPUS / 2 * 2);
}
