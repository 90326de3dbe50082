//! A lock that two CPUs want is held by one of them at a time.

use eevdf_fleet::{Gate, run_all};
use eevdf_ops::CpuId;
use eevdf_workload::read_workload;
use std::hint::spin_loop;
use std::sync::atomic::{AtomicBool, AtomicU64, Ordering};

/// So many turns each operation stays inside.
const TURNS: u64 = 10_000_000;

/// Counts the operations that are inside, each of which stays there for long, and keeps whether there were two at once.
#[derive(Drop)]
struct CountingGate {
    inside: AtomicU64,
    were_two: AtomicBool,
}

impl CountingGate {
    fn note(&self, others: u64) {
        if others != 0 {
            self.were_two.store(true, Ordering::SeqCst);
        }
    }
}

impl Gate for CountingGate {
    fn inside(&self, _cpu: CpuId, _n: usize) {
        self.note(self.inside.fetch_add(1, Ordering::SeqCst));
        for _turn in 0..TURNS {
            spin_loop();
        }
        self.inside.fetch_sub(1, Ordering::SeqCst);
    }

    fn acted(&self, _cpu: CpuId, _n: usize) {}

    fn answered(&self, _cpu: CpuId, _n: usize) {}
}

/// Two CPUs, of which one pulls from the other, and that one does an operation of its own. The lock that both want is the first that
/// a pull from CPU 0 takes, and the second that a pull from CPU 1 does.
const PULL_BESIDE_A_PICK: &[u8] = b"version = 1\nprogram = [[\"pick\"], [\"pull 0\"]]\n[[task]]\n";

const PULL_BESIDE_A_DRAIN: &[u8] =
    b"version = 1\nprogram = [[\"drain\"], [\"pull 0\"]]\n[[task]]\n";

const PULL_FROM_THE_SECOND: &[u8] =
    b"version = 1\nprogram = [[\"pull 1\"], [\"pick\"]]\n[[task]]\nhome = 1\n";

#[test]
fn operations_on_one_queue_are_inside_one_after_the_other(rt: HostRuntime) {
    for (name, text) in [
        ("a pull beside a pick", PULL_BESIDE_A_PICK),
        ("a pull beside a drain", PULL_BESIDE_A_DRAIN),
        ("a pull from the second CPU", PULL_FROM_THE_SECOND),
    ] {
        let workload = read_workload(rt.alloc(), text).expect(&rt, "workload");
        let gate = CountingGate {
            inside: AtomicU64::new(0),
            were_two: AtomicBool::new(false),
        };
        let _outcome = run_all(&rt, rt.alloc(), workload.setup(), &gate).expect(&rt, "run");
        assert!(rt; !gate.were_two.load(Ordering::SeqCst), "{name}");
    }
}
