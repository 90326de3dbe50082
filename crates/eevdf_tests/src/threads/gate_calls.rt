//! Which calls of the gate come at each kind of operation, and in which order.

use super::gate_call::{GateCall, Passing, PassingGate};
use eevdf_fleet::run_all;
use eevdf_workload::read_workload;
use std::sync::atomic::{AtomicBool, AtomicUsize, Ordering};

/// An operation of each kind, and of sleeps one of a task of another home. CPU 1 does nothing.
const WORKLOAD: &[u8] =
    b"version = 2\nprogram = [[\"pick\", \"tick 1\", \"yield\", \"renice 0 5\", \"sleep 0\", \"post 0\", \"drain\", \"pull 1\", \"sleep 1\"], []]\n[[task]]\n[[task]]\nhome = 1\n";

/// The calls at these operations. A post takes no lock, so it is never inside. A drain does its work request by request, each
/// with a line of its own, so there is no one moment at which it has acted.
fn calls() -> [GateCall; 24] {
    [
        GateCall::inside(0, 0),
        GateCall::acted(0, 0),
        GateCall::answered(0, 0),
        GateCall::inside(0, 1),
        GateCall::acted(0, 1),
        GateCall::answered(0, 1),
        GateCall::inside(0, 2),
        GateCall::acted(0, 2),
        GateCall::answered(0, 2),
        GateCall::inside(0, 3),
        GateCall::acted(0, 3),
        GateCall::answered(0, 3),
        GateCall::inside(0, 4),
        GateCall::acted(0, 4),
        GateCall::answered(0, 4),
        GateCall::answered(0, 5),
        GateCall::inside(0, 6),
        GateCall::answered(0, 6),
        GateCall::inside(0, 7),
        GateCall::acted(0, 7),
        GateCall::answered(0, 7),
        GateCall::inside(0, 8),
        GateCall::acted(0, 8),
        GateCall::answered(0, 8),
    ]
}

/// Compares the calls with those that are expected.
#[derive(Drop)]
struct Comparing {
    expected: [GateCall; 24],
    calls: AtomicUsize,
    differs: AtomicBool,
}

impl Passing for Comparing {
    fn pass(&self, call: GateCall) {
        let place = self.calls.fetch_add(1, Ordering::SeqCst);
        if self.expected.get(place) != Some(&call) {
            self.differs.store(true, Ordering::SeqCst);
        }
    }
}

#[test]
fn each_kind_of_operation_has_its_calls(rt: HostRuntime) {
    let workload = read_workload(rt.alloc(), WORKLOAD).expect(&rt, "workload");
    let gate = PassingGate {
        passing: Comparing {
            expected: calls(),
            calls: AtomicUsize::new(0),
            differs: AtomicBool::new(false),
        },
    };
    let outcome = run_all(&rt, rt.alloc(), workload.setup(), &gate).expect(&rt, "run");
    let compared = &gate.passing;
    assert!(rt; !compared.differs.load(Ordering::SeqCst));
    assert!(rt; compared.calls.load(Ordering::SeqCst) == compared.expected.len());
    // Eight of the nine have a line: the drain that of the wake, and the post none.
    assert!(rt; outcome.history().len() == 8);
}
