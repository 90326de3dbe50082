//! Operations of several CPUs that go on beside one another: each case holds operations until others have come to a place, which
//! they can't reach where a lock is held for too long, or which they come to too late where the gate is called at another moment.

use super::gate_call::GateCall;
use super::holding_gate::Holding;
use eevdf_fleet::{Closed, run_all};
use eevdf_report::{Form, report};
use eevdf_workload::read_workload;
use std::alloc::Global;
use std::process::Abort;
use std::sync::Wait;
use std::thread::Threads;

/// Programs, the calls that are held, each until the call beside it is made, and the report of the run.
#[derive(Clone, Copy)]
struct Case {
    name: &'static str,
    workload: &'static [u8],
    holds: [(GateCall, GateCall); 2],
    form: Form,
    report: &'static str,
}

/// Two CPUs, each with a task of its own that it picks.
const TWO_PICKS: &[u8] =
    b"version = 1\nprogram = [[\"pick\"], [\"pick\"]]\n[[task]]\n[[task]]\nhome = 1\n";

fn cases() -> [Case; 7] {
    [
        Case {
            name: "two operations hold their locks at once",
            workload: TWO_PICKS,
            holds: [
                (GateCall::inside(0, 0), GateCall::inside(1, 0)),
                (GateCall::inside(1, 0), GateCall::inside(0, 0)),
            ],
            form: Form::PLAIN,
            report: "cpu 0\npick: picked 0\nload 1024 floor 0\ntask 0 v 0 d 3000000 lag 0 running\ncpu 1\npick: picked 1\nload 1024 floor 0\ntask 1 v 0 d 3000000 lag 0 running\n",
        },
        // CPU 0 has acted and hasn't committed yet, so the line of CPU 1 comes first.
        Case {
            name: "an operation is done while another has acted on one queue and has no line yet",
            workload: TWO_PICKS,
            holds: [
                (GateCall::acted(0, 0), GateCall::answered(1, 0)),
                (GateCall::inside(1, 0), GateCall::acted(0, 0)),
            ],
            form: Form::WITH_HISTORY,
            report: "cpu 0\npick: picked 0\nload 1024 floor 0\ntask 0 v 0 d 3000000 lag 0 running\ncpu 1\npick: picked 1\nload 1024 floor 0\ntask 1 v 0 d 3000000 lag 0 running\nscript = [\n\"1 pick\",\n\"0 pick\",\n]\n",
        },
        Case {
            name: "an operation is done while another has acted on two queues and has no line yet",
            workload: b"version = 1\nprogram = [[\"pull 2\"], [\"pick\"], []]\n[[task]]\nhome = 1\n",
            holds: [
                (GateCall::acted(0, 0), GateCall::answered(1, 0)),
                (GateCall::inside(1, 0), GateCall::acted(0, 0)),
            ],
            form: Form::WITH_HISTORY,
            report: "cpu 0\npull 2: nothing\nload 0 floor 0\ncpu 1\npick: picked 0\nload 1024 floor 0\ntask 0 v 0 d 3000000 lag 0 running\ncpu 2\nload 0 floor 0\nscript = [\n\"1 pick\",\n\"0 pull 2\",\n]\n",
        },
        Case {
            name: "a post goes to a CPU whose lock is held",
            workload: b"version = 1\nprogram = [[\"pick\"], [\"pick\", \"post 0\"]]\n[[task]]\n[[task]]\nhome = 1\n",
            holds: [
                (GateCall::inside(0, 0), GateCall::answered(1, 1)),
                (GateCall::inside(1, 0), GateCall::inside(0, 0)),
            ],
            form: Form::PLAIN,
            report: "cpu 0\npick: picked 0\nload 1024 floor 0\ntask 0 v 0 d 3000000 lag 0 running\nleft 0 from 1\ncpu 1\npick: picked 1\nload 1024 floor 0\ntask 1 v 0 d 3000000 lag 0 running\n",
        },
        Case {
            name: "a drain takes a request that comes while it holds its lock",
            workload: b"version = 1\nprogram = [[\"drain\"], [\"pick\", \"post 0\"]]\n[[task]]\nasleep = true\n",
            holds: [
                (GateCall::inside(0, 0), GateCall::answered(1, 1)),
                (GateCall::inside(1, 0), GateCall::inside(0, 0)),
            ],
            form: Form::PLAIN,
            report: "cpu 0\nwake 0 from 1: woken\nload 1024 floor 0\ntask 0 v 0 d 3000000 lag 0\ncpu 1\npick: idle\nload 0 floor 0\n",
        },
        Case {
            name: "an operation that has returned holds no lock",
            workload: b"version = 1\nprogram = [[\"pick\"], [\"pick\", \"pull 0\"]]\n[[task]]\n[[task]]\nhome = 1\n",
            holds: [
                (GateCall::answered(0, 0), GateCall::inside(1, 1)),
                (GateCall::inside(1, 0), GateCall::acted(0, 0)),
            ],
            form: Form::PLAIN,
            report: "cpu 0\npick: picked 0\nload 1024 floor 0\ntask 0 v 0 d 3000000 lag 0 running\ncpu 1\npick: picked 1\npull 0: nothing\nload 1024 floor 0\ntask 1 v 0 d 3000000 lag 0 running\n",
        },
        // CPU 0 is the sender that a drain comes to first.
        Case {
            name: "a drain takes such a request of the sender that it asks first",
            workload: b"version = 1\nprogram = [[\"pick\", \"post 0\"], [\"drain\"]]\n[[task]]\nhome = 1\nasleep = true\n",
            holds: [
                (GateCall::inside(1, 0), GateCall::answered(0, 1)),
                (GateCall::inside(0, 0), GateCall::inside(1, 0)),
            ],
            form: Form::PLAIN,
            report: "cpu 0\npick: idle\nload 0 floor 0\ncpu 1\nwake 0 from 0: woken\nload 1024 floor 0\ntask 0 v 0 d 3000000 lag 0\n",
        },
    ]
}

/// Runs the programs of a case by threads that its gate holds.
fn check_case<R: Threads + Wait + Abort + Sync>(rt: &R, alloc: Global, case: &Case) {
    let workload = read_workload(alloc, case.workload).expect(rt, "workload");
    let gate = Holding::gate(case.holds[0], case.holds[1]);
    let closed = run_all(rt, alloc, workload.setup(), &gate).expect(rt, "run");
    assert!(rt; !gate.passing.has_given_up(), "{}", case.name);
    is_reported(rt, alloc, &closed, case);
}

/// Asks that the report of a run is that of a case.
fn is_reported(rt: &impl Abort, alloc: Global, closed: &Closed, case: &Case) {
    let report = report(alloc, closed, case.form).expect(rt, "memory");
    assert!(rt;
        report.as_slice() == case.report.as_bytes(),
        "{}",
        case.name
    );
}

#[test]
fn operations_go_on_beside_one_another(rt: HostRuntime) {
    for case in &cases() {
        check_case(&rt, rt.alloc(), case);
    }
}
