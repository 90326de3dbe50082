//! The line that is printed for each fault, and the exit status.

use eevdf_bench::{BenchFault, Key, LoadFault, fault_text, status_of};
use eevdf_fleet::RunFault;
use eevdf_ops::{CpuId, SetupFault};
use eevdf_steps::PlayFault;
use std::alloc::Global;
use std::process::Abort;

/// Compares the line and the status of a fault, and the text that its `Display` has with the line.
fn check(rt: &impl Abort, alloc: Global, fault: &BenchFault, line: &str, status: u8) {
    let text = fault_text(alloc, fault).expect(rt, "memory");
    assert!(rt; text.as_slice() == line.as_bytes(), "{line}");
    let shown = format!(in alloc; "fault: {fault}\n").expect(rt, "memory");
    assert!(rt; shown.as_str() == line, "{line}");
    assert!(rt; status_of(fault) == status, "{line}");
}

const KEYS: [(Key, &str); 15] = [
    (Key::Version, "version"),
    (Key::Tasks, "task"),
    (Key::Task(3), "task 3"),
    (Key::Home(0), "task 0 home"),
    (Key::Nice(7), "task 7 nice"),
    (Key::Slice(10), "task 10 slice"),
    (Key::Start(1023), "task 1023 start"),
    (Key::Asleep(1), "task 1 asleep"),
    (Key::Programs, "program"),
    (Key::Program(63), "program 63"),
    (Key::Op(0, 12), "program 0 at 12"),
    (Key::Orders, "order"),
    (Key::Order(999_999), "order at 999999"),
    (Key::Scripts, "script"),
    (Key::Script(3), "script at 3"),
];

#[test]
fn each_key_has_its_text(rt: HostRuntime) {
    let alloc = rt.alloc();
    for (key, text) in KEYS {
        let bad = BenchFault::Load(LoadFault::BadValue { key });
        let line = format!(in alloc; "fault: bad value at {text}\n").expect(&rt, "memory");
        check(&rt, alloc, &bad, &line, 1);
        let missing = BenchFault::Load(LoadFault::Missing { key });
        let line = format!(in alloc; "fault: missing {text}\n").expect(&rt, "memory");
        check(&rt, alloc, &missing, &line, 1);
    }
}

/// Of the faults that name no CPU, those of a workload and of an order, and then those of the machine.
const FAULTS: [(BenchFault, &str, u8); 22] = [
    (
        BenchFault::Load(LoadFault::TooLarge),
        "fault: workload longer than 16777216 bytes\n",
        1,
    ),
    (
        BenchFault::Load(LoadFault::NotToml),
        "fault: not a TOML document\n",
        1,
    ),
    (
        BenchFault::Load(LoadFault::Setup(SetupFault::BadCpus)),
        "fault: number of cpus\n",
        1,
    ),
    (
        BenchFault::Load(LoadFault::Setup(SetupFault::BadTasks)),
        "fault: number of tasks\n",
        1,
    ),
    (
        BenchFault::Load(LoadFault::Setup(SetupFault::BadHome { task: 7 })),
        "fault: home of task 7\n",
        1,
    ),
    (
        BenchFault::Load(LoadFault::Setup(SetupFault::BadStart { task: 0 })),
        "fault: start of task 0\n",
        1,
    ),
    (
        BenchFault::Load(LoadFault::Setup(SetupFault::TooLong { cpu: 1 })),
        "fault: program 1 too long\n",
        1,
    ),
    (
        BenchFault::Load(LoadFault::Setup(SetupFault::UnknownTask { cpu: 1, at: 20 })),
        "fault: unknown task at program 1 at 20\n",
        1,
    ),
    (
        BenchFault::Load(LoadFault::Setup(SetupFault::BadPull { cpu: 15, at: 0 })),
        "fault: bad pull at program 15 at 0\n",
        1,
    ),
    (
        BenchFault::Load(LoadFault::Setup(SetupFault::BadBegin { cpu: 63, at: 9999 })),
        "fault: bad begin at program 63 at 9999\n",
        1,
    ),
    (
        BenchFault::Play(PlayFault::TooLong),
        "fault: order longer than 1000000\n",
        1,
    ),
    (
        BenchFault::Play(PlayFault::NoCaller { at: 1 }),
        "fault: order at 1: no caller\n",
        1,
    ),
    (
        BenchFault::Play(PlayFault::Done { at: 4 }),
        "fault: order at 4: done\n",
        1,
    ),
    (
        BenchFault::Play(PlayFault::Short { caller: 2 }),
        "fault: order short at 2\n",
        1,
    ),
    (
        BenchFault::Load(LoadFault::Setup(SetupFault::Memory)),
        "fault: memory\n",
        3,
    ),
    (BenchFault::Load(LoadFault::Memory), "fault: memory\n", 3),
    (BenchFault::Play(PlayFault::Memory), "fault: memory\n", 3),
    (BenchFault::Run(RunFault::Memory), "fault: memory\n", 3),
    (BenchFault::Run(RunFault::Start), "fault: thread\n", 3),
    (BenchFault::Read, "fault: reading\n", 3),
    (BenchFault::Write, "fault: writing\n", 3),
    (BenchFault::Memory, "fault: memory\n", 3),
];

#[test]
fn each_fault_has_its_line_and_status(rt: HostRuntime) {
    for (fault, line, status) in &FAULTS {
        check(&rt, rt.alloc(), fault, line, *status);
    }
    let cpu = CpuId::new(15).expect(&rt, "cpu");
    let blocked = BenchFault::Play(PlayFault::Blocked { at: 4, cpu });
    check(
        &rt,
        rt.alloc(),
        &blocked,
        "fault: order at 4: blocked on 15\n",
        1,
    )
}
