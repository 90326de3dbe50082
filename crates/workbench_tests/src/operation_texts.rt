//! Which texts are operations in which version, and of which meaning.

use crate::fixtures::{cpu, nice, ns, slice, task};
use crate::known_texts::{ALL, FOUR, LAST_TWO, LATER, Meaning, check};
use crate::whole_machines::with_operation;
use eevdf_ops::{Op, Setup};
use eevdf_workload::{Key, LoadFault, Version, read_workload};
use std::alloc::Global;
use std::process::Abort;

impl Meaning for Op {
    /// The first operation of CPU 0 is the text.
    fn read<A: Abort>(rt: &A, alloc: Global, version: Version, text: &str) -> Option<Op> {
        let workload = with_operation(rt, alloc, version, text);
        match read_workload(alloc, workload.as_bytes()) {
            Ok(workload) => first_operation(rt, workload.setup()),
            Err(LoadFault::BadValue { key: Key::Op(0, 0) }) => None,
            Err(_) => panic!(rt; "another fault"),
        }
    }
}

/// The first operation of CPU 0.
fn first_operation(rt: &impl Abort, setup: &Setup) -> Option<Op> {
    let cpu = cpu(rt, 0);
    if (cpu.get() as usize) < setup.cpus() {
        setup.program(cpu).first().copied()
    } else {
        None
    }
}

#[test]
fn all_versions_know_these_operations_without_numbers(rt: HostRuntime) {
    for (text, meant) in [
        ("pick", Op::Pick),
        ("yield", Op::Yield),
        ("drain", Op::Drain),
    ] {
        check(&rt, rt.alloc(), ALL, text, &meant);
    }
}

#[test]
fn all_versions_know_these_operations_with_numbers(rt: HostRuntime) {
    for (text, meant) in [
        ("tick 1", Op::Tick(ns(&rt, 1))),
        ("tick 1000000000", Op::Tick(ns(&rt, 1_000_000_000))),
        ("sleep 0", Op::Sleep(task(&rt, 0))),
        ("sleep 1023", Op::Sleep(task(&rt, 1023))),
        ("post 1023", Op::Post(task(&rt, 1023))),
        ("pull 15", Op::Pull(cpu(&rt, 15))),
    ] {
        check(&rt, rt.alloc(), ALL, text, &meant);
    }
}

#[test]
fn later_versions_know_more_operations(rt: HostRuntime) {
    for (text, meant) in [
        ("pull 16", Op::Pull(cpu(&rt, 16))),
        ("pull 63", Op::Pull(cpu(&rt, 63))),
        (
            "renice 1023 -20",
            Op::Renice(task(&rt, 1023), nice(&rt, -20)),
        ),
        ("renice 1023 -1", Op::Renice(task(&rt, 1023), nice(&rt, -1))),
        ("renice 0 0", Op::Renice(task(&rt, 0), nice(&rt, 0))),
        ("renice 0 19", Op::Renice(task(&rt, 0), nice(&rt, 19))),
    ] {
        check(&rt, rt.alloc(), LATER, text, &meant);
    }
}

#[test]
fn version_three_knows_more_operations(rt: HostRuntime) {
    let first = task(&rt, 0);
    let last = task(&rt, 1023);
    let (heaviest, middle, lightest) = (nice(&rt, -20), nice(&rt, 0), nice(&rt, 19));
    let (shortest, longest) = (slice(&rt, 100_000), slice(&rt, 100_000_000));
    for (text, meant) in [
        ("begin 0 0 100000", Op::Begin(first, middle, shortest)),
        (
            "begin 1023 -20 100000000",
            Op::Begin(last, heaviest, longest),
        ),
        ("end 0", Op::End(first)),
        ("end 1023", Op::End(last)),
        ("set 0 19 100000", Op::Set(first, lightest, shortest)),
        ("set 1023 -20 100000000", Op::Set(last, heaviest, longest)),
        ("rebase", Op::Rebase),
    ] {
        check(&rt, rt.alloc(), LAST_TWO, text, &meant);
    }
}

#[test]
fn version_four_knows_a_doze(rt: HostRuntime) {
    for (text, meant) in [
        ("doze 0", Op::Doze(task(&rt, 0))),
        ("doze 1023", Op::Doze(task(&rt, 1023))),
    ] {
        check(&rt, rt.alloc(), FOUR, text, &meant);
    }
}

#[test]
fn version_four_refuses_these_texts(rt: HostRuntime) {
    for text in [
        "doze",
        "doze ",
        "doze 1024",
        "doze 00",
        "doze -1",
        "doze 0 0",
        "doze  0",
        "Doze 0",
        "dozes 0",
    ] {
        let read = Op::read(&rt, rt.alloc(), Version::Four, text);
        assert!(rt; read.is_none(), "{text}");
    }
}

#[test]
fn version_three_refuses_these_texts(rt: HostRuntime) {
    for text in [
        "begin",
        "begin 0",
        "begin 0 0",
        "begin 0 0 99999",
        "begin 0 0 100000001",
        "begin 0 0 0100000",
        "begin 0 0 100000 0",
        "begin 0 -0 100000",
        "begin 0 +1 100000",
        "begin 0 20 100000",
        "begin 0 100000 0",
        "begin 1024 0 100000",
        "begin  0 0 100000",
        "end",
        "end 1024",
        "end 0 0",
        "set",
        "set 0 0",
        "set 0 -21 100000",
        "set 0 0 -100000",
        "set 0 0 100000 ",
        "rebase 0",
        "Rebase",
        "begins 0 0 100000",
        "slice 0 100000",
    ] {
        let read = Op::read(&rt, rt.alloc(), Version::Three, text);
        assert!(rt; read.is_none(), "{text}");
    }
}
