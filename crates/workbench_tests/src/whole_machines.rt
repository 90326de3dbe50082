//! Workloads with as many CPUs and tasks as a version allows, so that what they refuse isn't that a CPU or a task is missing.

use eevdf_workload::Version;
use std::alloc::Global;
use std::process::Abort;

/// So many tasks there may be.
const TASKS: usize = 1024;

/// A workload in which CPU 0 has a program of this one operation.
pub fn with_operation(rt: &impl Abort, alloc: Global, version: Version, operation: &str) -> String {
    let program = format!(in alloc; "[\"{operation}\"], ").expect(rt, "memory");
    workload(rt, alloc, version, &program, "")
}

/// A workload without operations, and with a script of this one deed.
pub fn with_deed(rt: &impl Abort, alloc: Global, version: Version, deed: &str) -> String {
    let script = format!(in alloc; "script = [\"{deed}\"]\n").expect(rt, "memory");
    workload(rt, alloc, version, "[], ", &script)
}

/// A workload with the text of the first program, and with the line of a script.
fn workload(
    rt: &impl Abort,
    alloc: Global,
    version: Version,
    program: &str,
    script: &str,
) -> String {
    let (number, cpus) = match version {
        Version::One => (1, 16),
        Version::Two => (2, 64),
        Version::Three => (3, 64),
        Version::Four => (4, 64),
    };
    let mut text = format!(in alloc; "version = {number}\nprogram = [{program}").expect(
        rt, "memory",
    );
    push_times(rt, &mut text, "[], ", cpus - 1);
    text.push_str("]\n").expect(rt, "memory");
    text.push_str(script).expect(rt, "memory");
    text.push_str("task = [").expect(rt, "memory");
    push_times(rt, &mut text, "{}, ", TASKS);
    text.push_str("]\n").expect(rt, "memory");
    text
}

/// Adds a piece so many times to a text.
fn push_times(rt: &impl Abort, text: &mut String, piece: &str, times: usize) {
    for _time in 0..times {
        text.push_str(piece).expect(rt, "memory");
    }
}
