//! Workloads of more bytes than there may be.

use super::engine_run::{FAILED_READ, WHOLE, Wanted, check};
use super::workloads::Row;
use eevdf_bench::{BenchFault, Form, Kind, LoadFault, read_workload};

/// So many bytes a workload may have.
const MOST: usize = 16_777_216;

/// A longer workload is refused by the call; and a reader of more bytes is read to one byte more, and no further.
#[test]
fn a_longer_workload_is_refused(rt: HostRuntime) {
    let alloc = rt.alloc();
    let mut newlines = Vec::new(alloc);
    newlines.resize(MOST + 1, b'\n').expect(&rt, "memory");
    let fault = read_workload(alloc, &newlines).err().expect(&rt, "fault");
    assert!(rt; fault == LoadFault::TooLarge);
    newlines.resize(MOST + 100_000, b'\n').expect(&rt, "memory");
    let row = Row {
        name: "newlines",
        kind: Kind::Solo,
        form: Form::PLAIN,
        workload: &newlines,
        printed: "",
    };
    let wanted = Wanted {
        result: Err(BenchFault::Load(LoadFault::TooLarge)),
        rest: Some(99_999),
        ..FAILED_READ
    };
    check(&rt, alloc, &row, "nothing fails", &WHOLE, &wanted);
}
