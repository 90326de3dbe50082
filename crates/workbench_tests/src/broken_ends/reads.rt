//! Reads that fail, and reads of few bytes.

use super::calls::{Failing, Failure};
use super::engine_run::{Ends, FAILED_READ, REPORT, WHOLE, Wanted, check};
use super::pieces::{Pieces, SINGLE_BYTES};
use super::workloads::{KINDS, ROWS, Row};
use std::alloc::Global;
use std::io::ErrorKind;
use std::process::Abort;
use std::sync::Wait;
use std::thread::Threads;

/// So many bytes each read gives.
const PIECE: usize = 16;

/// Reads that fail by an error that ends a connection.
pub fn broken_reads(failing: Failing) -> Failure {
    Failure {
        failing,
        kind: ErrorKind::ConnectionReset,
    }
}

/// Lets each of so many reads fail, for good or once, and then none. The last of them is the one that meets the end.
fn check_each_read<R: Threads + Wait + Abort + Sync>(
    rt: &R,
    alloc: Global,
    row: &Row<'_>,
    given: Pieces,
    reads: usize,
) {
    for call in 0..reads {
        let wanted = Wanted {
            reads: Some(call + 1),
            ..FAILED_READ
        };
        for failing in [Failing::From(call), Failing::Once(call)] {
            let ends = Ends {
                given,
                read: broken_reads(failing),
                ..WHOLE
            };
            check(rt, alloc, row, "a read fails", &ends, &wanted);
        }
    }
    let wanted = Wanted {
        reads: Some(reads),
        ..REPORT
    };
    check(
        rt,
        alloc,
        row,
        "no read fails",
        &Ends { given, ..WHOLE },
        &wanted,
    );
}

/// The read behind the last byte fails, for good or once, or by any error.
fn check_last_read<R: Threads + Wait + Abort + Sync>(rt: &R, alloc: Global, row: &Row<'_>) {
    let wanted = Wanted {
        rest: Some(0),
        reads: Some(2),
        ..FAILED_READ
    };
    for failing in [Failing::From(1), Failing::Once(1)] {
        let read = broken_reads(failing);
        check(
            rt,
            alloc,
            row,
            "the last read fails",
            &Ends { read, ..WHOLE },
            &wanted,
        );
    }
    for kind in KINDS {
        let read = Failure {
            failing: Failing::Once(1),
            kind,
        };
        check(
            rt,
            alloc,
            row,
            "the last read fails once",
            &Ends { read, ..WHOLE },
            &wanted,
        );
    }
}

#[test]
fn each_read_can_fail(rt: HostRuntime) {
    let alloc = rt.alloc();
    for row in &ROWS {
        let length = row.workload.len();
        check_each_read(
            &rt,
            alloc,
            row,
            Pieces::Listed(&[PIECE]),
            length.div_ceil(PIECE) + 1,
        );
        check_each_read(&rt, alloc, row, SINGLE_BYTES, length + 1);
        check_last_read(&rt, alloc, row);
    }
}
