//! Writes and flushes that fail, and writes of few bytes.

use super::calls::{Failing, Failure};
use super::engine_run::{Ends, REPORT, WHOLE, Wanted, check, failed_write};
use super::pieces::{Pieces, SINGLE_BYTES};
use super::workloads::{KINDS, ROWS, Row};
use std::alloc::Global;
use std::io::ErrorKind;
use std::process::Abort;
use std::sync::Wait;
use std::thread::Threads;

/// So many bytes each write takes.
const PIECE: usize = 7;

/// Writes or flushes that fail by an error that a closed pipe gives.
pub fn broken_writes(failing: Failing) -> Failure {
    Failure {
        failing,
        kind: ErrorKind::BrokenPipe,
    }
}

/// Lets each write of a report fail, for good or once.
fn check_each_write<R: Threads + Wait + Abort + Sync>(rt: &R, alloc: Global, row: &Row<'_>) {
    for call in 0..row.printed.len().div_ceil(PIECE) {
        let wanted = failed_write(call.saturating_mul(PIECE), call + 1, 0);
        for failing in [Failing::From(call), Failing::Once(call)] {
            let ends = Ends {
                taken: Pieces::Listed(&[PIECE]),
                write: broken_writes(failing),
                ..WHOLE
            };
            check(rt, alloc, row, "a write fails", &ends, &wanted);
        }
    }
}

/// The second write or the flush fails, for good or once.
fn check_last_calls<R: Threads + Wait + Abort + Sync>(rt: &R, alloc: Global, row: &Row<'_>) {
    for failing in [Failing::From(1), Failing::Once(1)] {
        let ends = Ends {
            taken: Pieces::Listed(&[10]),
            write: broken_writes(failing),
            ..WHOLE
        };
        check(
            rt,
            alloc,
            row,
            "ten bytes are taken",
            &ends,
            &failed_write(10, 2, 0),
        );
    }
    for failing in [Failing::From(0), Failing::Once(0)] {
        let ends = Ends {
            flush: broken_writes(failing),
            ..WHOLE
        };
        check(
            rt,
            alloc,
            row,
            "the flush fails",
            &ends,
            &failed_write(usize::MAX, 1, 1),
        );
    }
}

/// The first write or the flush fails by any error.
fn check_each_kind<R: Threads + Wait + Abort + Sync>(rt: &R, alloc: Global, row: &Row<'_>) {
    for kind in KINDS {
        let failure = Failure {
            failing: Failing::Once(0),
            kind,
        };
        let ends = Ends {
            write: failure,
            ..WHOLE
        };
        check(
            rt,
            alloc,
            row,
            "the write fails once",
            &ends,
            &failed_write(0, 1, 0),
        );
        let ends = Ends {
            flush: failure,
            ..WHOLE
        };
        check(
            rt,
            alloc,
            row,
            "the flush fails once",
            &ends,
            &failed_write(usize::MAX, 1, 1),
        );
    }
}

/// A writer that takes nothing of some piece, how many bytes it took before, and how often it was called.
struct Refusal {
    taken: Pieces,
    written: usize,
    writes: usize,
}

const REFUSALS: [Refusal; 4] = [
    Refusal {
        taken: Pieces::Listed(&[0]),
        written: 0,
        writes: 1,
    },
    Refusal {
        taken: Pieces::Listed(&[0, 1000]),
        written: 0,
        writes: 1,
    },
    Refusal {
        taken: Pieces::Listed(&[10, 0]),
        written: 10,
        writes: 2,
    },
    Refusal {
        taken: Pieces::Listed(&[10, 0, 1000]),
        written: 10,
        writes: 2,
    },
];

/// A write that takes nothing is the last.
fn check_refusals<R: Threads + Wait + Abort + Sync>(rt: &R, alloc: Global, row: &Row<'_>) {
    for refusal in &REFUSALS {
        let ends = Ends {
            taken: refusal.taken,
            ..WHOLE
        };
        let wanted = failed_write(refusal.written, refusal.writes, 0);
        check(rt, alloc, row, "nothing is taken", &ends, &wanted);
    }
}

#[test]
fn each_write_and_each_flush_can_fail(rt: HostRuntime) {
    let alloc = rt.alloc();
    for row in &ROWS {
        check_each_write(&rt, alloc, row);
        check_last_calls(&rt, alloc, row);
        check_each_kind(&rt, alloc, row);
        check_refusals(&rt, alloc, row);
        let ends = Ends {
            taken: SINGLE_BYTES,
            ..WHOLE
        };
        let wanted = Wanted {
            writes: Some(row.printed.len()),
            ..REPORT
        };
        check(&rt, alloc, row, "a byte a call is taken", &ends, &wanted);
    }
}
