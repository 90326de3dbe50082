//! A reader and a writer that both fail, and ends that move drawn pieces.

ghost use Rattle.std.specs.Prelude.{◌<◌};

use super::calls::Failing;
use super::engine_run::{Ends, FAILED_READ, REPORT, WHOLE, Wanted, check, failed_write};
use super::pieces::Pieces;
use super::reads::broken_reads;
use super::workloads::{ROWS, Row};
use super::writes::broken_writes;
use eevdf_bench::{BenchFault, Form, Key, Kind, LoadFault};
use std::alloc::Global;
use std::process::Abort;
use std::sync::Wait;
use std::thread::Threads;

/// The reader fails, and the writer takes nothing and can't be flushed.
fn broken_ends(failing: Failing) -> Ends {
    Ends {
        read: broken_reads(failing),
        write: broken_writes(Failing::From(0)),
        flush: broken_writes(Failing::From(0)),
        ..WHOLE
    }
}

/// A failed read comes before a broken writer, and a failed write is not flushed.
fn check_broken_writer<R: Threads + Wait + Abort + Sync>(rt: &R, alloc: Global, row: &Row<'_>) {
    for failing in [Failing::From(0), Failing::Once(0), Failing::Once(1)] {
        check(
            rt,
            alloc,
            row,
            "both ends fail",
            &broken_ends(failing),
            &FAILED_READ,
        );
    }
    let ends = broken_ends(Failing::Never);
    check(
        rt,
        alloc,
        row,
        "the writer fails",
        &ends,
        &failed_write(0, 1, 0),
    );
}

/// No bytes, which are refused.
const NO_TEXT: Row<'static> = Row {
    name: "no text",
    kind: Kind::Solo,
    form: Form::PLAIN,
    workload: b"",
    printed: "",
};

#[test]
fn a_broken_writer_comes_last(rt: HostRuntime) {
    let alloc = rt.alloc();
    for row in &ROWS {
        check_broken_writer(&rt, alloc, row);
    }
    let missing = LoadFault::Missing { key: Key::Version };
    let wanted = Wanted {
        result: Err(BenchFault::Load(missing)),
        ..FAILED_READ
    };
    let ends = broken_ends(Failing::Never);
    check(&rt, alloc, &NO_TEXT, "the writer fails", &ends, &wanted);
}

/// The reader gives drawn pieces, the writer takes them, or both.
fn check_drawn<R: Threads + Wait + Abort + Sync>(rt: &R, alloc: Global, row: &Row<'_>, seed: u64)
    requires { seed < 100 }
{
    let given = Pieces::Drawn(seed);
    check(
        rt,
        alloc,
        row,
        "drawn pieces are given",
        &Ends { given, ..WHOLE },
        &REPORT,
    );
    let taken = Pieces::Drawn(seed);
    check(
        rt,
        alloc,
        row,
        "drawn pieces are taken",
        &Ends { taken, ..WHOLE },
        &REPORT,
    );
    let taken = Pieces::Drawn(seed + 20);
    check(
        rt,
        alloc,
        row,
        "drawn pieces are moved",
        &Ends {
            given,
            taken,
            ..WHOLE
        },
        &REPORT,
    );
}

#[test]
fn ends_can_move_drawn_pieces(rt: HostRuntime) {
    for seed in 1..=20 {
        for row in &ROWS {
            check_drawn(&rt, rt.alloc(), row, seed);
        }
    }
}
