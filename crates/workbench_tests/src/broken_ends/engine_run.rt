//! A run of the engine between two ends, and what is wanted of it.

use super::calls::{Failure, NO_FAILURE};
use super::piece_reader::PieceReader;
use super::piece_writer::PieceWriter;
use super::pieces::{ALL, Pieces};
use super::workloads::Row;
use eevdf_bench::{BenchFault, Command, Watched, engine};
use std::alloc::Global;
use std::process::Abort;
use std::sync::Wait;
use std::thread::Threads;

/// In which pieces the reader gives its bytes and the writer takes its own, and which of their calls fail.
#[derive(Clone, Copy)]
pub struct Ends {
    pub given: Pieces,
    pub read: Failure,
    pub taken: Pieces,
    pub write: Failure,
    pub flush: Failure,
}

/// Ends that move all bytes at once, and don't fail.
pub const WHOLE: Ends = Ends {
    given: ALL,
    read: NO_FAILURE,
    taken: ALL,
    write: NO_FAILURE,
    flush: NO_FAILURE,
};

/// What is wanted of a run. Numbers that are left out may be any.
#[derive(Clone, Copy)]
pub struct Wanted {
    pub result: Result<(), BenchFault>,
    /// How many bytes of the report are written; all of them where it has fewer.
    pub written: usize,
    /// How many bytes aren't read.
    pub rest: Option<usize>,
    pub reads: Option<usize>,
    pub writes: Option<usize>,
    pub flushes: usize,
}

/// The whole report is written, and flushed once, behind its last byte.
pub const REPORT: Wanted = Wanted {
    result: Ok(()),
    written: usize::MAX,
    rest: Some(0),
    reads: None,
    writes: None,
    flushes: 1,
};

/// The reader fails, and the writer is never called.
pub const FAILED_READ: Wanted = Wanted {
    result: Err(BenchFault::Read),
    written: 0,
    rest: None,
    reads: None,
    writes: Some(0),
    flushes: 0,
};

/// The writer fails after it has taken so many bytes of the report, in the last of so many calls.
pub fn failed_write(written: usize, writes: usize, flushes: usize) -> Wanted {
    Wanted {
        result: Err(BenchFault::Write),
        written,
        rest: Some(0),
        reads: None,
        writes: Some(writes),
        flushes,
    }
}

/// What the engine answered, and what became of its two ends.
#[derive(Drop)]
struct EngineRun<'a> {
    result: Result<(), BenchFault>,
    reader: PieceReader<'a>,
    reader_failed: bool,
    writer: PieceWriter,
    writer_failed: bool,
}

/// Runs the engine between two ends.
fn run_between<'a, R: Threads + Wait + Sync>(
    rt: &R,
    alloc: Global,
    row: &Row<'a>,
    ends: &Ends,
) -> EngineRun<'a> {
    let reader = PieceReader::new(row.workload, ends.given, ends.read);
    let writer = PieceWriter::new(alloc, ends.taken, ends.write, ends.flush);
    let mut reader = Watched::new(reader);
    let mut writer = Watched::new(writer);
    let command = Command {
        kind: row.kind,
        form: row.form,
    };
    let result = engine(rt, alloc, &mut reader, &mut writer, command);
    EngineRun {
        result,
        reader_failed: reader.failed(),
        reader: reader.into_inner(),
        writer_failed: writer.failed(),
        writer: writer.into_inner(),
    }
}

/// Runs the engine between two ends, and asks that what is wanted comes of it. `plan` is how the ends are told to fail.
pub fn check<R: Threads + Wait + Abort + Sync>(
    rt: &R,
    alloc: Global,
    row: &Row<'_>,
    plan: &str,
    ends: &Ends,
    wanted: &Wanted,
) {
    let run = run_between(rt, alloc, row, ends);
    assert!(rt; answers_as(&run, wanted), "{}, {plan}: answer", row.name);
    assert!(rt; writes_as(&run, row, wanted), "{}, {plan}: bytes", row.name);
    assert!(rt; calls_as(&run, wanted), "{}, {plan}: calls", row.name);
}

/// Whether the engine answers what is wanted, and an end has failed exactly where the answer says so.
fn answers_as(run: &EngineRun<'_>, wanted: &Wanted) -> bool {
    run.result == wanted.result
        && run.reader_failed == (run.result == Err(BenchFault::Read))
        && run.writer_failed == (run.result == Err(BenchFault::Write))
}

/// Whether what is wanted of the report is written, and all of it before the flush.
fn writes_as(run: &EngineRun<'_>, row: &Row<'_>, wanted: &Wanted) -> bool {
    let report = row.printed.as_bytes();
    let written = &report[..wanted.written.min(report.len())];
    run.writer.taken.as_slice() == written
        && (run.result.is_err() || run.writer.flushed == report.len())
}

/// Whether the ends were called as often as is wanted.
fn calls_as(run: &EngineRun<'_>, wanted: &Wanted) -> bool {
    is_wanted(run.reader.rest.len(), wanted.rest)
        && is_wanted(run.reader.reads.count, wanted.reads)
        && is_wanted(run.writer.writes.count, wanted.writes)
        && run.writer.flushes.count == wanted.flushes
}

fn is_wanted(number: usize, wanted: Option<usize>) -> bool {
    match wanted {
        Some(wanted) => number == wanted,
        None => true,
    }
}
