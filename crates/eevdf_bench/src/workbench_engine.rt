//! From the bytes of a workload to the bytes of its report.

ghost use Rattle.std.specs.Prelude.{◌≡◌, ◌≢◌, false, IfOk, IfSome, OnOk, Err, take};
ghost use Rattle.eevdf_bench.specs.Engine.{CarriesOut};
ghost use Rattle.eevdf_bench.specs.RefusedDeeds.{refused_of, refused_of_text};
ghost use Rattle.eevdf_bench.specs.Reports.{IsReport, IsReportOf};
ghost use Rattle.eevdf_bench.specs.Runs.{Answers, IsAnswer, IsAnswerOf};
ghost use Rattle.eevdf_workload.specs.Meaning.{read_limit};

use crate::byte_streams::{read_input, write_text};
use crate::command::{Command, Kind};
use crate::fleet_run::run_text;
use crate::parts::Parts;
use crate::refused_deeds::RefusedDeeds;
use crate::replay_run::replay_text;
use crate::solo_run::noted_solo_text;
use crate::watched::Watched;
use crate::workbench_fault::BenchFault;
use crate::workload_text::{Notes, WorkloadText};
use eevdf_fleet::RunFault;
use eevdf_workload::{Workload, read_workload};
use std::alloc::Global;
use std::io::{Read, Write};
use std::sync::Wait;
use std::thread::Threads;

/// Reads a workload to its end, makes the whole report that the command asks for, and writes it. Neither end may have
/// failed before. `Load` is the first fault of the workload or the part that it lacks, `Play` the fault of its order, and
/// `Run` comes where a run of the programs was refused a thread.
///
/// The report of `solo` and that of `replay` are determined by the workload; the report of a run depends on the order in
/// which its threads came, too. Each is that of one thread that does the deeds of its lines one after the other, each at once.
///
/// A reader that goes on for more than `Workload::MOST_BYTES` bytes is read to one byte more, and then refused; it is never read
/// further. `Read` comes exactly where the reader failed, `Write` exactly where the writer did, and `Ok` where neither did and
/// the report is flushed. An end that failed isn't called again. After a `Write` a beginning of the report was written, the
/// whole report where it was the flush that failed; after any other fault the writer is as it was. Only `Read` and `Memory` may
/// come before the workload has been read to its end.
pub fn engine<T: Threads + Wait + Sync, R: Read, W: Write>(
    rt: &T,
    alloc: Global,
    reader: &mut Watched<R>,
    writer: &mut Watched<W>,
    command: Command,
) -> Result<(), BenchFault>
    requires reader { reader.old.failed ≡ false }
    requires writer { writer.old.failed ≡ false }
    ensures carries_out { CarriesOut command result
        (R.remaining reader.old.end) (R.remaining reader.new.end)
        (W.contents writer.old.end) (W.contents writer.new.end) reader.new writer.old writer.new }
{
    let mut input = WorkloadText::new(alloc);
    engine_with_input(rt, alloc, reader, writer, command, &mut input)
}

/// As `engine`, and leaves in `input` the bytes that it has read. After `Read` and `Memory` they may be others. Where the report is
/// written, `input` also has what is told beside it: of a script the first deed that was refused; the rest follows from no clause.
pub fn engine_with_input<T: Threads + Wait + Sync, R: Read, W: Write>(
    rt: &T,
    alloc: Global,
    reader: &mut Watched<R>,
    writer: &mut Watched<W>,
    command: Command,
    input: &mut WorkloadText,
) -> Result<(), BenchFault>
    requires reader { reader.old.failed ≡ false }
    requires writer { writer.old.failed ≡ false }
    ensures carries_out { CarriesOut command result
        (R.remaining reader.old.end) (R.remaining reader.new.end)
        (W.contents writer.old.end) (W.contents writer.new.end) reader.new writer.old writer.new }
    ensures kept { result ≢ Err BenchFault.Read → result ≢ Err BenchFault.Memory →
        IfSome (R.remaining reader.old.end) (λ all. input.new.bytes.items ≡ take read_limit all) }
    ensures noted { OnOk result (command.kind ≡ Kind.Solo →
        IfSome (R.remaining reader.old.end) (λ all. input.new.notes.refused.first ≡ refused_of_text all)) }
{
    let bytes = read_input(alloc, reader)?;
    let answer = answer(rt, alloc, &bytes, command, &mut input.notes);
    input.bytes = bytes;
    let text = match answer {
        Ok(text) => text,
        Err(fault) => return Err(fault),
    };
    write_text(writer, &text)
}

/// The text of the report that a command makes of the bytes of a workload, and what is told beside it.
fn answer<T: Threads + Wait + Sync>(
    rt: &T,
    alloc: Global,
    input: &[u8],
    command: Command,
    notes: &mut Notes,
) -> Result<Vec<u8>, BenchFault>
    ensures answer { Answers (IsAnswerOf command input.now) result }
    ensures thread { result ≡ Err (BenchFault.Run RunFault.Start) → command.kind ≡ Kind.Run }
    ensures one_thread { IfOk result (λ t. IsReportOf command input.now t.items) }
    ensures noted { OnOk result (command.kind ≡ Kind.Solo → notes.new.refused.first ≡ refused_of_text input.now) }
{
    let workload = match read_workload(alloc, input) {
        Ok(workload) => workload,
        Err(fault) => return Err(BenchFault::Load(fault)),
    };
    notes.has_unread_keys = workload.has_unread_keys();
    notes.parts = Parts::of(&workload);
    text_of(rt, alloc, &workload, command, &mut notes.refused)
}

/// The text of the report that a command makes of a workload, and of a script the deeds that were refused.
fn text_of<T: Threads + Wait + Sync>(
    rt: &T,
    alloc: Global,
    workload: &Workload,
    command: Command,
    refused: &mut RefusedDeeds,
) -> Result<Vec<u8>, BenchFault>
    ensures answer { Answers (IsAnswer command.kind workload.now command.form) result }
    ensures thread { result ≡ Err (BenchFault.Run RunFault.Start) → command.kind ≡ Kind.Run }
    ensures one_thread { IfOk result (λ t.
        IsReport command.kind workload.now command.form t.items) }
    ensures noted { OnOk result (command.kind ≡ Kind.Solo → refused.new.first ≡ refused_of workload.now) }
{
    match command.kind {
        Kind::Solo => noted_solo_text(alloc, workload, command.form, refused),
        Kind::Replay => replay_text(alloc, workload, command.form),
        Kind::Run => run_text(rt, alloc, workload, command.form),
    }
}
