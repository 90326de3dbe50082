//! The workbench as a program: `eevdf solo`, `eevdf replay` and `eevdf run` read a workload from a file or from standard input and
//! print each CPU's schedule, or one line that says why not. Standard error says more of that: where in the workload, and what was
//! expected.
#![tactic(auto)]

mod help;
mod no_report;
mod words;

ghost use Rattle.std.specs.Prelude.{◌≡◌, false};

use crate::help::{HELP, USAGE};
use crate::no_report::NoReport;
use crate::words::{Asked, unknown_word, words_of};
use eevdf_bench::{
    BenchFault, NO_MEMORY, ProgramTexts, Reasoned, Watched, WorkloadText, engine_with_input,
    named_file, print, tell, tell_reason, tell_text, undone_text, write_text,
};
use eevdf_tell::{fault_explanation, tell_notes};
use std::alloc::Global;
use std::fs::Files;
use std::io;
use std::io::{ErrorKind, Read, Write};
use std::process::ExitCode;
use std::rt::Env;
use std::sync::Wait;
use std::thread::Threads;

/// What the program says of itself.
const TEXTS: ProgramTexts = ProgramTexts {
    name: "eevdf",
    usage: USAGE,
    help: HELP,
};

fn main(rt: HostRuntime) -> ExitCode {
    let (Ok(status) | Err(status)) = answer(&rt, &rt.stderr(), rt.alloc());
    ExitCode::from(status)
}

/// Does what the process's words ask for, and gives the exit status.
fn answer<R: Env + AllocGlobal + Files + Input + Print + Threads + Wait + Sync>(
    rt: &R,
    errors: &impl Print,
    alloc: Global,
) -> Result<u8, u8> {
    let mut words = TEXTS.words(rt, rt, errors, alloc)?;
    let asked = match words_of(alloc, &mut words) {
        Ok(asked) => asked,
        Err(refused) => {
            let unknown = unknown_word(alloc, &words, &refused);
            return Err(TEXTS.refuse(rt, errors, refused.fault, unknown));
        }
    };
    Ok(match named_file(&asked.file) {
        Some(name) => {
            let file = TEXTS.open(rt, rt, errors, alloc, name)?;
            run(rt, errors, alloc, &asked, file)
        }
        None => run(rt, errors, alloc, &asked, rt.reader()),
    })
}

/// Runs the command on the workload that a reader gives, and gives the exit status.
fn run<R: Print + Threads + Wait + Sync, W: Read + Drop>(
    rt: &R,
    errors: &impl Print,
    alloc: Global,
    asked: &Asked,
    workload: W,
) -> u8 {
    let mut reader = Watched::new(Reasoned::new(workload));
    let mut input = WorkloadText::new(alloc);
    let done = print_report(rt, alloc, asked, &mut reader, &mut input);
    match done {
        Ok(()) => {
            tell_beside(errors, alloc, asked, &input);
            0
        }
        Err(fault) => {
            let reason = reader.into_inner().reason();
            print_fault(rt, errors, alloc, asked, &input, &fault, reason)
        }
    }
}

/// Says what is told of a workload whose deeds were done: keys that nothing reads, deeds that were refused, and parts that the command
/// doesn't do.
fn tell_beside(errors: &impl Print, alloc: Global, asked: &Asked, input: &WorkloadText) {
    tell_notes(errors, alloc, named_file(&asked.file), input);
    if let Some(undone) = undone_text(asked.command.kind, input.notes.parts) {
        tell(errors, undone.as_bytes());
    }
}

/// Runs the command and prints its report. Where it is strict, the report is kept until it is known that no deed was refused.
fn print_report<R: Print + Threads + Wait + Sync, W: Read>(
    rt: &R,
    alloc: Global,
    asked: &Asked,
    reader: &mut Watched<W>,
    input: &mut WorkloadText,
) -> Result<(), NoReport>
    requires { reader.old.failed ≡ false }
{
    let mut writer = Watched::new(io::writer(rt));
    let command = asked.command;
    if !asked.strict {
        engine_with_input(rt, alloc, reader, &mut writer, command, input)?;
        return Ok(());
    }
    let mut report = Watched::new(Vec::new(alloc));
    match engine_with_input(rt, alloc, reader, &mut report, command, input) {
        Ok(()) => {}
        // a list of bytes fails where there is no memory for more
        Err(BenchFault::Write) => return Err(NoReport::Fault(BenchFault::Memory)),
        Err(fault) => return Err(NoReport::Fault(fault)),
    }
    if let Some(deed) = input.notes.refused.first {
        return Err(NoReport::Refused(deed));
    }
    write_text(&mut writer, report.into_inner().as_slice())?;
    Ok(())
}

/// Prints the line of a fault, and on standard error where it stands in the workload, or why that can't be read; of a deed that was refused
/// all that is told beside a report. Where standard output takes no line, standard error has it, but for a pipe that nobody reads any more.
fn print_fault(
    rt: &impl Print,
    errors: &impl Print,
    alloc: Global,
    asked: &Asked,
    input: &WorkloadText,
    fault: &NoReport,
    reason: Option<io::Error>,
) -> u8 {
    let Ok(line) = fault.line(alloc) else {
        return print(rt, NO_MEMORY, 3);
    };
    let file = named_file(&asked.file);
    match (io::writer(rt).write_all(&line), fault) {
        (Err(error), _) if error.kind() == ErrorKind::BrokenPipe => {}
        (Err(_), _) | (Ok(()), NoReport::Fault(BenchFault::Write)) => tell(errors, &line),
        (Ok(()), NoReport::Fault(BenchFault::Read)) => tell_reason(errors, alloc, file, reason),
        (Ok(()), NoReport::Fault(fault)) => {
            tell_text(errors, fault_explanation(alloc, file, &input.bytes, fault));
        }
        (Ok(()), NoReport::Refused(_)) => tell_beside(errors, alloc, asked, input),
    }
    fault.status()
}
