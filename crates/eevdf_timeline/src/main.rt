//! `eevdf_timeline` reads a workload from a file or from standard input, as `eevdf` does, and draws what the scheduler answered: a picture
//! (SVG), a page with it (HTML), a trace (Trace Event JSON), a table of what ran when, or a table of figures.
//!
//! `history` comes to the lines that the proved calls answer, each with its time; all that is written is made of these. `drawing` makes a
//! scene of them (eevdf_scene), and has it drawn by eevdf_picture, eevdf_page or eevdf_trace_events, or has the lines counted by
//! eevdf_figures or drawn below the steps of their order by eevdf_race.
#![tactic(auto)]

mod drawing;
mod help;
mod history;
mod progress;
mod unknown_words;
mod words;

use crate::drawing::{DrawFault, draw};
use crate::help::{HELP, USAGE};
use crate::progress::ProgressLine;
use crate::unknown_words::{WITH_VALUE, beyond, unknown_word};
use crate::words::{Words, words_of};
use eevdf_bench::{
    BenchFault, Key, Kind, LoadFault, NO_MEMORY, Piped, ProgramTexts, Reasoned, Watched,
    WorkloadText, fault_text, named_file, print, status_of, take_file, tell, tell_reason,
    tell_text,
};
use eevdf_tell::{fault_explanation, tell_notes};
use std::alloc::Global;
use std::fs::Files;
use std::io;
use std::io::{IsTerminal, Read};
use std::process::ExitCode;
use std::rt::Env;
use std::sync::Wait;
use std::thread::Threads;

/// What the program says of itself.
const TEXTS: ProgramTexts = ProgramTexts {
    name: "eevdf_timeline",
    usage: USAGE,
    help: HELP,
};

/// What is said where there is no script to be drawn.
const OTHER_SOURCES: &[u8] =
    b"a workload with an order is drawn with --replay, and one of programs alone with --run\n";

fn main(rt: HostRuntime) -> ExitCode {
    let errors = rt.stderr();
    let progress = ProgressLine::new(rt.stderr(), errors.is_terminal());
    let (Ok(status) | Err(status)) = answer(&rt, &errors, rt.alloc(), &progress);
    ExitCode::from(status)
}

/// Does what the process's words ask for, and gives the exit status.
fn answer<R: Env + AllocGlobal + Files + Input + Print + Threads + Wait + Sync>(
    rt: &R,
    errors: &impl Print,
    alloc: Global,
    progress: &ProgressLine,
) -> Result<u8, u8> {
    let mut words = TEXTS.words(rt, errors, errors, alloc)?;
    let file = take_file(&mut words, 1, &WITH_VALUE);
    let name = named_file(&file);
    let asked = words_of(alloc, words.as_slice(), name).map_err(|fault| {
        let unknown = unknown_word(alloc, &words, file.is_some()).ok();
        TEXTS.refuse(errors, errors, fault, unknown)
    })?;
    Ok(match name {
        Some(path) => {
            let opened = TEXTS.open(rt, errors, errors, alloc, path)?;
            run(rt, errors, alloc, progress, &asked, name, opened)
        }
        None => run(rt, errors, alloc, progress, &asked, name, rt.reader()),
    })
}

/// Reads the workload from a reader and writes what is asked for, and gives the exit status.
fn run<R: Print + Threads + Wait + Sync, W: Read + Drop>(
    rt: &R,
    errors: &impl Print,
    alloc: Global,
    progress: &ProgressLine,
    words: &Words,
    file: Option<&str>,
    workload: W,
) -> u8 {
    let mut reader = Watched::new(Reasoned::new(workload));
    let mut writer = Watched::new(Piped::new(io::writer(rt)));
    let mut input = WorkloadText::new(alloc);
    match draw(
        rt,
        alloc,
        &mut reader,
        &mut writer,
        words,
        progress,
        &mut input,
    ) {
        Ok(()) => {
            tell_notes(errors, alloc, file, &input);
            0
        }
        Err(DrawFault::Bench(fault)) if writer.into_inner().is_unread() => status_of(&fault),
        Err(DrawFault::Bench(fault)) => {
            let status = print_fault(errors, alloc, file, &input.bytes, words, &fault);
            if fault == BenchFault::Read {
                tell_reason(errors, alloc, file, reader.into_inner().reason());
            }
            status
        }
        Err(DrawFault::NoCpu(cpu)) => refuse_choice(errors, alloc, "--cpu", cpu),
        Err(DrawFault::NoTask(task)) => refuse_choice(errors, alloc, "--task", task),
    }
}

/// Says that the workload hasn't what the words choose.
fn refuse_choice(errors: &impl Print, alloc: Global, flag: &str, number: usize) -> u8 {
    tell(errors, USAGE);
    tell_text(errors, beyond(alloc, flag, number).ok());
    2
}

/// Prints the line of a fault, and then where it stands in the workload.
fn print_fault(
    errors: &impl Print,
    alloc: Global,
    file: Option<&str>,
    input: &[u8],
    words: &Words,
    fault: &BenchFault,
) -> u8 {
    let Ok(line) = fault_text(alloc, fault) else {
        return print(errors, NO_MEMORY, 3);
    };
    tell(errors, line.as_slice());
    tell_text(errors, fault_explanation(alloc, file, input, fault));
    if let (BenchFault::Load(LoadFault::Missing { key: Key::Scripts }), Kind::Solo) = (
        fault,
        words.source,
    ) {
        tell(errors, OTHER_SOURCES);
    }
    status_of(fault)
}
