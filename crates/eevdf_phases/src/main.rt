//! `eevdf_phases [--from trace] [--run|--stats] [FILE]` reads a workload of phases from a file or from standard input and prints the script
//! that the scheduler does with it, as a workload for `eevdf solo`; with `--run` the deeds with their answers, and with `--stats` what each
//! task came to. With `--from trace` it is the trace of a real machine that is read, in which each task's runs and sleeps are its phases.
#![tactic(auto)]

mod ending;
mod fair_shares;
mod figure_text;
mod figures;
mod help;
mod names;
mod playing;
mod printing;
mod progress;
mod refusing;
mod requests;
mod row;
mod script;
mod waits;
mod words;

use crate::help::{HELP, USAGE};
use crate::playing::play_text;
use crate::words::{Asked, FROM, Output, asked_of, unknown_word};
use eevdf_bench::{
    BenchFault, NO_MEMORY, ProgramTexts, Reasoned, Watched, WordFault, fault_text, named_file,
    read_input, status_of, take_file, tell, tell_reason,
};
use std::alloc::Global;
use std::fs::Files;
use std::io::{IsTerminal, Read};
use std::process::ExitCode;
use std::rt::Env;

/// What the program says of itself.
const TEXTS: ProgramTexts = ProgramTexts {
    name: "eevdf_phases",
    usage: USAGE,
    help: HELP,
};

fn main(rt: HostRuntime) -> ExitCode {
    let errors = rt.stderr();
    let watching = Watching {
        errors: errors.is_terminal(),
        output: rt.stdout().is_terminal(),
    };
    let (Ok(status) | Err(status)) = answer(&rt, &errors, rt.alloc(), watching);
    ExitCode::from(status)
}

/// Which streams are terminals.
#[derive(Clone, Copy)]
struct Watching {
    errors: bool,
    output: bool,
}

impl Watching {
    /// Whether a line on standard error tells how far it is: on a terminal, unless what is printed comes there at the same time.
    fn is_told(self, output: Output) -> bool {
        self.errors && (output == Output::Figures || !self.output)
    }
}

/// Does what the process's words ask for, and gives the exit status.
fn answer<R: Env + AllocGlobal + Files + Input + Print>(
    rt: &R,
    errors: &impl Print,
    alloc: Global,
    watching: Watching,
) -> Result<u8, u8> {
    let mut words = TEXTS.words(rt, errors, errors, alloc)?;
    let file = take_file(&mut words, 1, &[FROM]);
    let Some(mut asked) = asked_of(&words) else {
        let unknown = unknown_word(alloc, &words, file.is_some()).ok();
        return Err(TEXTS.refuse(errors, errors, WordFault::Words, unknown));
    };
    asked.is_watched = watching.is_told(asked.output);
    let name = named_file(&file);
    Ok(match name {
        Some(path) => {
            let opened = TEXTS.open(rt, errors, errors, alloc, path)?;
            run(rt, errors, alloc, asked, name, opened)
        }
        None => run(rt, errors, alloc, asked, name, rt.reader()),
    })
}

/// Reads what is asked for from a reader and plays it, and gives the exit status.
fn run<W: Read + Drop>(
    rt: &impl Print,
    errors: &impl Print,
    alloc: Global,
    asked: Asked,
    file: Option<&str>,
    workload: W,
) -> u8 {
    let mut reader = Watched::new(Reasoned::new(workload));
    match read_input(alloc, &mut reader) {
        Ok(bytes) => play_text(rt, errors, alloc, file, &bytes, asked),
        Err(fault) => {
            let status = not_read(errors, alloc, &fault);
            if fault == BenchFault::Read {
                tell_reason(errors, alloc, file, reader.into_inner().reason());
            }
            status
        }
    }
}

/// Says that the workload couldn't be read, and gives the status.
fn not_read(errors: &impl Print, alloc: Global, fault: &BenchFault) -> u8 {
    match fault_text(alloc, fault) {
        Ok(line) => tell(errors, &line),
        Err(_) => tell(errors, NO_MEMORY),
    }
    status_of(fault)
}
