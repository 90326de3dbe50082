//! `eevdf_orders [--seed N] [FILE]` reads a workload from a file or from standard input and prints it with an order of the callers'
//! steps in front, lawful and complete, for `eevdf replay`: in turn, or drawn at random from a seed.
#![tactic(auto)]

mod caller_choice;
mod help;
mod order_making;
mod order_text;
mod ordered_workload;
mod print_fault;
mod word_seed;

use crate::help::{HELP, USAGE};
use crate::ordered_workload::print_ordered;
use crate::print_fault::{PrintFault, explanation, fault_line, status_of};
use crate::word_seed::seed_of;
use eevdf_bench::{
    BenchFault, NO_MEMORY, Piped, ProgramTexts, Reasoned, Watched, WorkloadText, is_flag,
    may_name_file, named_file, print, take_file, tell, tell_reason, tell_text,
};
use eevdf_explain::told_word;
use eevdf_tell::tell_notes;
use std::alloc::Global;
use std::fs::Files;
use std::io;
use std::io::Read;
use std::process::ExitCode;
use std::rt::Env;

/// What the program says of itself.
const TEXTS: ProgramTexts = ProgramTexts {
    name: "eevdf_orders",
    usage: USAGE,
    help: HELP,
};

/// What is said of a workload with a script.
const NOT_ORDERED: &[u8] =
    b"not ordered: the script, which `eevdf solo` does as it stands; the order is of the programs\n";

fn main(rt: HostRuntime) -> ExitCode {
    let (Ok(status) | Err(status)) = answer(&rt, &rt.stderr(), rt.alloc());
    ExitCode::from(status)
}

/// Does what the process's words ask for, and gives the exit status.
fn answer<R: Env + AllocGlobal + Files + Input + Print>(
    rt: &R,
    errors: &impl Print,
    alloc: Global,
) -> Result<u8, u8> {
    let mut words = TEXTS.words(rt, errors, errors, alloc)?;
    let file = take_file(&mut words, 1, &["--seed"]);
    let seed = seed_of(alloc, words.as_slice()).map_err(|fault| {
        let unknown = unknown_word(alloc, &words, file.is_some());
        TEXTS.refuse(errors, errors, fault, unknown)
    })?;
    let name = named_file(&file);
    Ok(match name {
        Some(path) => {
            let opened = TEXTS.open(rt, errors, errors, alloc, path)?;
            run(rt, errors, alloc, seed, name, opened)
        }
        None => run(rt, errors, alloc, seed, name, rt.reader()),
    })
}

/// The word that isn't known, where there is memory to say it.
fn unknown_word(alloc: Global, words: &[String], has_file: bool) -> Option<String> {
    for at in 1..words.len() {
        let word = words[at].as_str();
        let is_seed = at > 1 && words[at - 1].as_str() == "--seed";
        let told = told_word(alloc, word).ok()?;
        if is_seed && word.parse::<u64>().is_err() {
            return format!(in alloc;
                "--seed takes a whole number below 2^64, and {told} is none\n"
            ).ok();
        }
        if !is_seed && has_file && (word == "-" || may_name_file(word)) {
            return format!(in alloc; "one file is read, and {told} is another\n").ok();
        }
        if !is_seed && !is_flag(word, "--seed") {
            return format!(in alloc;
                "unknown word {told}; words are --seed with a number, and the name of a file\n"
            ).ok();
        }
    }
    "--seed stands once, and takes a whole number below 2^64\n"
        .to_string(alloc)
        .ok()
}

/// Reads the workload from a reader and prints it with its order, and gives the exit status.
fn run<W: Read + Drop>(
    rt: &impl Print,
    errors: &impl Print,
    alloc: Global,
    seed: Option<u64>,
    file: Option<&str>,
    workload: W,
) -> u8 {
    let mut reader = Watched::new(Reasoned::new(workload));
    let mut writer = Watched::new(Piped::new(io::writer(rt)));
    let mut input = WorkloadText::new(alloc);
    match print_ordered(alloc, &mut reader, &mut writer, seed, &mut input) {
        Ok(()) => {
            tell_notes(errors, alloc, file, &input);
            if input.notes.parts.script {
                tell(errors, NOT_ORDERED);
            }
            0
        }
        Err(fault) if writer.into_inner().is_unread() => status_of(&fault),
        Err(fault) => {
            let status = refuse_fault(errors, alloc, file, &input.bytes, &fault);
            if let PrintFault::Bench(BenchFault::Read) = fault {
                tell_reason(errors, alloc, file, reader.into_inner().reason());
            }
            status
        }
    }
}

/// Prints the line of a fault, and then where it stands in the workload.
fn refuse_fault(
    errors: &impl Print,
    alloc: Global,
    file: Option<&str>,
    input: &[u8],
    fault: &PrintFault,
) -> u8 {
    let Ok(line) = fault_line(alloc, fault) else {
        return print(errors, NO_MEMORY, 3);
    };
    tell(errors, line.as_slice());
    tell_text(errors, explanation(alloc, file, input, fault));
    status_of(fault)
}
