//! The calls that make a text.

use crate::called::{called, say_text};
use crate::stopped::Stopped;
use eevdf_bench::{
    BenchFault, Command, Form, Key, Kind, LoadFault, Watched, WordFault, Workload, command_of,
    engine, fault_text, replay_text, report, run_text, solo_text,
};
use eevdf_fleet::RunFault;
use eevdf_ops::{Outcome, SetupFault};
use eevdf_steps::PlayFault;
use std::alloc::Global;
use std::io;
use std::sync::Wait;
use std::thread::Threads;

/// The line of a fault that no workload here has.
pub fn fault_calls(rt: &impl Print, alloc: Global) -> Result<(), Stopped> {
    let key = Key::Op(3, 141);
    say_fault(rt, alloc, &BenchFault::Load(LoadFault::BadValue { key }))
}

/// The calls that make a report, each with its command and the form that is asked for.
const TEXTS: [(&str, Kind, Form); 5] = [
    ("solo_text", Kind::Solo, Form::PLAIN),
    ("solo_text --history", Kind::Solo, Form::WITH_HISTORY),
    ("replay_text", Kind::Replay, Form::PLAIN),
    ("replay_text --history", Kind::Replay, Form::WITH_HISTORY),
    ("run_text", Kind::Run, Form::PLAIN),
];

/// The reports of a workload by each command, or the faults' lines.
pub fn text_calls<R: Print + Threads + Wait + Sync>(
    rt: &R,
    alloc: Global,
    workload: &Workload,
) -> Result<(), Stopped> {
    for (name, kind, form) in TEXTS {
        let text = called!(
            rt,
            name,
            if is_refused,
            text_of(rt, alloc, workload, kind, form)
        );
        say_answer(rt, alloc, text)?;
    }
    Ok(())
}

fn text_of<R: Threads + Wait + Sync>(
    rt: &R,
    alloc: Global,
    workload: &Workload,
    kind: Kind,
    form: Form,
) -> Result<Vec<u8>, BenchFault> {
    match kind {
        Kind::Solo => solo_text(alloc, workload, form),
        Kind::Replay => replay_text(alloc, workload, form),
        Kind::Run => run_text(rt, alloc, workload, form),
    }
}

/// The program's words for each command, with what the two calls are named.
const WORDS: [(&str, &str, &[&str]); 3] = [
    (
        "command_of solo",
        "engine solo --history",
        &["eevdf", "solo", "--history"],
    ),
    ("command_of replay", "engine replay", &["eevdf", "replay"]),
    ("command_of run", "engine run", &["eevdf", "run"]),
];

/// The same reports by `engine`, which reads the workload from its bytes and prints the report itself.
pub fn engine_calls<R: Print + Threads + Wait + Sync>(
    rt: &R,
    alloc: Global,
    bytes: &[u8],
) -> Result<(), Stopped> {
    for (command_name, engine_name, words) in WORDS {
        let command = called!(
            rt,
            command_name,
            Err(WordFault::Memory),
            command_of(alloc, words)
        )
        .map_err(|_| Stopped)?;
        let answer = called!(
            rt,
            engine_name,
            if is_refused,
            print_report(rt, alloc, bytes, command)
        );
        say_refusal(rt, alloc, answer)?;
    }
    Ok(())
}

/// Whether memory was refused, or a thread, which takes memory too.
fn is_refused<T>(answer: &Result<T, BenchFault>) -> bool {
    match answer {
        Ok(_) => false,
        Err(fault) => {
            matches!(
                fault,
                BenchFault::Memory
                    | BenchFault::Load(LoadFault::Memory | LoadFault::Setup(SetupFault::Memory))
                    | BenchFault::Play(PlayFault::Memory)
                    | BenchFault::Run(RunFault::Memory | RunFault::Start)
            )
        }
    }
}

fn print_report<R: Print + Threads + Wait + Sync>(
    rt: &R,
    alloc: Global,
    bytes: &[u8],
    command: Command,
) -> Result<(), BenchFault> {
    let mut reader = Watched::new(bytes);
    let mut writer = Watched::new(io::writer(rt));
    engine(rt, alloc, &mut reader, &mut writer, command)
}

/// Prints the report of an outcome, with its history.
pub fn say_outcome(rt: &impl Print, alloc: Global, outcome: &Outcome) -> Result<(), Stopped> {
    say_report(rt, alloc, outcome, Form::WITH_HISTORY)
}

/// Prints the report of an outcome.
pub fn say_report(
    rt: &impl Print,
    alloc: Global,
    outcome: &Outcome,
    form: Form,
) -> Result<(), Stopped> {
    let text = called!(rt, "report", Err(_), report(alloc, outcome, form))?;
    say_text(rt, &text);
    Ok(())
}

/// Prints a text, or the line of the fault.
fn say_answer(
    rt: &impl Print,
    alloc: Global,
    text: Result<Vec<u8>, BenchFault>,
) -> Result<(), Stopped> {
    match text {
        Ok(text) => {
            say_text(rt, &text);
            Ok(())
        }
        Err(fault) => say_fault(rt, alloc, &fault),
    }
}

fn say_refusal(
    rt: &impl Print,
    alloc: Global,
    answer: Result<(), BenchFault>,
) -> Result<(), Stopped> {
    match answer {
        Ok(()) => Ok(()),
        Err(fault) => say_fault(rt, alloc, &fault),
    }
}

/// Prints the line of a fault.
pub fn say_fault(rt: &impl Print, alloc: Global, fault: &BenchFault) -> Result<(), Stopped> {
    let line = called!(rt, "fault_text", Err(_), fault_text(alloc, fault))?;
    say_text(rt, &line);
    Ok(())
}
