//! What is printed of a machine that is driven, beside its script.

use crate::ending::Ending;
use crate::figure_text::print_figures;
use crate::figures::AllFigures;
use crate::names::Names;
use crate::progress::Progress;
use eevdf_clocks::named_task;
use eevdf_closed_loop::ClosedLoop;
use eevdf_ops::{Answer, Deed, Line};
use eevdf_queue::TaskId;
use std::io;
use std::io::Write;

/// Drives a machine to its end, and prints its deeds with their answers.
pub(crate) fn print_answers<W: Write, P: Print>(
    out: &mut W,
    names: &Names,
    machine: &mut ClosedLoop,
    progress: &mut Progress<P>,
) -> io::Result<Ending> {
    for _deed in 0..u64::MAX {
        let Some(line) = machine.step() else {
            break;
        };
        progress.count(machine);
        print_answer(out, names, moment_of(machine, &line), &line)?;
    }
    Ok(Ending::of(machine))
}

/// Drives a machine to its end, and prints what its tasks came to.
pub(crate) fn print_stats<W: Write, P: Print>(
    out: &mut W,
    names: &Names,
    machine: &mut ClosedLoop,
    figures: &mut AllFigures,
    progress: &mut Progress<P>,
) -> io::Result<Ending> {
    for _deed in 0..u64::MAX {
        let Some(line) = machine.step() else {
            break;
        };
        progress.count(machine);
        figures.count(machine, &line);
    }
    print_figures(out, names, machine, figures)?;
    Ok(Ending::of(machine))
}

/// The moment of a deed that was just done: up to then its CPU is charged.
pub(crate) fn moment_of(machine: &ClosedLoop, line: &Line) -> u64 {
    machine.charged(line.deed.cpu()).unwrap_or(machine.now)
}

/// Prints a deed with its answer, its moment in milliseconds, and whom it concerns.
fn print_answer<W: Write>(out: &mut W, names: &Names, moment: u64, line: &Line) -> io::Result<()> {
    let whole = moment / 1_000_000;
    let rest = moment % 1_000_000;
    let name = concerned(names, line);
    writeln!(out, "{whole}.{rest:06} {name}: {line}")
}

/// The name of the task that a line concerns.
pub(crate) fn concerned<'a>(names: &'a Names, line: &Line) -> &'a str {
    match task_of(line.deed, line.answer) {
        Some(task) => names.name(task),
        None => "-",
    }
}

/// The task that a deed concerns, with its answer.
fn task_of(deed: Deed, answer: Answer) -> Option<TaskId> {
    match answer {
        Answer::Charged { task, .. } | Answer::Picked(task) | Answer::Pulled(task) => Some(task),
        _ => named_task(deed),
    }
}
