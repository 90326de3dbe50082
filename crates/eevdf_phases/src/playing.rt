//! Reading a workload of phases or a trace, playing it and printing what comes of it.

use crate::ending::Ending;
use crate::figures::AllFigures;
use crate::names::Names;
use crate::printing::{print_answers, print_stats};
use crate::progress::Progress;
use crate::refusing::{refuse, refuse_trace};
use crate::script::print_script;
use crate::words::{Asked, Output, Source};
use eevdf_bench::{NO_MEMORY, NO_WRITE, Piped, Workload, print};
use eevdf_closed_loop::{ClosedLoop, OpenFault, Plan, setup_of};
use eevdf_ops::Setup;
use eevdf_phase_text::{MOST_BYTES, read_phases};
use eevdf_trace::{MOST_BYTES as MOST_TRACE_BYTES, read_trace};
use std::alloc::Global;
use std::io;
use std::io::{BufWriter, ErrorKind, Write};

// what is read is no longer than a workload of phases, or a trace
const _: () = prove!(MOST_BYTES == Workload::MOST_BYTES);

const _: () = prove!(MOST_TRACE_BYTES == Workload::MOST_BYTES);

/// Plays the workload of phases or the trace that these bytes are, which may be those of a file, and gives the exit status.
pub(crate) fn play_text<R: Print>(
    rt: &R,
    errors: &impl Print,
    alloc: Global,
    file: Option<&str>,
    bytes: &[u8],
    asked: Asked,
) -> u8 {
    match asked.source {
        Source::Phases => match read_phases(alloc, bytes) {
            Ok(plan) => play(rt, errors, alloc, plan, asked),
            Err(fault) => refuse(errors, alloc, file, bytes, &fault),
        },
        Source::Trace => match read_trace(alloc, bytes) {
            Ok(plan) => play(rt, errors, alloc, plan, asked),
            Err(fault) => refuse_trace(errors, alloc, file, bytes, &fault),
        },
    }
}

/// Plays a plan and prints what comes of it, and gives the status.
fn play<R: Print>(rt: &R, errors: &impl Print, alloc: Global, plan: Plan, asked: Asked) -> u8 {
    let Ok(names) = Names::of(alloc, &plan) else {
        return print(errors, NO_MEMORY, 3);
    };
    let setup = match setup_of(alloc, &plan) {
        Ok(setup) => setup,
        Err(fault) => return not_set_up(errors, fault),
    };
    match ClosedLoop::open(alloc, &setup, plan) {
        Ok(mut machine) => print_all(rt, errors, alloc, &setup, &names, &mut machine, asked),
        Err(_) => print(errors, NO_MEMORY, 3),
    }
}

/// Says why no machine was set up, and gives the status.
fn not_set_up(errors: &impl Print, fault: OpenFault) -> u8 {
    match fault {
        OpenFault::Memory => print(errors, NO_MEMORY, 3),
        _ => print(errors, b"fault: no machine can be set up\n", 1),
    }
}

/// Drives a machine and prints what comes of it, and gives the status. Of a pipe that nobody reads any more nothing is said.
fn print_all<R: Print>(
    rt: &R,
    errors: &impl Print,
    alloc: Global,
    setup: &Setup,
    names: &Names,
    machine: &mut ClosedLoop,
    asked: Asked,
) -> u8 {
    let mut pipe = Piped::new(io::writer(rt));
    let mut progress = Progress::new(errors, asked.is_watched);
    let ended = print_through(
        &mut pipe,
        alloc,
        setup,
        names,
        machine,
        asked.output,
        &mut progress,
    );
    progress.clear();
    match ended {
        // behind what it did in a trace each task is suspended, and waits for nobody
        Ok(ending) if asked.source == Source::Trace => ending.tell(errors),
        Ok(ending) => ending.tell_of(errors, machine),
        Err(ErrorKind::OutOfMemory) => print(errors, NO_MEMORY, 3),
        Err(_) if pipe.is_unread() => 3,
        Err(_) => print(errors, NO_WRITE, 3),
    }
}

/// Drives a machine and prints what comes of it through a buffer.
fn print_through<W: Write + Drop, P: Print>(
    pipe: &mut W,
    alloc: Global,
    setup: &Setup,
    names: &Names,
    machine: &mut ClosedLoop,
    output: Output,
    progress: &mut Progress<P>,
) -> Result<Ending, ErrorKind> {
    let mut out = BufWriter::new(alloc, pipe).map_err(|error| error.kind())?;
    let ending = print_output(&mut out, alloc, setup, names, machine, output, progress).map_err(
        |error| error.kind(),
    )?;
    out.flush().map_err(|error| error.kind())?;
    Ok(ending)
}

/// Drives a machine and prints what is asked for.
fn print_output<W: Write, P: Print>(
    out: &mut W,
    alloc: Global,
    setup: &Setup,
    names: &Names,
    machine: &mut ClosedLoop,
    output: Output,
    progress: &mut Progress<P>,
) -> io::Result<Ending> {
    match output {
        Output::Script => print_script(out, alloc, setup, names, machine, progress),
        Output::Answers => print_answers(out, names, machine, progress),
        Output::Figures => {
            let mut figures = AllFigures::of(alloc, setup, machine.plan())?;
            print_stats(out, names, machine, &mut figures, progress)
        }
    }
}
