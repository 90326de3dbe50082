//! The script that a machine does, as a workload.

ghost use Rattle.std.specs.Prelude.{◌≡◌};
ghost use Rattle.eevdf_phases.specs.Told as told;

use crate::ending::Ending;
use crate::names::Names;
use crate::printing::{concerned, moment_of};
use crate::progress::Progress;
use eevdf_bench::Workload;
use eevdf_closed_loop::{ClosedLoop, FallAsleep};
use eevdf_ops::{Line, Setup};
use eevdf_queue::TaskId;
use eevdf_workload::Version;
use std::alloc::Global;
use std::io;
use std::io::Write;

/// Drives a machine and prints what it does as a workload: all of it, or as many deeds as a workload may have, in a text that is no longer
/// than that of one.
pub(crate) fn print_script<W: Write, P: Print>(
    out: &mut W,
    alloc: Global,
    setup: &Setup,
    names: &Names,
    machine: &mut ClosedLoop,
    progress: &mut Progress<P>,
) -> io::Result<Ending> {
    let mut front = Vec::new(alloc);
    print_front(&mut front, setup, version_with(machine.plan().fall_asleep))?;
    let mut back = Vec::new(alloc);
    print_tasks(&mut back, setup, names)?;
    let around = front.len().saturating_add(back.len());
    out.write_all(&front)?;
    let room = Workload::MOST_BYTES.saturating_sub(around);
    let ending = print_deeds(out, alloc, names, machine, room, progress)?;
    out.write_all(&back)?;
    Ok(ending)
}

/// The first version of workloads that knows the deeds of a machine whose tasks fall asleep so.
fn version_with(fall_asleep: FallAsleep) -> Version
    ensures { result ≡ told.version_with fall_asleep }
{
    match fall_asleep {
        FallAsleep::Sleep => Version::Three,
        FallAsleep::Doze => Version::Four,
    }
}

/// Prints what stands before the deeds.
fn print_front<W: Write>(out: &mut W, setup: &Setup, version: Version) -> io::Result<()> {
    write!(out, "version = {version}\nprogram = [")?;
    for cpu in 0..setup.cpus() {
        let text: &[u8] = if cpu == 0 { b"[]" } else { b", []" };
        out.write_all(text)?;
    }
    out.write_all(b"]\nscript = [\n")
}

/// Drives a machine to its end, and prints the deeds as long as there is room for so many bytes.
fn print_deeds<W: Write, P: Print>(
    out: &mut W,
    alloc: Global,
    names: &Names,
    machine: &mut ClosedLoop,
    room: usize,
    progress: &mut Progress<P>,
) -> io::Result<Ending> {
    let mut text = Vec::new(alloc);
    let mut left = room;
    for _deed in 0..Workload::MOST_DEEDS {
        let Some(line) = machine.step() else {
            return Ok(Ending::of(machine));
        };
        progress.count(machine);
        text.clear();
        print_deed(&mut text, names, moment_of(machine, &line), &line)?;
        let Some(less) = left.checked_sub(text.len()) else {
            return Ok(Ending::TooLong);
        };
        left = less;
        out.write_all(&text)?;
    }
    Ok(match machine.step() {
        Some(_) => Ending::TooManyDeeds,
        None => Ending::of(machine),
    })
}

/// Prints a deed, its moment in milliseconds, and whom it concerns.
fn print_deed<W: Write>(out: &mut W, names: &Names, moment: u64, line: &Line) -> io::Result<()> {
    let whole = moment / 1_000_000;
    let rest = moment % 1_000_000;
    let name = concerned(names, line);
    let deed = line.deed;
    writeln!(out, "  \"{deed}\", # {whole}.{rest:06} {name}")
}

/// Prints what stands behind the deeds: the tasks.
fn print_tasks<W: Write>(out: &mut W, setup: &Setup, names: &Names) -> io::Result<()> {
    out.write_all(b"]\n")?;
    for number in 0..setup.tasks() {
        let Some(task) = TaskId::new(number as u64) else {
            return Ok(());
        };
        if !setup.has_task(task) {
            return Ok(());
        }
        let spec = setup.spec(task);
        let name = names.name(task);
        let home = spec.home;
        let nice = spec.nice.get();
        let slice = spec.slice.get();
        let asleep = spec.asleep;
        writeln!(out, "\n[[task]] # {name}")?;
        writeln!(
            out,
            "home = {home}\nnice = {nice}\nslice = {slice}\nasleep = {asleep}"
        )?;
    }
    Ok(())
}
