//! The table of what the tasks come to.

ghost use Rattle.std.specs.Prelude.{◌≡◌, ◌≤◌, ◌<◌, ◌*◌, ◌/◌, ◌^◌};

use crate::figures::AllFigures;
use crate::names::Names;
use crate::requests::Requests;
use crate::row::{Row, Stays};
use crate::waits::Waits;
use eevdf_closed_loop::{ClosedLoop, Phase, Plan};
use eevdf_queue::TaskId;
use std::io;
use std::io::Write;

/// Prints a row for each task of a machine that was driven to its end; for tasks that arrive, one for all of a name, and a second one below;
/// and below these one for each that has a timer.
pub(crate) fn print_figures<W: Write>(
    out: &mut W,
    names: &Names,
    machine: &ClosedLoop,
    figures: &AllFigures,
) -> io::Result<()> {
    let plan = machine.plan();
    let lasts = machine.now;
    out.write_all(b"task: ran ns, share, fair share; waits, mean ns, p99 ns, longest ns; ")?;
    out.write_all(b"requests, late, latest virtual ns; sleeps; pulls\n")?;
    for row in figures.rows() {
        let fair = figures.fair_share(row, lasts);
        print_row(out, name_of(names, plan, row), row, fair, lasts)?;
    }
    print_stays(out, names, plan, figures)?;
    print_timers(out, names, machine, figures)
}

/// The name of a row: that of its task, or, where tasks arrive, that which all of them have.
fn name_of<'a>(names: &'a Names, plan: &'a Plan, row: &Row) -> &'a str {
    match plan.groups.get(row.group) {
        Some(group) if row.stays.is_some() => group.name.as_str(),
        _ => names.at(row.first),
    }
}

fn print_row<W: Write>(
    out: &mut W,
    name: &str,
    row: &Row,
    fair: u64,
    lasts: u64,
) -> io::Result<()> {
    let ran = row.ran;
    write!(out, "{name}: {ran}, ")?;
    print_share(out, share_of(ran, lasts))?;
    out.write_all(b", ")?;
    print_share(out, fair)?;
    let number = row.waits.number;
    write!(out, "; {number}, ")?;
    print_times(out, &row.waits)?;
    print_requests(out, &row.requests)?;
    let sleeps = row.sleeps;
    let pulls = row.pulls;
    writeln!(out, "; {sleeps}; {pulls}")
}

/// Prints how many requests were used up, how many of these were late, and by how much at most.
fn print_requests<W: Write>(out: &mut W, requests: &Requests) -> io::Result<()> {
    let number = requests.number;
    let late = requests.late;
    let latest = requests.latest;
    write!(out, "; {number}, {late}, {latest}")
}

/// Prints the mean, the 99th of 100 and the longest of some times.
fn print_times<W: Write>(out: &mut W, times: &Waits) -> io::Result<()> {
    let mean = times.mean();
    let most = times.most_of_99();
    let longest = times.longest;
    write!(out, "{mean}, {most}, {longest}")
}

/// Prints a row for each name of which tasks arrive, where there is one.
fn print_stays<W: Write>(
    out: &mut W,
    names: &Names,
    plan: &Plan,
    figures: &AllFigures,
) -> io::Result<()> {
    let mut is_first = true;
    for row in figures.rows() {
        if let Some(stays) = &row.stays {
            if is_first {
                out.write_all(b"arrivals: begun, late, ended; stay mean ns, p99 ns, longest ns\n")?;
            }
            is_first = false;
            print_stay(out, name_of(names, plan, row), stays)?;
        }
    }
    Ok(())
}

fn print_stay<W: Write>(out: &mut W, name: &str, stays: &Stays) -> io::Result<()> {
    let begun = stays.begun;
    let late = stays.late;
    let ended = stays.times.number;
    write!(out, "{name}: {begun}, {late}, {ended}; ")?;
    print_times(out, &stays.times)?;
    out.write_all(b"\n")
}

/// Prints how many periods were missed, in a row for each that has a timer.
fn print_timers<W: Write>(
    out: &mut W,
    names: &Names,
    machine: &ClosedLoop,
    figures: &AllFigures,
) -> io::Result<()> {
    let plan = machine.plan();
    let mut is_first = true;
    for row in figures.rows() {
        if has_timer(plan, row) {
            if is_first {
                out.write_all(b"timers: missed periods\n")?;
            }
            is_first = false;
            let name = name_of(names, plan, row);
            let missed = missed_in(machine, row);
            writeln!(out, "{name}: {missed}")?;
        }
    }
    Ok(())
}

/// Whether the tasks of a row have a timer among their phases.
fn has_timer(plan: &Plan, row: &Row) -> bool {
    match plan.groups.get(row.group) {
        Some(group) => group
            .phases
            .iter()
            .any(|phase| matches!(phase, Phase::Timer(_))),
        None => false,
    }
}

/// How many periods the tasks of a row have missed.
fn missed_in(machine: &ClosedLoop, row: &Row) -> u64 {
    let mut missed = 0u64;
    for place in row.first..row.first.saturating_add(row.numbers) {
        let task = TaskId::new(place as u64);
        let of_task = task.and_then(|task| machine.missed(task));
        missed = missed.saturating_add(of_task.unwrap_or(0));
    }
    missed
}

/// Prints hundredths of a per cent.
fn print_share<W: Write>(out: &mut W, share: u64) -> io::Result<()> {
    let whole = share / 100;
    let rest = share % 100;
    write!(out, "{whole}.{rest:02} %")
}

/// The hundredths of a per cent that a time is of another one, rounded down.
fn share_of(ran: u64, lasts: u64) -> u64
    ensures { 1 ≤ lasts → ran * 10000 < 2 ^ 64 → result ≡ ran * 10000 / lasts }
{
    ran.saturating_mul(10_000).checked_div(lasts).unwrap_or(0)
}
