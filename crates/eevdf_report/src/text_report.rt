ghost use Rattle.std.specs.Prelude.{◌≡◌, ◌++◌, ◌<◌, length, map, IfOk, OnOk};
ghost use Rattle.eevdf_ops.specs.Outcome.{machine_of};
ghost use Rattle.eevdf_report.specs.TextReport.{cpu_text, cpus_text, left_of, history_text, report_text, schedule_of, schedules_text};
ghost use Rattle.eevdf_report.specs.TextSchedules.{schedule_lines};

use crate::form::Form;
use crate::schedules::Schedules;
use crate::text_blocks::push_schedule;
use crate::text_lines::{push_cpu_line, push_left, push_script};
use crate::text_queue::push_queue;
use crate::timed_report::push_timed_cpus;
use eevdf_ops::{Line, Outcome};
use std::alloc::{AllocError, Global};

/// The report of an outcome: for each CPU its schedule, its queue and the requests that it didn't drain. In front of each of these lines
/// stands its time, where `form` asks for times, by the CPU's clock (`Clocks`): that at which a deed began, of the CPU's number 0, and of
/// all else that after all deeds. With the history comes the whole history as a script, without times.
pub fn report(alloc: Global, outcome: &Outcome, form: Form) -> Result<Vec<u8>, AllocError>
    ensures { IfOk result (λ text.
        text.items ≡ report_text outcome.now.lines (machine_of outcome.now.queues) outcome.now.left form) }
{
    let mut text = Vec::with_capacity(alloc, usual_bytes(outcome.history().len()))?;
    push_schedules(alloc, &mut text, form.times, outcome)?;
    push_history(&mut text, form.history, outcome.history())?;
    Ok(text)
}

fn push_schedules(
    alloc: Global,
    text: &mut Vec<u8>,
    times: bool,
    outcome: &Outcome,
) -> Result<(), AllocError>
    ensures { OnOk result (text.new.items
        ≡ text.old.items
        ++ schedules_text times outcome.now.lines (machine_of outcome.now.queues) outcome.now.left) }
{
    if times {
        push_timed_cpus(alloc, text, outcome)
    } else {
        push_cpus(alloc, text, outcome)
    }
}

fn push_history(text: &mut Vec<u8>, history: bool, lines: &[Line]) -> Result<(), AllocError>
    ensures { OnOk result (text.new.items ≡ text.old.items ++ history_text history lines.now) }
{
    if history {
        push_script(text, lines)
    } else {
        Ok(())
    }
}

fn push_cpus(alloc: Global, text: &mut Vec<u8>, outcome: &Outcome) -> Result<(), AllocError>
    ensures { OnOk result (text.new.items
        ≡ text.old.items
        ++ cpus_text outcome.now.lines (machine_of outcome.now.queues) outcome.now.left) }
{
    let schedules = Schedules::of(alloc, outcome.cpus(), outcome.history())?;
    for cpu in 0..outcome.cpus() {
        push_cpu(text, outcome, cpu, schedules.schedule(cpu))?;
    }
    Ok(())
}

fn push_cpu(
    text: &mut Vec<u8>,
    outcome: &Outcome,
    cpu: usize,
    schedule: &[&Line],
) -> Result<(), AllocError>
    requires cpu { cpu < length outcome.now.queues }
    requires schedule { schedule_lines (map (λ l. l.now) schedule.now)
        ≡ schedule_of cpu outcome.now.lines }
    ensures { OnOk result (text.new.items
        ≡ text.old.items
        ++ cpu_text outcome.now.lines (machine_of outcome.now.queues) outcome.now.left cpu) }
{
    push_cpu_line(text, cpu)?;
    push_schedule(text, schedule)?;
    push_queue(text, outcome.queue(cpu))?;
    push_left_of(text, outcome, cpu)
}

/// Writes the requests to a CPU that weren't drained.
pub(crate) fn push_left_of(
    text: &mut Vec<u8>,
    outcome: &Outcome,
    home: usize,
) -> Result<(), AllocError>
    requires { home < length outcome.now.queues }
    ensures { OnOk result (text.new.items
        ≡ text.old.items ++ left_of (length outcome.now.queues) outcome.now.left home) }
{
    for sender in 0..outcome.cpus() {
        push_left(text, sender, outcome.left(sender, home))?;
    }
    Ok(())
}

/// Room for so many lines of a schedule, of which most take fewer than 32 bytes. A vector that begins with it seldom has to
/// grow.
fn usual_bytes(lines: usize) -> usize {
    lines.saturating_mul(32)
}
