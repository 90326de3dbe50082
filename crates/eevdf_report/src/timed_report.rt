//! The CPUs of a report with times.

ghost use Rattle.std.specs.Prelude.{◌≡◌, ◌++◌, ◌<◌, length, IfOk, OnOk};
ghost use Rattle.eevdf_ops.specs.Outcome.{machine_of};
ghost use Rattle.eevdf_report.specs.TextReport.{state_text, timed_cpu_text, timed_cpus_text};

use crate::text_lines::push_cpu_line;
use crate::text_queue::push_queue;
use crate::text_report::push_left_of;
use crate::text_times::{push_at_time, push_time, push_timed_schedule};
use eevdf_ops::Outcome;
use std::alloc::{AllocError, Global};

/// Writes what is reported of each CPU, with its time in front of each line. The history is gone through once for each CPU, so that no list
/// of times is kept. It stands apart, so that a report without times needs no stack for it.
#[inline(never)]
pub(crate) fn push_timed_cpus(
    alloc: Global,
    text: &mut Vec<u8>,
    outcome: &Outcome,
) -> Result<(), AllocError>
    ensures { OnOk result (text.new.items
        ≡ text.old.items
        ++ timed_cpus_text outcome.now.lines (machine_of outcome.now.queues) outcome.now.left) }
{
    for cpu in 0..outcome.cpus() {
        push_timed_cpu(alloc, text, outcome, cpu)?;
    }
    Ok(())
}

fn push_timed_cpu(
    alloc: Global,
    text: &mut Vec<u8>,
    outcome: &Outcome,
    cpu: usize,
) -> Result<(), AllocError>
    requires { cpu < length outcome.now.queues }
    ensures { OnOk result (text.new.items
        ≡ text.old.items
        ++ timed_cpu_text outcome.now.lines (machine_of outcome.now.queues) outcome.now.left cpu) }
{
    push_time(text, 0)?;
    push_cpu_line(text, cpu)?;
    let end = push_timed_schedule(alloc, text, outcome.history(), cpu)?;
    let state = state_of(alloc, outcome, cpu)?;
    push_at_time(alloc, text, end, &state)
}

/// What is reported of a CPU but for its schedule, without times.
fn state_of(alloc: Global, outcome: &Outcome, cpu: usize) -> Result<Vec<u8>, AllocError>
    requires { cpu < length outcome.now.queues }
    ensures { IfOk result (λ text. text.items ≡ state_text (machine_of outcome.now.queues) outcome.now.left cpu) }
{
    let mut text = Vec::new(alloc);
    push_queue(&mut text, outcome.queue(cpu))?;
    push_left_of(&mut text, outcome, cpu)?;
    Ok(text)
}
