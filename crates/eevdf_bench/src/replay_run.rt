//! Playing a workload's order.

ghost use Rattle.std.specs.Prelude.{IfOk};
ghost use Rattle.eevdf_bench.specs.Reports.{IsReport};
ghost use Rattle.eevdf_bench.specs.Runs.{Makes, replay_report};

use crate::command::Kind;
use crate::workbench_fault::BenchFault;
use eevdf_report::{Form, report};
use eevdf_steps::play;
use eevdf_workload::{Key, LoadFault, Workload};
use std::alloc::Global;

/// The report of what the programs' steps come to in the workload's order, with the requests that are left. A
/// workload without an order is refused before anything else is done (`Missing`), and then an order that can't be
/// played to its end, with its fault; running out of memory is the only other refusal.
pub fn replay_text(alloc: Global, workload: &Workload, form: Form) -> Result<Vec<u8>, BenchFault>
    ensures report { Makes (replay_report workload.now form) result }
    ensures one_thread { IfOk result (λ t. IsReport Kind.Replay workload.now form t.items) }
{
    let Some(order) = workload.order() else {
        return Err(BenchFault::Load(LoadFault::Missing { key: Key::Orders }));
    };
    let outcome = match play(alloc, workload.setup(), order) {
        Ok(outcome) => outcome,
        Err(fault) => return Err(BenchFault::from(fault)),
    };
    let text = report(alloc, &outcome, form)?;
    Ok(text)
}
