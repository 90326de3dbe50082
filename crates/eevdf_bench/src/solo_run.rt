//! Running a workload's script in one thread.

ghost use Rattle.std.specs.Prelude.{◌≡◌, IfOk, OnOk};
ghost use Rattle.eevdf_bench.specs.{RefusedDeeds.refused_of, Reports.IsReport, Runs.Makes, Runs.solo_report};

use crate::command::Kind;
use crate::refused_deeds::RefusedDeeds;
use crate::workbench_fault::BenchFault;
use eevdf_ops::one_thread::solo;
use eevdf_report::{Form, report};
use eevdf_workload::{Key, LoadFault, Workload};
use std::alloc::Global;

/// The report of the workload's script, done deed by deed in one thread. A workload without a script is refused
/// before anything else is done (`Missing`); running out of memory is the only other refusal.
pub fn solo_text(alloc: Global, workload: &Workload, form: Form) -> Result<Vec<u8>, BenchFault>
    ensures report { Makes (solo_report workload.now form) result }
    ensures one_thread { IfOk result (λ t. IsReport Kind.Solo workload.now form t.items) }
{
    let mut refused = RefusedDeeds::none(alloc);
    noted_solo_text(alloc, workload, form, &mut refused)
}

/// The same, and where it is made also the deeds that were refused.
pub(crate) fn noted_solo_text(
    alloc: Global,
    workload: &Workload,
    form: Form,
    refused: &mut RefusedDeeds,
) -> Result<Vec<u8>, BenchFault>
    ensures report { Makes (solo_report workload.now form) result }
    ensures one_thread { IfOk result (λ t. IsReport Kind.Solo workload.now form t.items) }
    ensures refused { OnOk result (refused.new.first ≡ refused_of workload.now) }
{
    let Some(deeds) = workload.script() else {
        return Err(BenchFault::Load(LoadFault::Missing { key: Key::Scripts }));
    };
    let outcome = solo(alloc, workload.setup(), deeds)?;
    *refused = RefusedDeeds::of(alloc, outcome.history());
    let text = report(alloc, &outcome, form)?;
    Ok(text)
}
