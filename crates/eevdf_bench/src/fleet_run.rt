//! Running a workload's programs by threads.

ghost use Rattle.std.specs.Prelude.{◌≡◌, ◌⊎◌, IfOk, IfErr};
ghost use Rattle.eevdf_bench.specs.Reports.{IsReport};

use crate::command::Kind;
use crate::workbench_fault::BenchFault;
use eevdf_fleet::{OpenGate, RunFault, run_all};
use eevdf_report::{Form, report};
use eevdf_workload::Workload;
use std::alloc::Global;
use std::sync::Wait;
use std::thread::Threads;

/// The report of what the workload's programs come to, each run by a thread of its own, with the requests that are left.
/// The order and the script are not used. Which of the histories of the programs it is depends on the order in which the
/// threads came. `Run(Start)` where a thread was refused; running out of memory is the only other refusal.
pub fn run_text<R: Threads + Wait + Sync>(
    rt: &R,
    alloc: Global,
    workload: &Workload,
    form: Form,
) -> Result<Vec<u8>, BenchFault>
    ensures report { IfOk result (λ t. IsReport Kind.Run workload.now form t.items) }
    ensures refused { IfErr result (λ f.
        (f ≡ BenchFault.Run RunFault.Start) ⊎ (f ≡ BenchFault.Memory)) }
{
    let outcome = run_all(rt, alloc, workload.setup(), &OpenGate)?;
    let text = report(alloc, &outcome, form)?;
    Ok(text)
}
