//! What the workbench makes of a text.

use crate::job_fault::JobFault;
use crate::job_run::JobRun;
use eevdf_bench::{BenchFault, Command, Form, Kind, Watched, engine};
use std::alloc::Global;
use std::sync::Wait;
use std::thread::Threads;

/// Has the workbench do what a command says with a workload, and takes in the report.
pub fn take_report<R: Threads + Wait + Sync>(
    run: &mut JobRun<'_, R>,
    text: &[u8],
    kind: Kind,
) -> Result<(), JobFault> {
    let report = report_of(run.rt, run.alloc, text, kind)?;
    run.digest.add_bytes(&report);
    Ok(())
}

fn report_of<R: Threads + Wait + Sync>(
    rt: &R,
    alloc: Global,
    text: &[u8],
    kind: Kind,
) -> Result<Vec<u8>, BenchFault> {
    let mut reader = Watched::new(text);
    let mut writer = Watched::new(Vec::new(alloc));
    let command = Command {
        kind,
        form: Form::PLAIN,
    };
    engine(rt, alloc, &mut reader, &mut writer, command)?;
    Ok(writer.into_inner())
}
