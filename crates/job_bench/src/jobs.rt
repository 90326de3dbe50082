//! The jobs, on all their inputs.

use crate::asked_job::{AskedJob, Job};
use crate::digest::Digest;
use crate::drawn_machine::TaskKind;
use crate::fleet_job::fleet_job;
use crate::hard_queue_job::hard_queue_job;
use crate::job_fault::JobFault;
use crate::job_run::JobRun;
use crate::life_job::life_job;
use crate::opening_job::opening_job;
use crate::order_job::order_job;
use crate::queue_job::queue_job;
use crate::script_job::script_job;
use drawn_values::Draws;
use std::alloc::Global;
use std::sync::Wait;
use std::thread::Threads;

/// Does the job that is asked for on each input.
pub fn digest_of<R: Threads + Wait + Sync>(
    rt: &R,
    alloc: Global,
    asked: &AskedJob,
) -> Result<Digest, JobFault> {
    let mut digest = Digest::new();
    for input in 0..asked.inputs {
        let mut run = JobRun {
            rt,
            alloc,
            input,
            size: asked.size,
            draws: Draws::new(asked.seed, input),
            digest,
        };
        do_job(&mut run, asked.job)?;
        digest = run.digest;
    }
    Ok(digest)
}

fn do_job<R: Threads + Wait + Sync>(run: &mut JobRun<'_, R>, job: Job) -> Result<(), JobFault> {
    match job {
        Job::Scripts => script_job(run),
        Job::Orders => order_job(run),
        Job::Queue => queue_job(run),
        Job::HardQueue => hard_queue_job(run),
        Job::Fleet => fleet_job(run),
        Job::Openings => {
            let count = run.size;
            opening_job(run, count, TaskKind::HeavyFirst)
        }
        Job::Lives => life_job(run),
        Job::Each => each_job(run),
    }
}

/// Does every job on one input.
fn each_job<R: Threads + Wait + Sync>(run: &mut JobRun<'_, R>) -> Result<(), JobFault> {
    script_job(run)?;
    order_job(run)?;
    queue_job(run)?;
    hard_queue_job(run)?;
    fleet_job(run)?;
    let count = run.size;
    opening_job(run, count, TaskKind::HeavyFirst)?;
    life_job(run)
}
