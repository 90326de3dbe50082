//! The jobs that users of this software wait for, on inputs drawn from a seed: `job_bench JOB INPUTS SIZE SEED` does a job on so
//! many inputs of so many operations each, and prints a digest of all that came of it. `bench/run` times such runs in two
//! checkouts.
#![tactic(auto)]

mod asked_job;
mod digest;
mod documents;
mod drawn_deeds;
mod drawn_machine;
mod drawn_programs;
mod fleet_job;
mod fleet_seats;
mod hard_queue_job;
mod job_fault;
mod job_run;
mod jobs;
mod life_job;
mod machine_digest;
mod mixed_order;
mod opening_job;
mod order_job;
mod played_machine;
mod queue_calls;
mod queue_digest;
mod queue_job;
mod queue_lives;
mod queue_pair;
mod script_job;
mod workbench;

use crate::asked_job::{AskedJob, WordFault};
use crate::digest::Digest;
use crate::job_fault::JobFault;
use crate::jobs::digest_of;
use std::process::ExitCode;

fn main(rt: HostRuntime) -> ExitCode {
    ExitCode::from(match AskedJob::read(&rt) {
        Ok(asked) => print(&rt, &digest_of(&rt, rt.alloc(), &asked)),
        Err(fault) => refuse(&rt, &fault),
    })
}

/// Prints the digest, and gives the exit status.
fn print(rt: &(impl Print + Eprint), digest: &Result<Digest, JobFault>) -> u8 {
    match digest {
        Ok(digest) => {
            let sum = digest.sum();
            match println!(rt; "{sum:016x}") {
                Ok(()) => 0,
                Err(_) => 3,
            }
        }
        Err(fault) => {
            let _ = eprintln!(rt; "job_bench: {fault}");
            3
        }
    }
}

/// Says what is wrong with the words, and gives the exit status.
fn refuse(rt: &impl Eprint, fault: &WordFault) -> u8 {
    let _ = eprintln!(rt; "job_bench: {fault}; usage: job_bench JOB INPUTS SIZE SEED");
    2
}
