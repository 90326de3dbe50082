use drawn_values::words_of;
use std::rt::Env;
use thiserror::Error;

/// What is done on each input.
#[derive(Clone, Copy, PartialEq, Eq, Debug)]
pub enum Job {
    /// The workbench reads a script, does its deeds and reports.
    Scripts,
    /// An order of steps is made by playing it, and the workbench replays it.
    Orders,
    /// The calls of single queues, in the mix of a kernel.
    Queue,
    /// Calls of single queues on tasks that are hard to tell apart, and far from 0.
    HardQueue,
    /// The operations of a fleet, and programs by threads.
    Fleet,
    /// Many short workloads.
    Openings,
    /// Workloads with sleeping tasks, and queues and fleets from their opening to their end.
    Lives,
    /// All of these.
    Each,
}

/// What the program's words ask for.
#[derive(Clone, Copy)]
pub struct AskedJob {
    pub job: Job,
    /// How many inputs there are.
    pub inputs: u64,
    /// How many operations each input has.
    pub size: u64,
    /// What the inputs are drawn from.
    pub seed: u64,
}

/// Why the words ask for no job.
#[derive(Debug, Drop, Error)]
pub enum WordFault {
    #[error("the words can't be read")]
    Unread,
    #[error("four words are wanted")]
    Count,
    #[error("JOB is scripts, orders, queue, hard-queue, fleet, openings, lives or each")]
    Job,
    #[error("INPUTS is a number")]
    Inputs,
    #[error("SIZE is a number from 1 to 1000000")]
    Size,
    #[error("SEED is a number")]
    Seed,
}

impl Job {
    /// The job that a word names.
    pub fn of(word: &str) -> Option<Job> {
        match word {
            "scripts" => Some(Job::Scripts),
            "orders" => Some(Job::Orders),
            "queue" => Some(Job::Queue),
            "hard-queue" => Some(Job::HardQueue),
            "fleet" => Some(Job::Fleet),
            "openings" => Some(Job::Openings),
            "lives" => Some(Job::Lives),
            "each" => Some(Job::Each),
            _ => None,
        }
    }
}

impl AskedJob {
    /// The job that the process's words ask for, of which the first is the program's name.
    pub fn read(rt: &(impl Env + AllocGlobal)) -> Result<AskedJob, WordFault> {
        let words = words_of(rt, rt.alloc()).ok_or(WordFault::Unread)?;
        let [_, job, inputs, size, seed] = words.as_slice() else {
            return Err(WordFault::Count);
        };
        Ok(AskedJob {
            job: Job::of(job).ok_or(WordFault::Job)?,
            inputs: inputs.parse().map_err(|_| WordFault::Inputs)?,
            size: size_of(size).ok_or(WordFault::Size)?,
            seed: seed.parse().map_err(|_| WordFault::Seed)?,
        })
    }
}

/// The size that a word gives. It stands here, and not in drawn_values, so that this crate can be laid over earlier commits.
fn size_of(word: &str) -> Option<u64> {
    let size = word.parse::<u64>().ok()?;
    (1..=1_000_000).contains(&size).then_some(size)
}
