ghost use Rattle.std.specs.Prelude.{◌*◌, ◌<◌, ◌≤◌, IfSome, ◌+◌};

use crate::fleet::mix::Mix;
use crate::fleet::way::Way;
use drawn_values::count_of;
use eevdf_ops::CpuId;
use thiserror::Error;

/// What the words ask for.
#[derive(Clone, Copy)]
pub struct AskedRun {
    pub way: Way,
    pub threads: usize,
    pub cpus_a_thread: usize,
    /// How many tasks there are in all, from 1 to 1024.
    pub tasks: usize,
    pub mix: Mix,
    /// How many operations each thread does.
    pub operations: u64,
    /// What the tasks and the operations are drawn from.
    pub seed: u64,
    pub ghost threads_some: { 0 < threads },
    pub ghost cpus_some: { 0 < cpus_a_thread },
    pub ghost threads_few: { threads ≤ 64 },
    pub ghost cpus_few: { threads * cpus_a_thread ≤ 64 },
    pub ghost tasks_some: { 0 < tasks },
    pub ghost tasks_few: { tasks ≤ 1024 },
}

/// The most operations of a thread of which a history is kept.
pub const MOST_KEPT: u64 = 400_000;

/// Why the words ask for no run.
#[derive(Debug, Drop, Error)]
pub enum WordFault {
    #[error("seven words are wanted")]
    Count,
    #[error("WAY is fleet, check, solo, endless or twins")]
    Way,
    #[error("THREADS and CPUS_A_THREAD are numbers whose product is from 1 to 64")]
    Cpus,
    #[error("TASKS is a number from 1 to 1024")]
    Tasks,
    #[error("MIX is own, wakes, pulls, comes or all")]
    Mix,
    #[error("OPERATIONS is a number, up to 400000 where a history is kept")]
    Operations,
    #[error("SEED is a number")]
    Seed,
}

impl AskedRun {
    /// The run that these words ask for.
    pub fn of(words: &[String]) -> Result<AskedRun, WordFault> {
        let [way, threads, cpus_a_thread, tasks, mix, operations, seed] = words else {
            return Err(WordFault::Count);
        };
        let way = Way::of(way).ok_or(WordFault::Way)?;
        let (threads, cpus_a_thread) = cpus_of(threads, cpus_a_thread).ok_or(WordFault::Cpus)?;
        Ok(AskedRun {
            way,
            threads,
            cpus_a_thread,
            tasks: count_of(tasks, 1024).ok_or(WordFault::Tasks)? as usize,
            mix: Mix::of(mix).ok_or(WordFault::Mix)?,
            operations: operations_of(operations, way).ok_or(WordFault::Operations)?,
            seed: seed.parse().map_err(|_| WordFault::Seed)?,
        })
    }

    /// The number of CPUs.
    pub fn cpus(&self) -> usize
        ensures some { 0 < result }
        ensures few { result ≤ 64 }
    {
        self.threads * self.cpus_a_thread
    }

    /// The CPU of a thread at this place among those of the thread.
    pub fn cpu(&self, thread: usize, at: usize) -> CpuId
        requires thread { thread < self.now.threads }
        requires at { at < self.now.cpus_a_thread }
    {
        CpuId::new((thread * self.cpus_a_thread + at) as u64).unwrap()
    }
}

/// The number of threads and that of the CPUs of each that two words give.
fn cpus_of(threads: &str, cpus_a_thread: &str) -> Option<(usize, usize)>
    ensures some { IfSome result (λ n. (0 < n.0) × (0 < n.1)) }
    ensures threads { IfSome result (λ n. n.0 ≤ 64) }
    ensures few { IfSome result (λ n. n.0 * n.1 ≤ 64) }
{
    let threads = count_of(threads, 64)? as usize;
    let cpus_a_thread = count_of(cpus_a_thread, 64)? as usize;
    (threads * cpus_a_thread <= 64).then_some((threads, cpus_a_thread))
}

/// The number of operations that a word gives. Where a history is kept, it needs memory for each.
fn operations_of(word: &str, way: Way) -> Option<u64> {
    let number = word.parse::<u64>().ok()?;
    match way {
        Way::Solo | Way::Endless => Some(number),
        Way::Fleet | Way::Check | Way::Twins => (number <= MOST_KEPT).then_some(number),
    }
}
