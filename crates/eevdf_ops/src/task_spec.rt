use crate::cpu_id::CpuId;
use eevdf_weight::{Nice, Slice};

/// A task of a setup. Its number is its place in the list of tasks.
#[derive(Clone, Copy, PartialEq, Eq, Debug)]
pub struct TaskSpec {
    /// The CPU on which it begins and on which it sleeps.
    pub home: CpuId,
    /// The nice level, from which its weight comes.
    pub nice: Nice,
    /// The length of each of its requests.
    pub slice: Slice,
    /// The virtual runtime that it begins with, if it begins runnable.
    pub start: i64,
    /// Whether it begins asleep, with lag 0.
    pub asleep: bool,
}
