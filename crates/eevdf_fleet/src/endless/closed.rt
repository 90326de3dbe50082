use eevdf_queue::{Queue, TaskId};

/// What a fleet is closed to.
#[derive(Drop)]
pub struct Closed {
    /// The queues, by CPU.
    pub queues: Vec<Queue>,
    /// The requests that were posted and not drained: of `n` CPUs the list from sender `q` to home `c` stands at place `q * n + c`.
    pub left: Vec<Vec<TaskId>>,
}
