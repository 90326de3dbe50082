use eevdf_ops::{CpuId, Line, Setup};
use eevdf_queue::Queue;
use std::collections::LinkedList;
use std::marker::Model;
use std::snapshot::Snapshot;

/// On what terms a history is kept: the setup that it begins from, and, where a journal has its lines, how many it may have of
/// each CPU.
#[derive(Drop)]
pub struct Terms {
    pub setup: Snapshot<Setup>,
    pub quota: Option<usize>,
}

/// A queue, of which contracts see the state alone. No value of it is made.
pub struct QueueState {
    queue: Queue,
}

impl Model for QueueState {
    ghost use Rattle.eevdf_queue.specs.{State.State, Codes.state_code};

    ghost Value = { State };

    ghost coded = { state_code };

    ghost view = { λ q. q.queue.state };
}

/// What is known of the one history. No value of it is made.
pub enum Claim {
    /// The lines of a CPU are these.
    Seat(u64, LinkedList<Line>),
    /// The queue that the history leaves of a CPU is in this state.
    Queue(u64, QueueState),
    /// All its lines are these.
    Journal(LinkedList<Line>),
    /// Its first lines are these. Nothing can change that, so any number of tokens may claim it.
    Past(LinkedList<Line>),
}

/// What is known of the requests that a CPU has posted: their tasks in order, by homes. No value of it is made.
pub enum PostClaim {
    /// All requests that this CPU has posted are these.
    Posts(u64, LinkedList<LinkedList<u64>>),
    /// The first requests that it has posted to each home are these. Nothing can change that, so any number of tokens may claim it.
    Sent(u64, LinkedList<LinkedList<u64>>),
}

/// What the holder of a token knows. No value of it is made.
pub struct View {
    pub terms: Option<Terms>,
    pub claims: LinkedList<Claim>,
    pub posts: LinkedList<PostClaim>,
}

/// A CPU's queue as it is now.
#[derive(Drop)]
pub struct Change {
    pub cpu: CpuId,
    pub queue: Snapshot<Queue>,
}

/// What is told where a line is committed: the line, and the queues that it has changed.
#[derive(Drop)]
pub struct Said {
    pub line: Line,
    pub first: Change,
    pub second: Change,
}
