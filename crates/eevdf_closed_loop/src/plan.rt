//! The tasks of a machine with their phases, and how the machine is driven.

ghost use Rattle.std.specs.Prelude.{◌≡◌};
ghost use Rattle.eevdf_closed_loop.specs.Tasks as given;

use crate::phase::{Phase, Span};
use eevdf_weight::{Nice, Slice};

/// When a CPU looks whether another task is to run, besides where its running task has used up its request.
#[derive(Clone, Copy, PartialEq, Eq, Debug)]
pub enum Preempt {
    /// At the clock's tick, where a task has woken there since the last pick.
    Tick,
    /// As soon as a task wakes there.
    Wakeup,
}

/// By which deed a task falls asleep.
#[derive(Clone, Copy, PartialEq, Eq, Debug)]
pub enum FallAsleep {
    /// It keeps the lag that it has.
    Sleep,
    /// It keeps no debt, and comes back no earlier than where it left.
    Doze,
}

/// How tasks come that take the numbers of others which have ended.
#[derive(Clone, Copy, PartialEq, Eq, Debug)]
pub struct Arrivals {
    /// How long after one of them the next one arrives.
    pub every: Span,
    /// How many arrive in all.
    pub number: u64,
}

/// Tasks of one kind, whose numbers follow one another.
#[derive(Drop)]
pub struct Group {
    pub name: String,
    /// How many numbers they have, and so how many of them there are at once at most.
    pub count: usize,
    /// Where there are none, each number is one task. Else a number is that of a task from its begin to its end, and then of another one.
    pub arrivals: Option<Arrivals>,
    /// The CPU where all of them are at home. Where there is none, they are spread: the first is at home on CPU 0, the next on CPU 1, and
    /// so on, around.
    pub home: Option<usize>,
    pub nice: Nice,
    pub slice: Slice,
    /// The moment at which they begin, or at which the first of them arrives, in nanoseconds.
    pub begins: u64,
    /// What each of them does, from the beginning again after the last phase.
    pub phases: Vec<Phase>,
}

impl Group {
    /// Whether its tasks sleep when the machine starts.
    pub(crate) fn is_asleep_first(&self) -> bool
        ensures { result ≡ given.is_asleep_first self.now }
    {
        self.arrivals.is_some() || self.begins > 0
    }
}

/// What a machine is to do.
#[derive(Drop)]
pub struct Plan {
    pub cpus: usize,
    /// The length of the clock's tick in nanoseconds. Where it is 0, the end of a request is noticed when it comes.
    pub tick: u64,
    /// How long it is driven, in nanoseconds.
    pub lasts: u64,
    /// Whether a CPU that has nothing to run pulls a task from another one.
    pub pull: bool,
    pub preempt: Preempt,
    pub fall_asleep: FallAsleep,
    /// From what lengths of time are drawn.
    pub seed: u64,
    pub groups: Vec<Group>,
}
