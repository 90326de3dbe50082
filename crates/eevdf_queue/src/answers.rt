use crate::entry::Entry;
use crate::task_id::TaskId;
use std::fmt;

/// What a tick answers.
#[derive(Clone, Copy, PartialEq, Eq, Debug)]
pub enum TickAnswer {
    /// The running task was charged; `resched` says that it had used up its request and got a new deadline.
    Charged { task: TaskId, resched: bool },
    /// No task runs.
    Idle,
    /// The virtual runtime or deadline would have left the range, and nothing was charged.
    Range,
}

/// What a tick answers, and the entry that the running task had before it: `None` exactly where nobody ran.
#[derive(Clone, Copy, PartialEq, Eq, Debug)]
pub struct TickFrom {
    pub answer: TickAnswer,
    pub before: Option<Entry>,
}

/// What a yield answers.
#[derive(Clone, Copy, PartialEq, Eq, Debug)]
pub enum YieldAnswer {
    /// The running task's deadline grew by one request.
    Yielded,
    /// No task runs.
    Idle,
    /// The deadline would have left the range, and nothing changed.
    Range,
}

/// What a wake answers.
#[derive(Clone, Copy, PartialEq, Eq, Debug)]
pub enum WakeAnswer {
    /// The task slept here and is runnable now.
    Woken,
    /// The task doesn't sleep here.
    Awake,
    /// The virtual runtime or deadline would have been out of range, and the task sleeps on.
    Range,
}

/// What a change of nice level answers.
#[derive(Clone, Copy, PartialEq, Eq, Debug)]
pub enum ReniceAnswer {
    /// The task has the nice level.
    Reniced,
    /// The task isn't runnable here.
    NotHere,
    /// The virtual runtime or deadline would have been out of range, and the task keeps its nice level.
    Range,
}

/// What a change of nice level and slice answers.
#[derive(Clone, Copy, PartialEq, Eq, Debug)]
pub enum SetAnswer {
    /// The task has the nice level and the slice.
    Set,
    /// The task isn't here, neither runnable nor asleep.
    NotHere,
    /// The virtual runtime or deadline would have been out of range, and the task keeps its nice level and its slice.
    Range,
}

/// The words `charged`, with the task and `resched` where it is so, `idle` and `range`.
impl fmt::Display for TickAnswer {
    ghost use Rattle.std.specs.Prelude.{Some};
    ghost use Rattle.eevdf_queue.specs.Texts.{tick_text};

    ghost output = { λ answer. Some (tick_text answer) };

    fn fmt<W: fmt::Write>(&self, f: &mut fmt::Formatter<W>) -> fmt::Result {
        let word = match self {
            TickAnswer::Charged {
                task,
                resched: true,
            } => return write!(f, "charged {task} resched"),
            TickAnswer::Charged {
                task,
                resched: false,
            } => return write!(f, "charged {task}"),
            TickAnswer::Idle => "idle",
            TickAnswer::Range => "range",
        };
        f.write_str(word)
    }
}

/// One of the words `yielded`, `idle` and `range`.
impl fmt::Display for YieldAnswer {
    ghost use Rattle.std.specs.Prelude.{Some};
    ghost use Rattle.eevdf_queue.specs.Texts.{yield_text};

    ghost output = { λ answer. Some (yield_text answer) };

    fn fmt<W: fmt::Write>(&self, f: &mut fmt::Formatter<W>) -> fmt::Result {
        let word = match self {
            YieldAnswer::Yielded => "yielded",
            YieldAnswer::Idle => "idle",
            YieldAnswer::Range => "range",
        };
        f.write_str(word)
    }
}

/// One of the words `woken`, `awake` and `range`.
impl fmt::Display for WakeAnswer {
    ghost use Rattle.std.specs.Prelude.{Some};
    ghost use Rattle.eevdf_queue.specs.Texts.{wake_text};

    ghost output = { λ answer. Some (wake_text answer) };

    fn fmt<W: fmt::Write>(&self, f: &mut fmt::Formatter<W>) -> fmt::Result {
        let word = match self {
            WakeAnswer::Woken => "woken",
            WakeAnswer::Awake => "awake",
            WakeAnswer::Range => "range",
        };
        f.write_str(word)
    }
}

/// One of the texts `reniced`, `not here` and `range`.
impl fmt::Display for ReniceAnswer {
    ghost use Rattle.std.specs.Prelude.{Some};
    ghost use Rattle.eevdf_queue.specs.Texts.{renice_text};

    ghost output = { λ answer. Some (renice_text answer) };

    fn fmt<W: fmt::Write>(&self, f: &mut fmt::Formatter<W>) -> fmt::Result {
        let word = match self {
            ReniceAnswer::Reniced => "reniced",
            ReniceAnswer::NotHere => "not here",
            ReniceAnswer::Range => "range",
        };
        f.write_str(word)
    }
}

/// One of the texts `set`, `not here` and `range`.
impl fmt::Display for SetAnswer {
    ghost use Rattle.std.specs.Prelude.{Some};
    ghost use Rattle.eevdf_queue.specs.Texts.{set_text};

    ghost output = { λ answer. Some (set_text answer) };

    fn fmt<W: fmt::Write>(&self, f: &mut fmt::Formatter<W>) -> fmt::Result {
        let word = match self {
            SetAnswer::Set => "set",
            SetAnswer::NotHere => "not here",
            SetAnswer::Range => "range",
        };
        f.write_str(word)
    }
}
