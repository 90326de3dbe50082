ghost use Rattle.std.specs.Prelude.{◌≤◌};

use drawn_values::count_of;
use thiserror::Error;

/// What the words ask for.
#[derive(Clone, Copy)]
pub enum AskedRun {
    Kernel(AskedKernel),
    Turns(AskedTurns),
}

/// A kernel whose calls are drawn from a seed.
#[derive(Clone, Copy)]
pub struct AskedKernel {
    pub seed: u64,
    pub steps: u64,
    /// By how much a request may be late, in virtual time.
    pub promised: i64,
}

/// Turns that are to be counted.
#[derive(Clone, Copy)]
pub struct AskedTurns {
    pub kind: Kind,
    pub mix: Mix,
    /// How many tasks the queue has.
    pub tasks: u64,
    pub turns: u64,
    pub ghost few: { tasks ≤ 1024 },
}

/// Which queue makes the turns.
#[derive(Clone, Copy, PartialEq, Eq, Debug)]
pub enum Kind {
    Fair,
    Plain,
}

/// The calls of a turn.
#[derive(Clone, Copy, PartialEq, Eq, Debug)]
pub enum Mix {
    Pick,
    Tick,
    TickPick,
}

/// Why the words ask for no run.
#[derive(Debug, Drop, Error)]
pub enum WordFault {
    #[error("four words are wanted, of which the first is kernel, fair or plain")]
    Words,
    #[error("SEED, STEPS and PROMISED are numbers")]
    Numbers,
    #[error("MIX is pick, tick or tick-pick, TASKS a number from 1 to 1024, and TURNS a number")]
    Turns,
}

impl AskedRun {
    /// The run that these words ask for.
    pub fn of(words: &[String]) -> Result<AskedRun, WordFault> {
        let [way, first, second, third] = words else {
            return Err(WordFault::Words);
        };
        match way.as_str() {
            "kernel" => kernel_of(first, second, third).ok_or(WordFault::Numbers),
            "fair" => turns_of(Kind::Fair, first, second, third).ok_or(WordFault::Turns),
            "plain" => turns_of(Kind::Plain, first, second, third).ok_or(WordFault::Turns),
            _ => Err(WordFault::Words),
        }
    }
}

fn kernel_of(seed: &str, steps: &str, promised: &str) -> Option<AskedRun> {
    Some(AskedRun::Kernel(AskedKernel {
        seed: seed.parse().ok()?,
        steps: steps.parse().ok()?,
        promised: promised.parse().ok()?,
    }))
}

fn turns_of(kind: Kind, mix: &str, tasks: &str, turns: &str) -> Option<AskedRun> {
    Some(AskedRun::Turns(AskedTurns {
        kind,
        mix: Mix::of(mix)?,
        tasks: count_of(tasks, 1024)?,
        turns: turns.parse().ok()?,
    }))
}

impl Mix {
    /// The mix that a word names.
    fn of(word: &str) -> Option<Mix> {
        match word {
            "pick" => Some(Mix::Pick),
            "tick" => Some(Mix::Tick),
            "tick-pick" => Some(Mix::TickPick),
            _ => None,
        }
    }
}
