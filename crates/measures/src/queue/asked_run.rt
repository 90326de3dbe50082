ghost use Rattle.std.specs.Prelude.{◌<◌, ◌≤◌};

use crate::queue::mix::Mix;
use drawn_values::count_of;
use thiserror::Error;

/// What the words ask for.
#[derive(Clone, Copy)]
pub struct AskedRun {
    pub mix: Mix,
    /// How many tasks the queue has, from 1 to 1024.
    pub tasks: u64,
    /// How often the mix is run.
    pub turns: u64,
    pub ghost some: { 0 < tasks },
    pub ghost few: { tasks ≤ 1024 },
}

/// Why the words ask for no run.
#[derive(Debug, Drop, Error)]
pub enum WordFault {
    #[error("three words are wanted")]
    Count,
    #[error("MIX is a mix of docs/speed.md, such as tick-pick")]
    Mix,
    #[error("TASKS is a number from 1 to 1024")]
    Tasks,
    #[error("TURNS is a number")]
    Turns,
}

impl AskedRun {
    /// The run that these words ask for.
    pub fn of(words: &[String]) -> Result<AskedRun, WordFault> {
        let [mix, tasks, turns] = words else {
            return Err(WordFault::Count);
        };
        Ok(AskedRun {
            mix: Mix::of(mix).ok_or(WordFault::Mix)?,
            tasks: count_of(tasks, 1024).ok_or(WordFault::Tasks)?,
            turns: turns.parse().map_err(|_| WordFault::Turns)?,
        })
    }
}
