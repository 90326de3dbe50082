//! What the program's words ask for.

use crate::dropped_queue::AskedTasks;
use crate::fair_seats::AskedRounds;
use crate::{fair_loop, fleet, queue};
use drawn_values::words_of;
use std::rt::Env;
use thiserror::Error;

/// What is to be measured, by the first word.
#[derive(Clone, Copy)]
pub enum Asked {
    Queue(queue::AskedRun),
    Fleet(fleet::AskedRun),
    FairLoop(fair_loop::AskedRun),
    FairSeats(AskedRounds),
    DroppedQueue(AskedTasks),
}

/// Why the words ask for nothing, and which would.
#[derive(Debug, Drop, Error)]
pub enum WordFault {
    #[error("measures: the words can't be read; usage: measures WHAT WORD..")]
    Unread,
    #[error("measures: WHAT is queue, fleet, fair-loop, fair-seats or dropped-queue; usage: measures WHAT WORD..")]
    What,
    #[error("measures queue: {0}; usage: measures queue MIX TASKS TURNS")]
    Queue(#[from] queue::WordFault),
    #[error("measures fleet: {0}; usage: measures fleet WAY THREADS CPUS_A_THREAD TASKS MIX OPERATIONS SEED")]
    Fleet(#[from] fleet::WordFault),
    #[error("measures fair-loop: {0}; usage: measures fair-loop kernel SEED STEPS PROMISED, or measures fair-loop fair|plain MIX TASKS TURNS")]
    FairLoop(#[from] fair_loop::WordFault),
    #[error("measures fair-seats: a number of rounds is wanted; usage: measures fair-seats ROUNDS")]
    FairSeats,
    #[error("measures dropped-queue: two numbers are wanted, together at most 1024; usage: measures dropped-queue RUNNABLE ASLEEP")]
    DroppedQueue,
}

impl Asked {
    /// What the process's words ask for, of which the first is the program's name.
    // apart from what is measured, so that the words change nothing in what is counted
    #[inline(never)]
    pub fn read(rt: &(impl Env + AllocGlobal)) -> Result<Asked, WordFault> {
        let words = words_of(rt, rt.alloc()).ok_or(WordFault::Unread)?;
        let [_, what, words @ ..] = words.as_slice() else {
            return Err(WordFault::What);
        };
        Asked::of(what.as_str(), words)
    }

    /// What the words behind the first ask for.
    fn of(what: &str, words: &[String]) -> Result<Asked, WordFault> {
        Ok(match what {
            "queue" => Asked::Queue(queue::AskedRun::of(words)?),
            "fleet" => Asked::Fleet(fleet::AskedRun::of(words)?),
            "fair-loop" => Asked::FairLoop(fair_loop::AskedRun::of(words)?),
            "fair-seats" => Asked::FairSeats(AskedRounds::of(words).ok_or(WordFault::FairSeats)?),
            "dropped-queue" => {
                Asked::DroppedQueue(AskedTasks::of(words).ok_or(WordFault::DroppedQueue)?)
            }
            _ => return Err(WordFault::What),
        })
    }
}
