//! The answers of a queue as words for a checksum.

use eevdf_queue::{ReniceAnswer, TaskId, TickAnswer};
use eevdf_weight::Ns;

pub fn of_task(task: Option<TaskId>) -> u32 {
    match task {
        Some(task) => task.get() as u32,
        None => u32::MAX,
    }
}

pub fn of_time(time: Option<Ns>) -> u32 {
    match time {
        Some(ns) => ns.get() as u32,
        None => u32::MAX,
    }
}

pub fn of_tick(answer: TickAnswer) -> u32 {
    match answer {
        TickAnswer::Idle => 0,
        TickAnswer::Charged { task: _, resched } => 1 + u32::from(resched),
        TickAnswer::Range => 3,
    }
}

pub fn of_renice(answer: ReniceAnswer) -> u32 {
    match answer {
        ReniceAnswer::NotHere => 0,
        ReniceAnswer::Reniced => 1,
        ReniceAnswer::Range => 3,
    }
}
