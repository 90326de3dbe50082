//! A row of figures: those of one task, or of all tasks of a name that arrive.

use crate::requests::Requests;
use crate::waits::Waits;
use std::alloc::{AllocError, Global};

/// What the tasks of a name that arrive have come to. Times are in nanoseconds.
#[derive(Drop)]
pub(crate) struct Stays {
    /// How many have begun.
    pub begun: u64,
    /// How many of these began later than they arrived.
    pub late: u64,
    /// The times from arrival to end, of those that have ended.
    pub times: Waits,
}

/// What a task, or all tasks of a name that arrive, have come to. Times are in nanoseconds.
#[derive(Drop)]
pub(crate) struct Row {
    /// The place of its group.
    pub group: usize,
    /// The place of its first task, and how many numbers it is about.
    pub first: usize,
    pub numbers: usize,
    /// For how long they ran.
    pub ran: u64,
    /// The times in which one was runnable without running, until it was picked.
    pub waits: Waits,
    /// The requests of theirs that were used up.
    pub requests: Requests,
    /// How often one fell asleep.
    pub sleeps: u64,
    /// How often another CPU pulled one.
    pub pulls: u64,
    /// Where they arrive.
    pub stays: Option<Stays>,
}

impl Row {
    /// A task at the start, at a place.
    pub fn of_task(alloc: Global, group: usize, first: usize) -> Result<Row, AllocError> {
        Ok(Row {
            group,
            first,
            numbers: 1,
            ran: 0,
            waits: Waits::none(alloc)?,
            requests: Requests::none(),
            sleeps: 0,
            pulls: 0,
            stays: None,
        })
    }

    /// So many tasks of a group that arrive, at the start, from a place on.
    pub fn of_arrivals(
        alloc: Global,
        group: usize,
        first: usize,
        numbers: usize,
    ) -> Result<Row, AllocError> {
        let mut row = Row::of_task(alloc, group, first)?;
        row.numbers = numbers;
        row.stays = Some(Stays {
            begun: 0,
            late: 0,
            times: Waits::none(alloc)?,
        });
        Ok(row)
    }

    /// A task that arrived at a moment begins now.
    pub fn begins(&mut self, arrived: u64, now: u64) {
        if let Some(stays) = &mut self.stays {
            stays.begun = stays.begun.saturating_add(1);
            if arrived < now {
                stays.late = stays.late.saturating_add(1);
            }
        }
    }

    /// A task that arrived at a moment ends now.
    pub fn ends(&mut self, arrived: u64, now: u64) {
        if let Some(stays) = &mut self.stays {
            stays.times.add(now.saturating_sub(arrived));
        }
    }
}
