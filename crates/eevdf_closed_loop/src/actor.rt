//! A task, and where it stands in its phases.

use crate::draws::Draws;
use crate::phase::Phase;
use eevdf_ops::CpuId;
use eevdf_queue::TaskId;

/// Whether a task may run, and what it waits for.
#[derive(Clone, Copy, PartialEq, Eq, Debug)]
pub(crate) enum Condition {
    Runnable,
    /// It sleeps until this moment.
    Until(u64),
    /// It sleeps until it is resumed.
    Suspended,
    /// It has ended, or none has begun with its number: where tasks arrive, the number is free.
    Ended,
}

/// A task that goes through its phases.
#[derive(Drop)]
pub(crate) struct Actor {
    pub id: TaskId,
    pub home: CpuId,
    /// The place of its group.
    pub group: usize,
    pub condition: Condition,
    /// The place of its next phase.
    pub at: usize,
    /// For how long it still has to run before that, in nanoseconds.
    pub left: u64,
    /// The moment at which it began.
    pub begun: u64,
    /// The moment at which it arrived, which is no later.
    pub arrived: u64,
    /// The moment up to which it has kept to timers: to that it slept by one as the last, or that at which it began.
    pub kept_up_to: u64,
    /// How many periods the tasks of this number have missed.
    pub missed: u64,
    /// How many rounds of each loop, by depth, it has gone through.
    pub rounds: [u64; Phase::DEPTHS],
    pub draws: Draws,
}

impl Actor {
    /// A task that has arrived at a moment begins with this number: it is to wake at once. Lengths of time are drawn on.
    pub fn begins(&mut self, arrived: u64, now: u64) {
        self.condition = Condition::Until(now);
        self.at = 0;
        self.left = 0;
        self.begun = now;
        self.arrived = arrived;
        self.kept_up_to = now;
        self.rounds = [0; Phase::DEPTHS];
    }

    /// Where it goes at the end of a loop.
    pub fn go_again(&mut self, first: usize, depth: usize, rounds: u64) {
        let Some(done) = self.rounds.get_mut(depth) else {
            self.at = self.at.saturating_add(1);
            return;
        };
        *done = done.saturating_add(1);
        if *done < rounds {
            self.at = first;
        } else {
            *done = 0;
            self.at = self.at.saturating_add(1);
        }
    }

    /// It comes to a timer, and is to sleep until the next moment that is a whole number of periods after it began, which is told. Those
    /// moments are missed that came since the last one.
    pub fn comes_to_timer(&mut self, now: u64, period: u64) -> u64 {
        let over = self.periods_until(now, period);
        let kept = self.periods_until(self.kept_up_to, period);
        self.missed = self.missed.saturating_add(over.saturating_sub(kept));
        let next = over.saturating_add(1).saturating_mul(period);
        self.kept_up_to = self.begun.saturating_add(next);
        self.kept_up_to
    }

    /// How many whole periods there are from its begin to a moment.
    fn periods_until(&self, moment: u64, period: u64) -> u64 {
        let since = moment.saturating_sub(self.begun);
        since.checked_div(period).unwrap_or(since)
    }
}
