//! Rounds of several CPUs. In each one units of work are put down for tasks, and it is over when all CPUs rest: each waits for an
//! interrupt, and none is under way. Then it is counted what is left undone. A CPU whose thread has come has a part from the next round
//! on, so none is waited for that may never come.

use eevdf_ops::CpuId;
use std::sync::atomic::{AtomicU64, Ordering};

/// What stands for a round when all is over.
const OVER: u64 = u64::MAX;

/// So many rounds for each unit are enough, unless wakes are lost.
const MOST_ROUNDS: u64 = 8;

#[derive(Drop)]
pub struct Rounds {
    /// The round that has begun last, or `OVER`.
    round: AtomicU64,
    /// How many CPUs have come, and how many of these, from the first on, have a part in the round.
    come: AtomicU64,
    members: AtomicU64,
    /// How many CPUs don't rest. One to which an interrupt is sent counts from then on.
    busy: AtomicU64,
    /// How many units were put down, and how many are to be.
    units: AtomicU64,
    most_units: u64,
    /// How many requests were posted and no drain has taken.
    requests: AtomicU64,
    /// At how many ends of a round a CPU was parked beside a crowded one, and at how many a request lay in a ring.
    beside: AtomicU64,
    left: AtomicU64,
}

impl Rounds {
    /// The first round, in which the first CPU has a part, until so many units are put down.
    pub fn new(most_units: u64) -> Rounds {
        Rounds {
            round: AtomicU64::new(0),
            come: AtomicU64::new(1),
            members: AtomicU64::new(1),
            busy: AtomicU64::new(1),
            units: AtomicU64::new(0),
            most_units,
            requests: AtomicU64::new(0),
            beside: AtomicU64::new(0),
            left: AtomicU64::new(0),
        }
    }

    /// The round that has begun last.
    pub fn round(&self) -> u64 {
        self.round.load(Ordering::SeqCst)
    }

    pub fn are_over(&self) -> bool {
        self.round() == OVER
    }

    /// Whether a CPU has a part in the round that has begun last, which is to be looked at after this.
    pub fn has_part(&self, cpu: CpuId) -> bool {
        cpu.get() < self.members.load(Ordering::SeqCst)
    }

    /// A CPU comes, if those of lower numbers have, and has a part from the next round on.
    pub fn come(&self, cpu: CpuId) {
        if cpu.get() == self.come.load(Ordering::SeqCst) {
            self.come.fetch_add(1, Ordering::SeqCst);
        }
    }

    /// A CPU doesn't rest any more.
    pub fn join(&self) {
        self.busy.fetch_add(1, Ordering::SeqCst);
    }

    /// A CPU rests, and says whether it was the last one that did not.
    pub fn rest(&self) -> bool {
        self.busy.fetch_sub(1, Ordering::SeqCst) == 1
    }

    /// Whether there is another unit to be put down, which is counted then.
    pub fn count_unit(&self) -> bool {
        let is_one = self.units.fetch_add(1, Ordering::SeqCst) < self.most_units;
        if !is_one {
            self.give_unit_back();
        }
        is_one
    }

    /// A unit that was counted isn't put down.
    pub fn give_unit_back(&self) {
        self.units.fetch_sub(1, Ordering::SeqCst);
    }

    /// A request is posted.
    pub fn count_request(&self) {
        self.requests.fetch_add(1, Ordering::SeqCst);
    }

    /// So many requests were taken.
    pub fn count_taken(&self, requests: usize) {
        self.requests.fetch_sub(requests as u64, Ordering::SeqCst);
    }

    /// All rest, with so many tasks on the CPU that has the fewest, and on the one that has the most. The next round begins, with all CPUs
    /// that have come, unless no task is left and all units were put down. Gives how many CPUs had a part in the last one.
    pub fn end(&self, least: usize, most: usize) -> usize {
        if least == 0 && most >= 2 {
            self.beside.fetch_add(1, Ordering::SeqCst);
        }
        if self.requests.load(Ordering::SeqCst) > 0 {
            self.left.fetch_add(1, Ordering::SeqCst);
        }
        let members = self.members.load(Ordering::SeqCst);
        let are_put = self.units.load(Ordering::SeqCst) >= self.most_units;
        if most == 0 && are_put || self.round() / MOST_ROUNDS > self.most_units {
            self.round.store(OVER, Ordering::SeqCst);
            return members as usize;
        }
        let come = self.come.load(Ordering::SeqCst);
        self.busy.store(come, Ordering::SeqCst);
        self.round.fetch_add(1, Ordering::SeqCst);
        self.members.store(come, Ordering::SeqCst);
        members as usize
    }

    /// At how many ends of a round a CPU was parked beside a crowded one.
    pub fn ends_beside_a_crowded(&self) -> u64 {
        self.beside.load(Ordering::SeqCst)
    }

    /// At how many ends of a round a request lay in a ring.
    pub fn ends_with_a_request(&self) -> u64 {
        self.left.load(Ordering::SeqCst)
    }
}
