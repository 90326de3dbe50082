//! A CPU: who runs there, up to which moment that was charged, and what it does next.

use eevdf_ops::CpuId;

/// No moment at all.
pub(crate) const NEVER: u64 = u64::MAX;

/// Whether a CPU is to pick.
#[derive(Clone, Copy, PartialEq, Eq, Debug)]
pub(crate) enum Picks {
    /// It goes on as it is.
    No,
    /// After what its running task does at this moment.
    Soon,
    /// Before anything else.
    Now,
}

/// A CPU.
#[derive(Drop)]
pub(crate) struct Processor {
    pub id: CpuId,
    /// Up to this moment time has been charged here.
    pub charged: u64,
    /// The place of the task that runs here.
    pub running: Option<usize>,
    pub picks: Picks,
    /// Whether a task has woken here since the last pick.
    pub is_woken: bool,
    /// How many of the other CPUs were looked at for work since there was reason to.
    pub looked: usize,
    /// The moment of its next tick of the clock.
    pub ticks_at: u64,
    /// The moment at which it does something next, as far as it depends on itself.
    pub next: u64,
}

impl Processor {
    /// A CPU at the start, which is to pick.
    pub fn at_start(id: CpuId, tick: u64) -> Processor {
        Processor {
            id,
            charged: 0,
            running: None,
            picks: Picks::Soon,
            is_woken: false,
            looked: usize::MAX,
            ticks_at: tick,
            next: 0,
        }
    }

    /// It is to pick, after what its running task does at this moment.
    pub fn pick_soon(&mut self) {
        if self.picks == Picks::No {
            self.picks = Picks::Soon;
        }
    }

    /// Nobody runs here any more.
    pub fn loses_task(&mut self) {
        self.running = None;
        self.pick_soon();
    }

    /// The next tick of the clock is the first one after a moment.
    pub fn tick_after(&mut self, now: u64, tick: u64) {
        if self.ticks_at <= now {
            let ticks = now.checked_div(tick).unwrap_or(now);
            self.ticks_at = ticks.saturating_add(1).saturating_mul(tick);
        }
    }
}
