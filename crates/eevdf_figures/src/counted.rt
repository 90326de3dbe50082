//! What is counted of one task, and of one CPU.

use crate::lateness::Lateness;
use crate::service::Service;
use crate::virtual_times::VirtualTimes;
use crate::waits::Waits;
use eevdf_fair_queue::Bounds;
use eevdf_ops::CpuId;
use eevdf_queue::{Entry, TaskId};
use std::alloc::{AllocError, Global};

/// What is counted of a task.
#[derive(Drop)]
pub(crate) struct TaskCounts {
    pub home: CpuId,
    /// The nanoseconds that it was charged.
    pub ran: u64,
    /// The nanoseconds that its CPU charged while it was runnable there.
    pub shared: u64,
    /// So many of these its weight gives it.
    pub fair: u64,
    /// Its greatest and its least lag after a deed on its CPU while it was runnable, in nanoseconds.
    pub lags: Option<(i64, i64)>,
    /// How late its requests were at most, and could be, at these moments.
    pub lateness: Option<Lateness>,
    pub picks: u64,
    /// How often another task was picked while it ran.
    pub preempted: u64,
    pub waits: Waits,
    /// The nanoseconds in which it was runnable and didn't run.
    pub waited: u64,
    /// How often it went to another CPU.
    pub migrations: u64,
    pub since: Option<Since>,
}

/// Since when a runnable task is as it is.
#[derive(Clone, Copy)]
pub(crate) struct Since {
    pub cpu: usize,
    /// The place of the last deed that changed its entry.
    pub place: usize,
    pub entry: Entry,
    /// What its CPU had charged, and given to each unit of weight, as the task came there with this weight.
    pub charged: u64,
    pub service: Service,
}

/// What is counted of a CPU.
#[derive(Drop)]
pub(crate) struct CpuCounts {
    pub charged: u64,
    pub load: u64,
    pub idle_ticks: u64,
    /// The nanoseconds of these ticks.
    pub idle: u64,
    pub pulls_in: u64,
    pub pulls_out: u64,
    pub service: Service,
    pub running: Option<TaskId>,
    pub times: VirtualTimes,
    /// Those of its queue.
    pub bounds: Bounds,
}

impl TaskCounts {
    pub(crate) fn new(alloc: Global, home: CpuId) -> TaskCounts {
        TaskCounts {
            home,
            ran: 0,
            shared: 0,
            fair: 0,
            lags: None,
            lateness: None,
            picks: 0,
            preempted: 0,
            waits: Waits::new(alloc),
            waited: 0,
            migrations: 0,
            since: None,
        }
    }

    pub(crate) fn add_lags(&mut self, greatest: i64, least: i64) {
        self.lags = Some(match self.lags {
            None => (greatest, least),
            Some((above, below)) => (above.max(greatest), below.min(least)),
        });
    }

    pub(crate) fn add_lateness(&mut self, lateness: Lateness) {
        self.lateness = Some(match self.lateness {
            None => lateness,
            Some(greatest) => greatest.or_greater(lateness),
        });
    }

    /// Counts that the task leaves a CPU: by a pull, or to sleep at its home.
    pub(crate) fn leave(&mut self, cpu: CpuId, is_pulled: bool) {
        if is_pulled || self.home != cpu {
            self.migrations = self.migrations.saturating_add(1);
        }
    }

    /// A pick of the task, which ends a wait also where it isn't counted.
    pub(crate) fn pick(&mut self, time: u64, is_counted: bool) -> Result<(), AllocError> {
        let wait = self.waits.end(time);
        if !is_counted {
            return Ok(());
        }
        self.picks = self.picks.saturating_add(1);
        self.waits.add(wait)
    }
}

impl CpuCounts {
    pub(crate) fn new(alloc: Global) -> CpuCounts {
        CpuCounts {
            charged: 0,
            load: 0,
            idle_ticks: 0,
            idle: 0,
            pulls_in: 0,
            pulls_out: 0,
            service: Service::NONE,
            running: None,
            times: VirtualTimes::new(alloc),
            bounds: Bounds::fresh(),
        }
    }
}
