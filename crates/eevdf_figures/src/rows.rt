//! The rows of the table of figures.

use crate::counted::TaskCounts;
use crate::counts::Counts;
use eevdf_scene::{View, part};
use serde::Serialize;
use std::alloc::{AllocError, Global};

/// The figures of a task. A share is in thousandths.
#[derive(Drop, Serialize)]
pub(crate) struct TaskRow {
    pub task: u64,
    pub ran_ns: u64,
    pub share_permille: Option<u64>,
    pub weight_share_permille: Option<u64>,
    pub greatest_lag_ns: Option<i64>,
    pub least_lag_ns: Option<i64>,
    pub late_ns: Option<i64>,
    pub late_bound_ns: Option<i64>,
    pub picks: u64,
    pub preempted: u64,
    pub wakes_run: u64,
    pub wake_mean_ns: Option<u64>,
    pub wake_p99_ns: Option<u64>,
    pub wake_greatest_ns: Option<u64>,
    pub wake_greatest_from_ns: Option<u64>,
    pub waited_ns: u64,
    pub migrations: u64,
}

/// The figures of a CPU, with its load at the end.
#[derive(Drop, Serialize)]
pub(crate) struct CpuRow {
    pub cpu: u64,
    pub charged_ns: u64,
    pub load: u64,
    pub idle_ticks: u64,
    pub idle_ns: u64,
    pub pulls_in: u64,
    pub pulls_out: u64,
}

/// The figures of the chosen tasks and CPUs.
#[derive(Drop, Serialize)]
pub struct Figures {
    pub(crate) tasks: Vec<TaskRow>,
    pub(crate) cpus: Vec<CpuRow>,
}

/// The figures of what was counted, of the tasks and the CPUs that the view has. It sorts the waits of the tasks among the counts. It is
/// refused memory alone.
pub fn figures_of(alloc: Global, counts: &mut Counts, view: &View) -> Result<Figures, AllocError> {
    let mut figures = Figures {
        tasks: Vec::new(alloc),
        cpus: Vec::new(alloc),
    };
    for (number, task) in counts.tasks.iter_mut().enumerate() {
        if view.tasks.has(number) {
            task.waits.lengths.sort()?;
            figures.tasks.push(row_of(number as u64, task))?;
        }
    }
    for (number, cpu) in counts.cpus.iter().enumerate() {
        if view.cpus.has(number) {
            figures.cpus.push(CpuRow {
                cpu: number as u64,
                charged_ns: cpu.charged,
                load: cpu.load,
                idle_ticks: cpu.idle_ticks,
                idle_ns: cpu.idle,
                pulls_in: cpu.pulls_in,
                pulls_out: cpu.pulls_out,
            })?;
        }
    }
    Ok(figures)
}

/// The row of a task whose waits are in ascending order.
fn row_of(task: u64, counts: &TaskCounts) -> TaskRow {
    let waits = counts.waits.lengths.as_slice();
    TaskRow {
        task,
        ran_ns: counts.ran,
        share_permille: share(counts.ran, counts.shared),
        weight_share_permille: share(counts.fair, counts.shared),
        greatest_lag_ns: counts.lags.map(|lags| lags.0),
        least_lag_ns: counts.lags.map(|lags| lags.1),
        late_ns: counts.lateness.map(|lateness| lateness.late),
        late_bound_ns: counts.lateness.map(|lateness| lateness.bound),
        picks: counts.picks,
        preempted: counts.preempted,
        wakes_run: waits.len() as u64,
        wake_mean_ns: mean_of(waits),
        wake_p99_ns: percentile_of(waits),
        wake_greatest_ns: waits.last().copied(),
        wake_greatest_from_ns: counts.waits.greatest_from,
        waited_ns: counts.waited,
        migrations: counts.migrations,
    }
}

fn share(ns: u64, all: u64) -> Option<u64> {
    if all == 0 {
        None
    } else {
        Some(part(ns, 1000, all))
    }
}

fn mean_of(waits: &[u64]) -> Option<u64> {
    if waits.is_empty() {
        return None;
    }
    let mut sum = 0u64;
    for wait in waits {
        sum = sum.saturating_add(*wait);
    }
    Some(part(sum, 1, waits.len() as u64))
}

/// The least wait that 99 of 100 don't pass.
fn percentile_of(waits: &[u64]) -> Option<u64> {
    let count = (waits.len() as u64).saturating_mul(99).div_ceil(100);
    waits.get(count.saturating_sub(1) as usize).copied()
}
