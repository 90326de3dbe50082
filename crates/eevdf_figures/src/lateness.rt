//! How late requests were, beside how late they could be: each CPU has the bounds of eevdf_fair_queue beside its queue.

ghost use Rattle.std.specs.Prelude.{◌≡◌, ◌-ℤ◌, pos};
ghost use Rattle.std.specs.Int.{int_max};
ghost use Rattle.eevdf_queue.specs.Tick as ticks;
ghost use Rattle.eevdf_fair_queue.specs.Bounds as bounds;

use crate::counts::Counts;
use eevdf_clocks::Moment;
use eevdf_fair_queue::{Bounds, Mark};
use eevdf_ops::{Answer, CpuId, Deed, Solo};
use eevdf_queue::laws::every_queue;
use eevdf_queue::{Queue, TaskId};
use eevdf_scene::{charged_task, moved_task};
use eevdf_weight::Ns;

/// How late a request was, in virtual time.
#[derive(Clone, Copy)]
pub(crate) struct Lateness {
    /// By how much the virtual time of its CPU was past its deadline, cut; 0 where it wasn't.
    pub late: i64,
    /// By how much it could be at most, whatever had been done on the CPU.
    pub bound: i64,
}

impl Lateness {
    /// That of a request that is due at a deadline, where the virtual time of its CPU was no greater than this since it began, and its
    /// CPU's bounds are these.
    pub(crate) fn of(time: i64, deadline: i64, kept: Bounds) -> Lateness
        ensures late { result.late ≡ int_max (bounds.held (time -ℤ deadline)) (pos 0) }
        ensures bound { result.bound ≡ bounds.late_by kept deadline }
    {
        Lateness {
            late: time.saturating_sub(deadline).max(0),
            bound: kept.late_by(deadline),
        }
    }

    /// The greater ones of both.
    pub(crate) fn or_greater(self, other: Lateness) -> Lateness
        ensures late { result.late ≡ int_max self.late other.late }
        ensures bound { result.bound ≡ int_max self.bound other.bound }
    {
        Lateness {
            late: self.late.max(other.late),
            bound: self.bound.max(other.bound),
        }
    }
}

impl Counts {
    /// Takes the bounds of each queue as the setup opens it.
    pub(crate) fn measure_bounds(&mut self, solo: &Solo) {
        for (cpu, counts) in self.cpus.iter_mut().enumerate() {
            if cpu < CpuId::COUNT && solo.has_cpu(CpuId::numbered(cpu)) {
                counts.bounds = Bounds::of(solo.queue(CpuId::numbered(cpu)));
            }
        }
    }

    /// Makes the bounds of a deed's CPU those after it, or notes where the task stands that it touches. Before the deed; bounds of what is
    /// after the time that is counted aren't wanted.
    pub(crate) fn keep_bounds(&mut self, solo: &Solo, moment: &Moment) {
        self.mark = None;
        let cpu = moment.line.deed.cpu();
        if moment.end > self.scale.to || !solo.has_cpu(cpu) {
            return;
        }
        let queue = solo.queue(cpu);
        self.mark = mark_before(queue, moment);
        if let Some(counts) = self.cpus.get_mut(cpu.index()) {
            counts.bounds = bounds_after(counts.bounds, queue, moment);
        }
    }

    /// Makes them those after a deed that touched one task, once it is known where that stands now.
    pub(crate) fn settle_bounds(&mut self, moment: &Moment, task: TaskId) {
        let Some(since) = self.since(task) else {
            return;
        };
        if moment.end > self.scale.to {
            return;
        }
        let mark = self.mark;
        if let Some(counts) = self.cpus.get_mut(moment.line.deed.cpu().index()) {
            counts.bounds = counts.bounds.settled(mark, Some(since.entry));
        }
    }
}

/// The mark before a deed by which a task may become runnable, or join its queue again.
fn mark_before(queue: &Queue, moment: &Moment) -> Option<Mark> {
    match moment.line.answer {
        Answer::Woken | Answer::Pulled(_) | Answer::Reniced | Answer::Set => {
            Mark::of(queue, moved_task(moment)?)
        }
        _ => None,
    }
}

/// The bounds after a deed that is a turn's or a rebase, of a queue as it is before it. Those of all others wait for where the task stands
/// that they touch.
fn bounds_after(kept: Bounds, queue: &Queue, moment: &Moment) -> Bounds {
    match moment.line.deed {
        Deed::Pick { .. } => kept.picked(),
        Deed::Tick { ns, .. } if charged_task(moment).is_some() => charged(kept, queue, ns),
        Deed::Rebase { .. } => kept.lowered(lowered_by(moment)),
        _ => kept,
    }
}

/// By how much a deed lowers the virtual times of its CPU.
fn lowered_by(moment: &Moment) -> i64 {
    match moment.line.answer {
        Answer::Rebased(by) => by,
        _ => 0,
    }
}

/// The bounds after whoever runs in a queue was charged.
fn charged(kept: Bounds, queue: &Queue, ns: Ns) -> Bounds
    ensures { result ≡ bounds.charged_from kept ns (ticks.running_entry queue.now.state) }
{
    every_queue(queue);
    let mut grown = kept;
    grown.charge_from(ns, queue.running_entry());
    grown
}
