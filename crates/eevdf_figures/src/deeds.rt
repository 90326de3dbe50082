//! What is counted of each deed: the time that it took, turns, pulls and migrations.

use crate::counts::Counts;
use eevdf_clocks::{Moment, named_task};
use eevdf_ops::{Answer, CpuId, Deed, Solo};
use eevdf_queue::TaskId;
use std::alloc::AllocError;

impl Counts {
    /// Counts a deed that is done, as far as it is in the time that is counted.
    pub(crate) fn count_deed(&mut self, solo: &Solo, moment: &Moment) -> Result<(), AllocError> {
        self.count_tick(solo, moment);
        self.count_turn(moment)?;
        if self.scale.has(moment.begin) {
            self.count_pull(moment);
            self.count_migration(moment);
        }
        Ok(())
    }

    fn count_tick(&mut self, solo: &Solo, moment: &Moment) {
        if !self.scale.shows(moment.begin, moment.end) {
            return;
        }
        let ns = self.scale.shared(moment.begin, moment.end);
        let cpu = moment.line.deed.cpu();
        match moment.line.answer {
            Answer::Charged { task, .. } => self.count_charge(solo, cpu, task, ns),
            Answer::Idle if matches!(moment.line.deed, Deed::Tick { .. }) => self.count_idle(
                cpu, ns,
            ),
            _ => {}
        }
    }

    fn count_charge(&mut self, solo: &Solo, cpu: CpuId, task: TaskId, ns: u64) {
        if !solo.has_cpu(cpu) {
            return;
        }
        let load = solo.queue(cpu).load();
        if let Some(counts) = self.cpus.get_mut(cpu.index()) {
            counts.charged = counts.charged.saturating_add(ns);
            counts.service = counts.service.after(ns, load);
        }
        if let Some(counts) = self.tasks.get_mut(task.index()) {
            counts.ran = counts.ran.saturating_add(ns);
        }
    }

    fn count_idle(&mut self, cpu: CpuId, ns: u64) {
        if let Some(counts) = self.cpus.get_mut(cpu.index()) {
            counts.idle_ticks = counts.idle_ticks.saturating_add(1);
            counts.idle = counts.idle.saturating_add(ns);
        }
    }

    /// Counts picks, and what they end: a turn of another task, and the time since a wake.
    fn count_turn(&mut self, moment: &Moment) -> Result<(), AllocError> {
        let cpu = moment.line.deed.cpu();
        let is_counted = self.scale.has(moment.begin);
        match moment.line.answer {
            Answer::Picked(task) => {
                let other = self.set_running(cpu, Some(task));
                if is_counted {
                    self.count_preempted(other, task);
                }
                self.count_pick(task, moment.begin, is_counted)?;
            }
            Answer::Slept(_) => {
                let _ = self.set_running(cpu, None);
            }
            Answer::Ended if self.running(cpu) == named_task(moment.line.deed) => {
                let _ = self.set_running(cpu, None);
            }
            Answer::Woken => self.note_wake(moment),
            _ => {}
        }
        Ok(())
    }

    fn note_wake(&mut self, moment: &Moment) {
        if let Some(task) = named_task(moment.line.deed) {
            if let Some(counts) = self.tasks.get_mut(task.index()) {
                counts.waits.wake(moment.begin);
            }
        }
    }

    pub(crate) fn running(&self, cpu: CpuId) -> Option<TaskId> {
        self.cpus.get(cpu.index())?.running
    }

    /// Who runs on a CPU from now on; gives who ran before.
    fn set_running(&mut self, cpu: CpuId, running: Option<TaskId>) -> Option<TaskId> {
        match self.cpus.get_mut(cpu.index()) {
            None => None,
            Some(counts) => {
                let before = counts.running;
                counts.running = running;
                before
            }
        }
    }

    /// Counts that a pick of a task ends the turn of another one.
    fn count_preempted(&mut self, running: Option<TaskId>, by: TaskId) {
        let Some(task) = running else {
            return;
        };
        if task != by {
            if let Some(counts) = self.tasks.get_mut(task.index()) {
                counts.preempted = counts.preempted.saturating_add(1);
            }
        }
    }

    fn count_pick(&mut self, task: TaskId, time: u64, is_counted: bool) -> Result<(), AllocError> {
        match self.tasks.get_mut(task.index()) {
            None => Ok(()),
            Some(counts) => counts.pick(time, is_counted),
        }
    }

    fn count_migration(&mut self, moment: &Moment) {
        let (left, is_pulled) = match moment.line.answer {
            Answer::Pulled(task) => (Some(task), true),
            Answer::Slept(_) | Answer::Ended => (named_task(moment.line.deed), false),
            _ => (None, false),
        };
        if let Some(task) = left {
            if let Some(counts) = self.tasks.get_mut(task.index()) {
                counts.leave(moment.line.deed.cpu(), is_pulled);
            }
        }
    }

    fn count_pull(&mut self, moment: &Moment) {
        if !matches!(moment.line.answer, Answer::Pulled(_)) {
            return;
        }
        if let Deed::Pull { cpu, source } = moment.line.deed {
            if let Some(counts) = self.cpus.get_mut(cpu.index()) {
                counts.pulls_in = counts.pulls_in.saturating_add(1);
            }
            if let Some(counts) = self.cpus.get_mut(source.index()) {
                counts.pulls_out = counts.pulls_out.saturating_add(1);
            }
        }
    }
}
