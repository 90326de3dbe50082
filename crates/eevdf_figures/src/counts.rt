//! What is counted of a history, as its deeds are done once more.

use crate::counted::{CpuCounts, Since, TaskCounts};
use crate::lateness::Lateness;
use crate::virtual_times::lag_in_ns;
use eevdf_clocks::Moment;
use eevdf_fair_queue::Mark;
use eevdf_ops::{Answer, CpuId, Deed, Setup, Solo};
use eevdf_queue::{Entry, TaskId};
use eevdf_scene::{Observer, Rest, Scale, charged_task, is_rebase, moved_task};
use eevdf_weight::weight;
use std::alloc::{AllocError, Global};

/// What is counted of all tasks and CPUs.
#[derive(Drop)]
pub struct Counts {
    pub(crate) tasks: Vec<TaskCounts>,
    pub(crate) cpus: Vec<CpuCounts>,
    /// The time in which it is counted.
    pub(crate) scale: Scale,
    // whether the deed that is done is before that time
    is_before: bool,
    /// Where the task stands that the deed touches, or its queue, before it.
    pub(crate) mark: Option<Mark>,
}

impl Counts {
    /// Of nothing yet, of the time that is counted. It is refused memory alone.
    pub fn new(alloc: Global, setup: &Setup, scale: Scale) -> Result<Counts, AllocError> {
        let mut counts = Counts {
            tasks: Vec::new(alloc),
            cpus: Vec::new(alloc),
            scale,
            is_before: false,
            mark: None,
        };
        for _cpu in 0..setup.cpus() {
            counts.cpus.push(CpuCounts::new(alloc))?;
        }
        for (_task, spec) in setup.each_task() {
            counts.tasks.push(TaskCounts::new(alloc, spec.home))?;
        }
        Ok(counts)
    }

    /// Adds the times in which tasks waited.
    pub fn add_waits(&mut self, rests: &[Rest]) {
        for rest in rests {
            if !rest.sleeps {
                if let Some(counts) = self.tasks.get_mut(rest.task.index()) {
                    let length = self.scale.shared(rest.begin, rest.end);
                    counts.waited = counts.waited.saturating_add(length);
                }
            }
        }
    }

    /// The task that stays in its queue with another entry: a tick charges it, or it yields.
    fn changed_task(&self, moment: &Moment) -> Option<TaskId> {
        match moment.line.answer {
            Answer::Yielded => self.running(moment.line.deed.cpu()),
            _ => charged_task(moment),
        }
    }

    /// Ends what was so of the task that a deed changes or moves, and at a rebase of all tasks of its CPU.
    fn end_states(&mut self, moment: &Moment) {
        if is_rebase(moment) {
            self.note_lags(moment.line.deed.cpu());
        }
        if let Some(task) = self.changed_task(moment) {
            self.note_lag(task);
        }
        if let Some(task) = moved_task(moment) {
            self.leave(task);
        }
    }

    /// Begins what is so of it after the deed.
    fn begin_states(&mut self, solo: &Solo, moment: &Moment, place: usize) {
        let cpu = moment.line.deed.cpu();
        if is_rebase(moment) {
            self.renew_all(solo, cpu, place);
        }
        if let Some(task) = self.changed_task(moment) {
            self.renew(solo, task, cpu, place);
        }
        if let Some(task) = moved_task(moment) {
            self.join(solo, task, cpu, place);
            self.settle_bounds(moment, task);
        }
    }

    /// Notes the virtual times of the CPUs that a deed touches.
    fn note_times(&mut self, solo: &Solo, moment: &Moment, place: usize) -> Result<(), AllocError> {
        self.note_time(solo, moment.line.deed.cpu(), place, moment.end)?;
        match moment.line.deed {
            Deed::Pull { source, .. } => self.note_time(solo, source, place, moment.other),
            _ => Ok(()),
        }
    }

    /// Notes the load and the virtual time of a CPU after the deed at a place, at a time of its clock. Of what is before the time that is
    /// counted the last is kept, and of what is after it nothing.
    fn note_time(
        &mut self,
        solo: &Solo,
        cpu: CpuId,
        place: usize,
        time: u64,
    ) -> Result<(), AllocError> {
        if !solo.has_cpu(cpu) || time > self.scale.to {
            return Ok(());
        }
        let queue = solo.queue(cpu);
        let (load, virtual_time) = (queue.load(), queue.floor_time());
        let Some(counts) = self.cpus.get_mut(cpu.index()) else {
            return Ok(());
        };
        counts.load = load;
        if time < self.scale.from {
            counts.times.forget();
        }
        counts.times.note(place, virtual_time)
    }

    pub(crate) fn since(&self, task: TaskId) -> Option<Since> {
        self.tasks.get(task.index())?.since
    }

    /// Takes the lags that a task has had since its entry is as it is into its greatest and least one, and how late its request was,
    /// unless all of that is before the time that is counted.
    fn note_lag(&mut self, task: TaskId) {
        if self.is_before {
            return;
        }
        let Some(since) = self.since(task) else {
            return;
        };
        let Some(counts) = self.cpus.get(since.cpu) else {
            return;
        };
        let greatest = counts.times.greatest_since(since.place);
        let least = counts.times.least_since(since.place);
        if let (Some(greatest), Some(least)) = (greatest, least) {
            let lateness = Lateness::of(greatest, since.entry.d, counts.bounds);
            let greatest = lag_in_ns(greatest, &since.entry);
            let least = lag_in_ns(least, &since.entry);
            if let Some(counts) = self.tasks.get_mut(task.index()) {
                counts.add_lags(greatest, least);
                counts.add_lateness(lateness);
            }
        }
    }

    /// Does so for all tasks of a CPU.
    fn note_lags(&mut self, cpu: CpuId) {
        for place in 0..self.tasks.len() {
            if let Some(task) = self.task_on(place, cpu) {
                self.note_lag(task);
            }
        }
    }

    /// The task at a place of the list, where it is runnable on a CPU.
    fn task_on(&self, place: usize, cpu: CpuId) -> Option<TaskId> {
        let since = self.tasks.get(place)?.since?;
        if since.cpu == cpu.index() {
            TaskId::new(place as u64)
        } else {
            None
        }
    }

    /// Ends the time in which a task, where it is runnable, has its weight on its CPU.
    fn leave(&mut self, task: TaskId) {
        self.note_lag(task);
        let Some(since) = self.since(task) else {
            return;
        };
        let Some(counts) = self.cpus.get(since.cpu) else {
            return;
        };
        let shared = counts.charged.saturating_sub(since.charged);
        let fair = counts
            .service
            .of_weight(since.service, weight(since.entry.nice));
        if let Some(counts) = self.tasks.get_mut(task.index()) {
            counts.shared = counts.shared.saturating_add(shared);
            counts.fair = counts.fair.saturating_add(fair);
            counts.since = None;
        }
    }

    /// Begins it at the opening, where the task is runnable at its home.
    fn begin_task(&mut self, solo: &Solo, task: TaskId) {
        let Some(counts) = self.tasks.get(task.index()) else {
            return;
        };
        let home = counts.home;
        self.join(solo, task, home, 0);
    }

    /// Begins it, where the task is runnable on the CPU.
    fn join(&mut self, solo: &Solo, task: TaskId, cpu: CpuId, place: usize) {
        let Some(counts) = self.cpus.get(cpu.index()) else {
            return;
        };
        let charged = counts.charged;
        let service = counts.service;
        if let Some(entry) = entry_in(solo, cpu, task) {
            self.set_since(
                task,
                Since {
                    cpu: cpu.index(),
                    place,
                    entry,
                    charged,
                    service,
                },
            );
        }
    }

    /// Gives a task the entry that it has after a tick, a yield or a rebase.
    fn renew(&mut self, solo: &Solo, task: TaskId, cpu: CpuId, place: usize) {
        let Some(since) = self.since(task) else {
            return;
        };
        if let Some(entry) = entry_in(solo, cpu, task) {
            self.set_since(
                task,
                Since {
                    place,
                    entry,
                    ..since
                },
            );
        }
    }

    /// Does so for all tasks of a CPU, after a rebase.
    fn renew_all(&mut self, solo: &Solo, cpu: CpuId, place: usize) {
        for number in 0..self.tasks.len() {
            if let Some(task) = self.task_on(number, cpu) {
                self.renew(solo, task, cpu, place);
            }
        }
    }

    fn set_since(&mut self, task: TaskId, since: Since) {
        if let Some(counts) = self.tasks.get_mut(task.index()) {
            counts.since = Some(since);
        }
    }
}

/// Counts each deed, as far as it is in the time that is counted.
impl Observer for Counts {
    fn begin(&mut self, solo: &Solo) -> Result<(), AllocError> {
        for cpu in 0..self.cpus.len().min(CpuId::COUNT) {
            self.note_time(solo, CpuId::numbered(cpu), 0, 0)?;
        }
        self.measure_bounds(solo);
        for place in 0..self.tasks.len() {
            if let Some(task) = TaskId::new(place as u64) {
                self.begin_task(solo, task);
            }
        }
        Ok(())
    }

    fn before_deed(&mut self, solo: &Solo, moment: &Moment) -> Result<(), AllocError> {
        self.is_before = moment.end < self.scale.from;
        self.end_states(moment);
        self.keep_bounds(solo, moment);
        Ok(())
    }

    fn after_deed(&mut self, solo: &Solo, moment: &Moment, place: usize) -> Result<(), AllocError> {
        self.note_times(solo, moment, place)?;
        self.begin_states(solo, moment, place);
        self.count_deed(solo, moment)
    }

    fn end(&mut self) {
        self.is_before = false;
        for place in 0..self.tasks.len() {
            if let Some(task) = TaskId::new(place as u64) {
                self.leave(task);
            }
        }
    }
}

fn entry_in(solo: &Solo, cpu: CpuId, task: TaskId) -> Option<Entry> {
    if solo.has_cpu(cpu) {
        solo.queue(cpu).entry(task)
    } else {
        None
    }
}
