//! Which tasks the time that is drawn shows, and how long each runs in it.

use crate::concerned::{charged_task, running_after, task_of};
use crate::lists::set_at;
use crate::scale::Scale;
use crate::view::View;
use eevdf_clocks::{Moment, named_task};
use eevdf_ops::{Answer, CpuId, Setup};
use eevdf_queue::TaskId;
use std::alloc::{AllocError, Global};

/// What of a schedule is shown: the chosen CPUs, and of the chosen tasks those that are runnable on one of them in the time that is drawn,
/// or that a deed of that time there concerns.
#[derive(Drop)]
pub struct Shown {
    tasks: Vec<Seen>,
    // who runs on each CPU, and the end of its last deed
    running: Vec<Option<TaskId>>,
    clocks: Vec<u64>,
    scale: Scale,
    /// How many deeds of that time and these CPUs there are that concern a chosen task, or nobody where all are chosen.
    pub deeds: usize,
}

/// What is seen of a task.
#[derive(Clone, Copy)]
struct Seen {
    shown: bool,
    /// The nanoseconds that it runs in the time that is drawn, on the chosen CPUs.
    ran: u64,
    cpu: CpuId,
    /// From when on it is runnable on its CPU, where it is.
    since: Option<u64>,
    /// Whether it is one of those that were taken as running the longest.
    taken: bool,
}

/// What the time that is drawn shows of a history. It is refused memory alone.
pub fn shown_of(
    alloc: Global,
    setup: &Setup,
    moments: &[Moment],
    scale: Scale,
    view: &View,
) -> Result<Shown, AllocError> {
    let mut shown = Shown::open(alloc, setup, scale)?;
    for moment in moments {
        shown.follow(moment, view);
    }
    for place in 0..shown.tasks.len() {
        if let Some(task) = TaskId::new(place as u64) {
            shown.end(task, view);
        }
    }
    Ok(shown)
}

impl Shown {
    fn open(alloc: Global, setup: &Setup, scale: Scale) -> Result<Shown, AllocError> {
        let mut tasks = Vec::new(alloc);
        for (_task, spec) in setup.each_task() {
            tasks.push(Seen {
                shown: false,
                ran: 0,
                cpu: spec.home,
                since: if spec.asleep { None } else { Some(0) },
                taken: false,
            })?;
        }
        Ok(Shown {
            tasks,
            running: vec![in alloc; None; setup.cpus()]?,
            clocks: vec![in alloc; 0; setup.cpus()]?,
            scale,
            deeds: 0,
        })
    }

    /// How many tasks are shown.
    pub fn tasks(&self) -> usize {
        let mut count = 0usize;
        for seen in &self.tasks {
            if seen.shown {
                count = count.saturating_add(1);
            }
        }
        count
    }

    /// So many of the tasks that are shown: those that run the longest, of equal ones the first, in the order of their numbers. To be
    /// called once: those that were taken stay taken. It is refused memory alone.
    pub fn longest(&mut self, alloc: Global, most: usize) -> Result<Vec<TaskId>, AllocError> {
        for _ in 0..most {
            self.take_longest();
        }
        let mut tasks = Vec::new(alloc);
        for (place, seen) in self.tasks.iter().enumerate() {
            if seen.taken {
                if let Some(task) = TaskId::new(place as u64) {
                    tasks.push(task)?;
                }
            }
        }
        Ok(tasks)
    }

    /// Takes one more of them.
    fn take_longest(&mut self) {
        let mut longest: Option<(usize, u64)> = None;
        for (place, seen) in self.tasks.iter().enumerate() {
            let is_longer = match longest {
                None => true,
                Some((_, ran)) => seen.ran > ran,
            };
            if seen.shown && !seen.taken && is_longer {
                longest = Some((place, seen.ran));
            }
        }
        if let Some((place, _)) = longest {
            if let Some(seen) = self.tasks.get_mut(place) {
                seen.taken = true;
            }
        }
    }

    fn follow(&mut self, moment: &Moment, view: &View) {
        let cpu = moment.line.deed.cpu();
        self.count(moment, view);
        let after = running_after(moment, self.running_on(cpu));
        set_at(&mut self.running, cpu.index(), after);
        set_at(&mut self.clocks, cpu.index(), moment.end);
        match moment.line.answer {
            Answer::Slept(_) | Answer::Ended => {
                if let Some(task) = named_task(moment.line.deed) {
                    self.end_at(task, moment.begin, view);
                }
            }
            Answer::Woken => {
                if let Some(task) = named_task(moment.line.deed) {
                    self.come(task, moment);
                }
            }
            Answer::Pulled(task) => {
                self.end_at(task, moment.other, view);
                self.come(task, moment);
            }
            _ => {}
        }
    }

    fn running_on(&self, cpu: CpuId) -> Option<TaskId> {
        self.running.get(cpu.index()).copied().flatten()
    }

    /// Counts a deed that is shown, and shows the task that it concerns.
    fn count(&mut self, moment: &Moment, view: &View) {
        let cpu = moment.line.deed.cpu();
        let is_shown = view.cpus.has(cpu.index())
            && self.scale.shows(moment.begin, moment.end)
            && view.tasks.has_task(task_of(moment, self.running_on(cpu)));
        if !is_shown {
            return;
        }
        self.deeds = self.deeds.saturating_add(1);
        if let Some(task) = task_of(moment, self.running_on(cpu)) {
            self.show(moment, task);
        }
    }

    /// Shows a task that a deed concerns, with the time that it was charged.
    fn show(&mut self, moment: &Moment, task: TaskId) {
        let ns = self.scale.shared(moment.begin, moment.end);
        let is_charged = charged_task(moment).is_some();
        if let Some(seen) = self.tasks.get_mut(task.index()) {
            seen.shown = true;
            if is_charged {
                seen.ran = seen.ran.saturating_add(ns);
            }
        }
    }

    /// A task is runnable on the CPU of a deed from then on.
    fn come(&mut self, task: TaskId, moment: &Moment) {
        if let Some(seen) = self.tasks.get_mut(task.index()) {
            seen.cpu = moment.line.deed.cpu();
            seen.since = Some(moment.begin);
        }
    }

    /// Ends the time in which a task is runnable on its CPU, and shows it where that is in the time that is drawn.
    fn end_at(&mut self, task: TaskId, time: u64, view: &View) {
        let scale = self.scale;
        if let Some(seen) = self.tasks.get_mut(task.index()) {
            if let Some(since) = seen.since {
                let is_chosen = view.tasks.has(task.index()) && view.cpus.has(seen.cpu.index());
                seen.shown = seen.shown || is_chosen && scale.shows(since, time);
            }
            seen.since = None;
        }
    }

    /// Ends it with the history, as the task's CPU does its last deed.
    fn end(&mut self, task: TaskId, view: &View) {
        let Some(seen) = self.tasks.get(task.index()).copied() else {
            return;
        };
        let clock = self.clocks.get(seen.cpu.index()).copied().unwrap_or(0);
        self.end_at(task, clock, view);
    }
}
