//! What each task comes to while its machine is driven.

use crate::fair_shares::FairShares;
use crate::printing::moment_of;
use crate::requests::{late_by, moved_by};
use crate::row::Row;
use eevdf_closed_loop::{ClosedLoop, Group, Plan};
use eevdf_ops::{Answer, CpuId, Deed, Line, Setup};
use eevdf_queue::{Queue, TaskId};
use eevdf_weight::weight;
use std::alloc::{AllocError, Global};

/// A task among the rows.
#[derive(Drop)]
struct InRow {
    /// The place of its row.
    row: usize,
    /// Since when it waits, where it does.
    since: Option<u64>,
}

/// What all tasks come to.
#[derive(Drop)]
pub(crate) struct AllFigures {
    rows: Vec<Row>,
    tasks: Vec<InRow>,
    /// The place of the task that each CPU runs.
    running: Vec<Option<usize>>,
    /// The deadline of the request of the task that each CPU runs.
    deadlines: Vec<Option<i64>>,
    shares: FairShares,
}

impl AllFigures {
    /// The tasks of a setup at the start, which is that of a plan.
    pub fn of(alloc: Global, setup: &Setup, plan: &Plan) -> Result<AllFigures, AllocError> {
        let mut running = Vec::new(alloc);
        let mut deadlines = Vec::new(alloc);
        for _cpu in 0..setup.cpus() {
            running.push(None)?;
            deadlines.push(None)?;
        }
        let mut figures = AllFigures {
            rows: Vec::new(alloc),
            tasks: Vec::new(alloc),
            running,
            deadlines,
            shares: FairShares::of(alloc, setup)?,
        };
        for (place, group) in plan.groups.iter().enumerate() {
            figures.add_group(alloc, place, group)?;
        }
        Ok(figures)
    }

    /// Adds the rows of the group at a place: one for each task, which waits if it isn't asleep, or one for all tasks that arrive.
    fn add_group(&mut self, alloc: Global, place: usize, group: &Group) -> Result<(), AllocError> {
        let first = self.tasks.len();
        for number in 0..group.count {
            let task = first.saturating_add(number);
            if group.arrivals.is_none() {
                self.rows.push(Row::of_task(alloc, place, task)?)?;
            } else if number == 0 {
                self.rows
                    .push(Row::of_arrivals(alloc, place, first, group.count)?)?;
            }
            let waits = group.arrivals.is_none() && group.begins == 0;
            self.tasks.push(InRow {
                row: self.rows.len().saturating_sub(1),
                since: if waits { Some(0) } else { None },
            })?;
        }
        Ok(())
    }

    /// The rows, in the order of their tasks.
    pub fn rows(&self) -> &[Row] {
        &self.rows
    }

    /// The hundredths of a per cent of so many nanoseconds that the weights of a row's tasks gave them, rounded down.
    pub fn fair_share(&self, row: &Row, lasts: u64) -> u64 {
        self.shares.hundredths(row.first, row.numbers, lasts)
    }

    /// The row of the task at a place.
    fn row_of(&mut self, place: usize) -> Option<&mut Row> {
        let row = self.tasks.get(place)?.row;
        self.rows.get_mut(row)
    }

    /// Counts a deed that a machine has just done.
    pub fn count(&mut self, machine: &ClosedLoop, line: &Line) {
        let now = moment_of(machine, line);
        let cpu = line.deed.cpu().index();
        let answer = line.answer;
        match answer {
            Answer::Charged { task, resched } => {
                self.has_ticked(line.deed, Some(task));
                if resched {
                    self.has_used_up(machine, line.deed.cpu(), task);
                }
            }
            Answer::Idle => self.has_ticked(line.deed, None),
            Answer::Picked(task) => self.has_been_picked(cpu, task.index(), now),
            Answer::Pulled(task) => self.has_been_pulled(task, cpu),
            Answer::Woken => self.has_woken(line.deed, now),
            Answer::Reniced => self.has_been_reniced(line.deed),
            Answer::Slept(_) => self.has_fallen_asleep(cpu),
            Answer::Begun => self.has_begun(machine, line.deed, now),
            Answer::Ended => {
                self.has_ended(machine, line.deed, now);
                self.has_left(cpu);
            }
            _ => {}
        }
        self.note_deadline(machine, line.deed.cpu());
    }

    /// A tick has used up the request of the task that runs on a CPU, which has another deadline since.
    fn has_used_up(&mut self, machine: &ClosedLoop, cpu: CpuId, task: TaskId) {
        let noted = self.deadlines.get(cpu.index()).copied();
        let queue = queue_of(machine, cpu);
        if let (Some(Some(deadline)), Some(queue), Some(row)) = (
            noted,
            queue,
            self.row_of(task.index()),
        ) {
            row.requests.add(lateness(queue, deadline));
        }
    }

    /// Keeps which deadline the task has that runs on a CPU. No deed of another CPU changes it.
    fn note_deadline(&mut self, machine: &ClosedLoop, cpu: CpuId) {
        let entry = queue_of(machine, cpu).and_then(|queue| queue.running_entry());
        if let Some(deadline) = self.deadlines.get_mut(cpu.index()) {
            *deadline = entry.map(|entry| entry.d);
        }
    }

    /// The time of a tick has gone by, and was charged to the task that runs there, if one does.
    fn has_ticked(&mut self, deed: Deed, task: Option<TaskId>) {
        let Deed::Tick { cpu, ns } = deed else {
            return;
        };
        self.shares.passes(cpu.index(), ns.get());
        if let Some(row) = task.and_then(|task| self.row_of(task.index())) {
            row.ran = row.ran.saturating_add(ns.get());
        }
    }

    fn has_been_picked(&mut self, cpu: usize, place: usize, now: u64) {
        let Some(running) = self.running.get_mut(cpu) else {
            return;
        };
        let before = *running;
        *running = Some(place);
        if before == Some(place) {
            return;
        }
        if let Some(task) = before.and_then(|before| self.tasks.get_mut(before)) {
            task.since = Some(now);
        }
        self.runs(place, now);
    }

    /// The task at a place runs from now on.
    fn runs(&mut self, place: usize, now: u64) {
        let Some(task) = self.tasks.get_mut(place) else {
            return;
        };
        let Some(since) = task.since else {
            return;
        };
        task.since = None;
        if let Some(row) = self.row_of(place) {
            row.waits.add(now.saturating_sub(since));
        }
    }

    fn has_been_pulled(&mut self, task: TaskId, cpu: usize) {
        self.shares.leaves(task.index());
        self.shares.comes(task.index(), cpu);
        if let Some(row) = self.row_of(task.index()) {
            row.pulls = row.pulls.saturating_add(1);
        }
    }

    fn has_woken(&mut self, deed: Deed, now: u64) {
        if let Deed::Wake { cpu, task, .. } = deed {
            self.shares.comes(task.index(), cpu.index());
            if let Some(task) = self.tasks.get_mut(task.index()) {
                task.since = Some(now);
            }
        }
    }

    fn has_begun(&mut self, machine: &ClosedLoop, deed: Deed, now: u64) {
        if let Deed::Begin { task, nice, .. } = deed {
            self.shares.weighs(task.index(), weight(nice));
            if let (Some(arrived), Some(row)) = (machine.arrived(task), self.row_of(task.index())) {
                row.begins(arrived, now);
            }
        }
    }

    fn has_ended(&mut self, machine: &ClosedLoop, deed: Deed, now: u64) {
        if let Deed::End { task, .. } = deed {
            if let (Some(arrived), Some(row)) = (machine.arrived(task), self.row_of(task.index())) {
                row.ends(arrived, now);
            }
        }
    }

    fn has_been_reniced(&mut self, deed: Deed) {
        if let Deed::Renice { task, nice, .. } = deed {
            self.shares.weighs(task.index(), weight(nice));
        }
    }

    /// The task that runs on a CPU has fallen asleep.
    fn has_fallen_asleep(&mut self, cpu: usize) {
        if let Some(Some(place)) = self.running.get(cpu).copied() {
            if let Some(row) = self.row_of(place) {
                row.sleeps = row.sleeps.saturating_add(1);
            }
        }
        self.has_left(cpu);
    }

    /// The task that ran on a CPU runs no more.
    fn has_left(&mut self, cpu: usize) {
        if let Some(Some(place)) = self.running.get(cpu).copied() {
            self.shares.leaves(place);
        }
        if let Some(running) = self.running.get_mut(cpu) {
            *running = None;
        }
    }
}

/// The queue of a CPU, where a machine has it.
fn queue_of(machine: &ClosedLoop, cpu: CpuId) -> Option<&Queue> {
    if machine.machine.has_cpu(cpu) {
        Some(machine.machine.queue(cpu))
    } else {
        None
    }
}

/// By how much a request of this deadline was late that a tick has used up: what the task ran beyond it isn't counted.
fn lateness(queue: &Queue, deadline: i64) -> u64 {
    let Some(entry) = queue.running_entry() else {
        return 0;
    };
    let beyond = entry.v.abs_diff(deadline);
    let moved = moved_by(beyond, weight(entry.nice), queue.load());
    late_by(queue.floor_time(), moved, deadline)
}
