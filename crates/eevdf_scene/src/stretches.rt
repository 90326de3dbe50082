//! The stretches that tasks ran, and their rests between them.

use crate::lists::set_at;
use crate::scale::Scale;
use crate::view::View;
use eevdf_clocks::{Moment, named_task};
use eevdf_ops::{Answer, CpuId, Setup};
use eevdf_queue::TaskId;
use std::alloc::{AllocError, Global};

/// Why a stretch ended: the first of these that came after its last tick.
#[derive(Clone, Copy, PartialEq, Eq)]
pub enum Stop {
    /// Nothing did, and the history ended.
    Nothing,
    /// The task fell asleep.
    Slept,
    /// The task ended.
    Ended,
    /// The task yielded.
    Yielded,
    /// Another task was picked.
    Preempted,
    /// The CPU waited for another one, and then the task ran on.
    Gap,
}

impl Stop {
    /// As a table, a page and a trace have it.
    pub fn word(self) -> &'static str {
        match self {
            Stop::Nothing => "-",
            Stop::Slept => "slept",
            Stop::Ended => "ended",
            Stop::Yielded => "yielded",
            Stop::Preempted => "preempted",
            Stop::Gap => "gap",
        }
    }
}

/// Ticks of one task on one CPU with no time between them, in which it neither slept nor ended. Times are in nanoseconds.
#[derive(Clone, Copy)]
pub struct Stretch {
    /// Where it ran.
    pub cpu: CpuId,
    /// Who ran.
    pub task: TaskId,
    /// When its first tick began.
    pub begin: u64,
    /// When its last one ended.
    pub end: u64,
    /// How long the task had been runnable before without running.
    pub waited: u64,
    /// How long it was from its wake, where it hadn't run since.
    pub delay: Option<u64>,
    /// Why it ended.
    pub stop: Stop,
    /// The place of its last tick in the history.
    pub last: usize,
}

impl Stretch {
    /// Whether some of it is in the time that is drawn, and its CPU and its task are chosen.
    pub fn is_chosen(&self, scale: &Scale, view: &View) -> bool {
        view.tasks.has(self.task.index())
            && view.cpus.has(self.cpu.index())
            && scale.shows(self.begin, self.end)
    }
}

/// A time in which a task didn't run: it waited to run, or slept. Times are in nanoseconds.
#[derive(Clone, Copy)]
pub struct Rest {
    /// Who rested.
    pub task: TaskId,
    /// Whether it slept, or had ended.
    pub sleeps: bool,
    /// From when on.
    pub begin: u64,
    /// When it ran, woke, fell asleep or ended, or the history ended.
    pub end: u64,
}

impl Rest {
    /// Whether some of it is in the time that is drawn, and its task is chosen.
    pub fn is_chosen(&self, scale: &Scale, view: &View) -> bool {
        view.tasks.has(self.task.index()) && scale.shows(self.begin, self.end)
    }
}

/// What the tasks of a history did.
#[derive(Drop)]
pub struct Turns {
    /// On each CPU in order of time.
    pub stretches: Vec<Stretch>,
    /// Of each task in order of time.
    pub rests: Vec<Rest>,
    // the place of each CPU's last stretch, where that may go on
    open: Vec<Option<usize>>,
    // the end of each CPU's last deed
    clocks: Vec<u64>,
    tasks: Vec<Standing>,
}

/// What a task does that doesn't run.
#[derive(Clone, Copy)]
struct Standing {
    cpu: CpuId,
    sleeps: bool,
    /// From when on it waits or sleeps.
    since: u64,
    /// When it woke, where it hasn't run since.
    woken: Option<u64>,
}

impl Standing {
    /// Of a task that a tick has charged.
    fn after_run(moment: &Moment) -> Standing {
        Standing {
            cpu: moment.line.deed.cpu(),
            sleeps: false,
            since: moment.end,
            woken: None,
        }
    }
}

/// The stretches and the rests of a history. It is refused memory alone.
pub fn turns_of(alloc: Global, setup: &Setup, moments: &[Moment]) -> Result<Turns, AllocError> {
    let mut turns = Turns::open(alloc, setup)?;
    for (at, moment) in moments.iter().enumerate() {
        turns.follow(moment, at)?;
    }
    turns.end_all()?;
    Ok(turns)
}

impl Turns {
    fn open(alloc: Global, setup: &Setup) -> Result<Turns, AllocError> {
        let mut tasks = Vec::new(alloc);
        for (_task, spec) in setup.each_task() {
            tasks.push(Standing {
                cpu: spec.home,
                sleeps: spec.asleep,
                since: 0,
                woken: None,
            })?;
        }
        Ok(Turns {
            stretches: Vec::new(alloc),
            rests: Vec::new(alloc),
            open: vec![in alloc; None; setup.cpus()]?,
            clocks: vec![in alloc; 0; setup.cpus()]?,
            tasks,
        })
    }

    /// Follows the deed at a place of the history.
    fn follow(&mut self, moment: &Moment, at: usize) -> Result<(), AllocError> {
        let cpu = moment.line.deed.cpu();
        set_at(&mut self.clocks, cpu.index(), moment.end);
        match moment.line.answer {
            Answer::Charged { task, .. } => self.run(task, moment, at)?,
            Answer::Picked(task) => self.pick(cpu, task),
            Answer::Yielded => self.stop(cpu, Stop::Yielded),
            Answer::Slept(_) => {
                self.stop(cpu, Stop::Slept);
                set_at(&mut self.open, cpu.index(), None);
                self.change(moment, true)?;
            }
            Answer::Ended => {
                self.close(moment);
                self.change(moment, true)?;
            }
            Answer::Woken => self.change(moment, false)?,
            Answer::Pulled(task) => self.bring(cpu, task),
            _ => {}
        }
        Ok(())
    }

    /// Adds a tick to the last stretch of its CPU, or as a new one.
    fn run(&mut self, task: TaskId, moment: &Moment, at: usize) -> Result<(), AllocError> {
        if !self.lengthen(task, moment, at) {
            self.begin_stretch(task, moment, at)?;
        }
        let standing = Standing::after_run(moment);
        self.set_standing(task, standing);
        Ok(())
    }

    fn begin_stretch(
        &mut self,
        task: TaskId,
        moment: &Moment,
        at: usize,
    ) -> Result<(), AllocError> {
        let cpu = moment.line.deed.cpu();
        if self.last_on(cpu).map(|stretch| stretch.task) == Some(task) {
            self.stop(cpu, Stop::Gap);
        }
        let begin = moment.begin;
        let since = self.standing(task).map_or(begin, |standing| standing.since);
        let woken = self.standing(task).and_then(|standing| standing.woken);
        self.push_rest(task, false, since, begin)?;
        set_at(&mut self.open, cpu.index(), Some(self.stretches.len()));
        self.stretches.push(Stretch {
            cpu,
            task,
            begin,
            end: moment.end,
            waited: begin.saturating_sub(since),
            delay: woken.map(|woken| begin.saturating_sub(woken)),
            stop: Stop::Nothing,
            last: at,
        })?;
        Ok(())
    }

    /// Makes the last stretch of a tick's CPU longer where it is the task's and ends as the tick begins, and says whether it is.
    fn lengthen(&mut self, task: TaskId, moment: &Moment, at: usize) -> bool {
        let cpu = moment.line.deed.cpu();
        let Some(place) = self.open.get(cpu.index()).copied().flatten() else {
            return false;
        };
        let Some(stretch) = self.stretches.get_mut(place) else {
            return false;
        };
        if stretch.task != task || stretch.end != moment.begin {
            return false;
        }
        stretch.end = moment.end;
        stretch.stop = Stop::Nothing;
        stretch.last = at;
        true
    }

    /// The last stretch of a CPU, where it may go on.
    fn last_on(&self, cpu: CpuId) -> Option<Stretch> {
        let place = self.open.get(cpu.index()).copied().flatten()?;
        self.stretches.get(place).copied()
    }

    /// Says why the last stretch of a CPU ended, where nothing has ended it before.
    fn stop(&mut self, cpu: CpuId, stop: Stop) {
        let Some(place) = self.open.get(cpu.index()).copied().flatten() else {
            return;
        };
        if let Some(stretch) = self.stretches.get_mut(place) {
            if stretch.stop == Stop::Nothing {
                stretch.stop = stop;
            }
        }
    }

    /// A pick of another task ends the last stretch of a CPU.
    fn pick(&mut self, cpu: CpuId, task: TaskId) {
        if self
            .last_on(cpu)
            .is_some_and(|stretch| stretch.task != task)
        {
            self.stop(cpu, Stop::Preempted);
        }
    }

    /// Ends the last stretch of a CPU where it is that of the task that ended.
    fn close(&mut self, moment: &Moment) {
        let cpu = moment.line.deed.cpu();
        let ran = self.last_on(cpu).map(|stretch| stretch.task);
        if ran.is_some() && ran == named_task(moment.line.deed) {
            self.stop(cpu, Stop::Ended);
            set_at(&mut self.open, cpu.index(), None);
        }
    }

    /// A task comes to a CPU, and goes on with what it does.
    fn bring(&mut self, cpu: CpuId, task: TaskId) {
        if let Some(standing) = self.standing(task) {
            self.set_standing(task, Standing { cpu, ..standing });
        }
    }

    /// The task that a deed names wakes, or else falls asleep or ends.
    fn change(&mut self, moment: &Moment, sleeps: bool) -> Result<(), AllocError> {
        let Some(task) = named_task(moment.line.deed) else {
            return Ok(());
        };
        let Some(standing) = self.standing(task) else {
            return Ok(());
        };
        let time = moment.begin;
        self.push_rest(task, standing.sleeps, standing.since, time)?;
        self.set_standing(
            task,
            Standing {
                cpu: moment.line.deed.cpu(),
                sleeps,
                since: time,
                woken: if sleeps { None } else { Some(time) },
            },
        );
        Ok(())
    }

    /// Ends the rests with the history: the wait of a task as its CPU does its last deed, and a sleep with the last one of all.
    fn end_all(&mut self) -> Result<(), AllocError> {
        let mut last = 0;
        for clock in &self.clocks {
            last = (*clock).max(last);
        }
        for place in 0..self.tasks.len() {
            if let Some(task) = TaskId::new(place as u64) {
                self.end_one(task, last)?;
            }
        }
        Ok(())
    }

    fn end_one(&mut self, task: TaskId, last: u64) -> Result<(), AllocError> {
        let Some(standing) = self.standing(task) else {
            return Ok(());
        };
        let clock = self.clocks.get(standing.cpu.index()).copied();
        let end = if standing.sleeps {
            last
        } else {
            clock.unwrap_or(0)
        };
        self.push_rest(task, standing.sleeps, standing.since, end)
    }

    fn standing(&self, task: TaskId) -> Option<Standing> {
        self.tasks.get(task.index()).copied()
    }

    fn set_standing(&mut self, task: TaskId, standing: Standing) {
        set_at(&mut self.tasks, task.index(), standing);
    }

    /// Adds a rest, where it has some length.
    fn push_rest(
        &mut self,
        task: TaskId,
        sleeps: bool,
        begin: u64,
        end: u64,
    ) -> Result<(), AllocError> {
        if begin < end {
            self.rests.push(Rest {
                task,
                sleeps,
                begin,
                end,
            })?;
        }
        Ok(())
    }
}
