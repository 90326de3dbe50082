//! How the lags of tasks and the loads of CPUs change, as the deeds are done once more.

use crate::again::Observer;
use crate::concerned::task_of;
use crate::lists::set_at;
use crate::scale::{Scale, part};
use eevdf_clocks::Moment;
use eevdf_ops::{Answer, CpuId, Deed, Setup, Solo};
use eevdf_queue::TaskId;
use std::alloc::{AllocError, Global};

/// A curve has at most four points in each of so many columns.
pub const COLUMNS: u64 = 220;

/// So many curves are drawn at most: those of the tasks that run the longest, of those that are shown.
pub const MOST_CURVES: usize = 16;

/// A lag, in virtual time, at a moment, in nanoseconds.
#[derive(Clone, Copy, PartialEq, Eq)]
pub struct Point {
    /// The moment.
    pub time: u64,
    /// The lag.
    pub lag: i64,
}

/// The lags of a task, in order of time. Of many in one column the first, the least, the greatest and the last are kept.
#[derive(Drop)]
pub struct Curve {
    /// Whose lags these are.
    pub task: TaskId,
    /// The last lag before the time that is drawn.
    pub before: Option<Point>,
    /// Those in that time, and after it.
    pub points: Vec<Point>,
    /// Whether some lags aren't kept.
    thinned: bool,
}

/// The load of a CPU from a moment on.
#[derive(Clone, Copy)]
pub struct Load {
    /// The CPU.
    pub cpu: CpuId,
    /// The moment, in nanoseconds.
    pub time: u64,
    /// The sum of the weights of the tasks that are runnable there.
    pub load: u64,
}

/// What is noted of each deed beside the curves and the loads.
#[derive(Clone, Copy, PartialEq, Eq)]
pub enum Notes {
    /// Nothing: a picture has no more.
    Nothing,
    /// What is known after it, which a trace has too.
    After,
    /// That, and the lag before it of whoever ran, as a page has both.
    BeforeAndAfter,
}

/// What is known after a deed.
#[derive(Clone, Copy)]
pub struct After {
    /// The task that the deed concerns.
    pub task: Option<TaskId>,
    /// Its lag, in virtual time, where it is on the deed's CPU or fell asleep by the deed: that with which it left then, also by a doze.
    pub lag: Option<i64>,
}

/// What the curves of a picture or a trace are made of.
#[derive(Drop)]
pub struct Lags {
    /// Of the tasks that have one, in the order in which they were given.
    pub curves: Vec<Curve>,
    /// Of each CPU in order of time, each load that is another one than before.
    pub loads: Vec<Load>,
    /// Of each deed, where that is noted.
    pub after: Vec<After>,
    /// Of each deed the lag of whoever ran on its CPU before it, where that is noted.
    pub before: Vec<Option<i64>>,
    notes: Notes,
    scale: Scale,
    // who ran on the CPU of a deed before it
    running: Option<TaskId>,
    last_loads: Vec<u64>,
    // when each CPU was looked at last
    looked: Vec<Option<u64>>,
}

impl Lags {
    /// Of these tasks, before a machine is looked at. It is refused memory alone.
    pub fn new(
        alloc: Global,
        setup: &Setup,
        notes: Notes,
        tasks: &[TaskId],
        scale: Scale,
    ) -> Result<Lags, AllocError> {
        let mut curves = Vec::new(alloc);
        for task in tasks {
            curves.push(Curve {
                task: *task,
                before: None,
                points: Vec::new(alloc),
                thinned: false,
            })?;
        }
        Ok(Lags {
            curves,
            loads: Vec::new(alloc),
            after: Vec::new(alloc),
            before: Vec::new(alloc),
            notes,
            scale,
            running: None,
            last_loads: vec![in alloc; 0; setup.cpus()]?,
            looked: vec![in alloc; None; setup.cpus()]?,
        })
    }

    /// Whether a curve keeps only some of its lags.
    pub fn are_thinned(&self) -> bool {
        let mut thinned = false;
        for curve in &self.curves {
            thinned = thinned || curve.thinned;
        }
        thinned
    }

    /// Notes the lag of whoever runs on the CPU of a deed before it, where that is wanted.
    fn note_before(&mut self, solo: &Solo, cpu: CpuId) -> Result<(), AllocError> {
        if self.notes == Notes::BeforeAndAfter {
            self.before.push(lag_of_running(solo, cpu))?;
        }
        Ok(())
    }

    fn look(&mut self, solo: &Solo, cpu: CpuId, time: u64) -> Result<(), AllocError> {
        let scale = self.scale;
        if !solo.has_cpu(cpu) {
            return Ok(());
        }
        set_at(&mut self.looked, cpu.index(), Some(time));
        let queue = solo.queue(cpu);
        self.note_load(cpu, time, queue.load())?;
        if time <= scale.to {
            for curve in self.curves.iter_mut() {
                if let Some(lag) = queue.lag_of(curve.task) {
                    curve.add(Point { time, lag }, &scale)?;
                }
            }
        }
        Ok(())
    }

    /// Notes the load of a CPU where it has changed.
    fn note_load(&mut self, cpu: CpuId, time: u64, load: u64) -> Result<(), AllocError> {
        let at = cpu.index();
        if at < self.last_loads.len() && self.last_loads[at] != load {
            self.last_loads[at] = load;
            self.loads.push(Load { cpu, time, load })?;
        }
        Ok(())
    }
}

/// Looks at a deed's CPU after it, and before it where time has gone by since the last look; after a pull at its source too.
impl Observer for Lags {
    fn begin(&mut self, solo: &Solo) -> Result<(), AllocError> {
        for cpu in 0..self.looked.len().min(CpuId::COUNT) {
            self.look(solo, CpuId::numbered(cpu), 0)?;
        }
        Ok(())
    }

    fn before_deed(&mut self, solo: &Solo, moment: &Moment) -> Result<(), AllocError> {
        let cpu = moment.line.deed.cpu();
        if self.looked.get(cpu.index()).copied().flatten() != Some(moment.begin) {
            self.look(solo, cpu, moment.begin)?;
        }
        self.note_before(solo, cpu)?;
        self.running = running_on(solo, cpu);
        Ok(())
    }

    fn after_deed(
        &mut self,
        solo: &Solo,
        moment: &Moment,
        _place: usize,
    ) -> Result<(), AllocError> {
        if self.notes != Notes::Nothing {
            let after = after_of(solo, moment, self.running);
            self.after.push(after)?;
        }
        self.look(solo, moment.line.deed.cpu(), moment.end)?;
        if let Deed::Pull { source, .. } = moment.line.deed {
            self.look(solo, source, moment.other)?;
        }
        Ok(())
    }

    fn end(&mut self) {}
}

impl Curve {
    fn add(&mut self, point: Point, scale: &Scale) -> Result<(), AllocError> {
        if point.time < scale.from {
            self.note_before(point);
            return Ok(());
        }
        let count = self.points.len();
        if count > 0 && !is_after(self.points[count - 1], point) {
            return Ok(());
        }
        if count >= 4 && column(self.points[count - 4], scale) == column(point, scale) {
            self.narrow(point);
            Ok(())
        } else {
            self.points.push(point)?;
            Ok(())
        }
    }

    /// Notes a lag before the time that is drawn, where it isn't earlier than the last one.
    fn note_before(&mut self, point: Point) {
        let last = self.before.map_or(0, |last| last.time);
        if last <= point.time && self.points.is_empty() {
            self.before = Some(point);
        }
    }

    /// Makes the first, the least, the greatest and the last of the last four points and one more.
    fn narrow(&mut self, point: Point) {
        let count = self.points.len();
        if count < 4 {
            return;
        }
        let second = self.points[count - 3];
        let third = self.points[count - 2];
        let fourth = self.points[count - 1];
        let least = lesser(lesser(second, third), fourth);
        let greatest = greater(greater(second, third), fourth);
        let is_falling = greatest.time < least.time;
        self.points[count - 3] = if is_falling { greatest } else { least };
        self.points[count - 2] = if is_falling { least } else { greatest };
        self.points[count - 1] = point;
        self.thinned = true;
    }

    /// The lag with which the time that is drawn begins.
    pub fn first(&self) -> Option<Point> {
        match self.before {
            None => self.points.first().copied(),
            before => before,
        }
    }

    /// The greatest distance of a lag from 0, at least 1.
    pub fn height(&self) -> u64 {
        let mut height = self
            .before
            .map_or(1, |point| point.lag.unsigned_abs().max(1));
        for point in &self.points {
            height = point.lag.unsigned_abs().max(height);
        }
        height
    }
}

fn running_on(solo: &Solo, cpu: CpuId) -> Option<TaskId> {
    if solo.has_cpu(cpu) {
        solo.queue(cpu).running()
    } else {
        None
    }
}

/// The lag of the task that runs on a CPU.
fn lag_of_running(solo: &Solo, cpu: CpuId) -> Option<i64> {
    let task = running_on(solo, cpu)?;
    if solo.has_cpu(cpu) {
        solo.queue(cpu).lag_of(task)
    } else {
        None
    }
}

/// What is known after a deed, before which this task ran on its CPU.
fn after_of(solo: &Solo, moment: &Moment, running: Option<TaskId>) -> After {
    match task_of(moment, running) {
        None => After {
            task: None,
            lag: None,
        },
        Some(task) => After {
            task: Some(task),
            lag: lag_after(solo, moment, task),
        },
    }
}

fn lag_after(solo: &Solo, moment: &Moment, task: TaskId) -> Option<i64> {
    if let Answer::Slept(lag) = moment.line.answer {
        return Some(lag);
    }
    let cpu = moment.line.deed.cpu();
    if solo.has_cpu(cpu) {
        solo.queue(cpu).lag_of(task)
    } else {
        None
    }
}

/// Whether a point says something that the one before it doesn't, and isn't earlier.
fn is_after(last: Point, point: Point) -> bool {
    point.time >= last.time && point != last
}

fn column(point: Point, scale: &Scale) -> u64 {
    part(
        point.time.saturating_sub(scale.from),
        COLUMNS,
        scale.length(),
    )
}

/// The one of lesser lag.
fn lesser(one: Point, other: Point) -> Point {
    if other.lag < one.lag { other } else { one }
}

/// The one of greater lag.
fn greater(one: Point, other: Point) -> Point {
    if other.lag > one.lag { other } else { one }
}
