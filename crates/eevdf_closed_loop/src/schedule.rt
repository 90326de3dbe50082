//! Which deed comes next, and what is learned of its answer.

ghost use Rattle.std.specs.Prelude.{◌≤◌};

use crate::actor::{Actor, Condition};
use crate::arrivals::Comers;
use crate::opening::{actors_of, processors_of};
use crate::plan::{Plan, Preempt};
use crate::processor::{NEVER, Picks, Processor};
use crate::resumes::Resumes;
use crate::stop::Stop;
use eevdf_ops::{Answer, CpuId, Deed, Line, Setup, Solo};
use eevdf_queue::TaskId;
use eevdf_weight::Ns;
use std::alloc::{AllocError, Global};

/// The tasks with their phases, and the CPUs. `now` is the moment of the clock.
#[derive(Drop)]
pub(crate) struct Schedule {
    pub plan: Plan,
    pub actors: Vec<Actor>,
    pub processors: Vec<Processor>,
    /// The suspended tasks and the kept resumes of each group.
    pub resumes: Vec<Resumes>,
    /// The arrivals and the free numbers of each group.
    pub comers: Vec<Comers>,
    /// The least moment until which a task sleeps, and the place of the first such task.
    pub wakes_at: u64,
    pub wakes: usize,
    /// How many tasks sleep until a moment.
    pub sleepers: usize,
    /// The least moment at which a task that arrives begins, and the first group of which one does then.
    pub arrives_at: u64,
    pub arrives: usize,
}

impl Schedule {
    /// The tasks and CPUs of a plan at the start.
    pub fn open(alloc: Global, setup: &Setup, plan: Plan) -> Result<Schedule, AllocError> {
        let actors = actors_of(alloc, setup, &plan)?;
        let processors = processors_of(alloc, setup, plan.tick)?;
        let mut resumes = Vec::with_capacity(alloc, plan.groups.len())?;
        let mut comers = Vec::with_capacity(alloc, plan.groups.len())?;
        for (place, group) in plan.groups.iter().enumerate() {
            resumes.push(Resumes::at_start())?;
            comers.push(Comers::at_start(group, place, plan.seed))?;
        }
        let mut schedule = Schedule {
            plan,
            actors,
            processors,
            resumes,
            comers,
            wakes_at: NEVER,
            wakes: 0,
            sleepers: 0,
            arrives_at: NEVER,
            arrives: 0,
        };
        schedule.count_sleepers();
        schedule.find_sleeper();
        schedule.find_arrival();
        Ok(schedule)
    }

    /// What the machine is to do.
    pub fn plan(&self) -> &Plan {
        &self.plan
    }

    /// The moment at which the task of a number arrived, or at which it begins where none arrives.
    pub fn arrived(&self, task: TaskId) -> Option<u64> {
        Some(self.actors.get(task.index())?.arrived)
    }

    /// How many periods of timers the tasks of a number have missed.
    pub fn missed(&self, task: TaskId) -> Option<u64> {
        Some(self.actors.get(task.index())?.missed)
    }

    /// How many tasks of a group are suspended.
    pub fn suspended(&self, group: usize) -> Option<usize> {
        Some(self.resumes.get(group)?.suspended.count())
    }

    /// Up to which moment time has been charged on a CPU.
    pub fn charged(&self, cpu: CpuId) -> Option<u64> {
        Some(self.processors.get(cpu.index())?.charged)
    }

    /// The next moment from now on at which something happens, and the deed or why there is none. The second is `None` where none comes of
    /// that moment.
    pub fn next(&mut self, machine: &Solo, now: u64) -> (u64, Result<Option<Deed>, Stop>)
        ensures clock { now ≤ result.0 }
    {
        let (place, moment) = self.first_processor();
        let first = moment.min(self.wakes_at).min(self.arrives_at);
        if first >= self.plan.lasts {
            let now = now.max(self.plan.lasts);
            return (now, self.last_charge(now));
        }
        let now = now.max(first);
        if self.wakes_at <= now {
            return (now, self.wake_up(now));
        }
        if self.arrives_at <= now {
            return (now, self.begin(now).map(Some).ok_or(Stop::OtherSetup));
        }
        let deed = self.turn(machine, place, now);
        if let Ok(None) = deed {
            self.plan_next(machine, place, now);
        }
        (now, deed)
    }

    /// The place of the first CPU of those that do something next, and when it does it.
    fn first_processor(&self) -> (usize, u64) {
        let mut first = (0, NEVER);
        for (place, processor) in self.processors.iter().enumerate() {
            if processor.next < first.1 {
                first = (place, processor.next);
            }
        }
        first
    }

    /// What charges the time up to the end, CPU by CPU.
    fn last_charge(&mut self, now: u64) -> Result<Option<Deed>, Stop> {
        for place in 0..self.processors.len() {
            if let Some(deed) = self.charge(place, now) {
                return Ok(Some(deed));
            }
        }
        Err(Stop::Ended)
    }

    /// What charges a CPU the time up to now, unless it is charged.
    pub fn charge(&self, place: usize, now: u64) -> Option<Deed> {
        let processor = self.processors.get(place)?;
        let since = now.saturating_sub(processor.charged);
        let ns = Ns::new(since.min(Ns::MAX.get()))?;
        Some(Deed::Tick {
            cpu: processor.id,
            ns,
        })
    }

    /// Wakes the task that sleeps until now, when its home is charged.
    fn wake_up(&mut self, now: u64) -> Result<Option<Deed>, Stop> {
        let home = self.actors.get(self.wakes).ok_or(Stop::OtherSetup)?.home;
        if let Some(deed) = self.charge(home.index(), now) {
            return Ok(Some(deed));
        }
        let actor = self.actors.get_mut(self.wakes).ok_or(Stop::OtherSetup)?;
        actor.condition = Condition::Runnable;
        let task = actor.id;
        self.sleepers = self.sleepers.saturating_sub(1);
        self.find_sleeper();
        Ok(Some(Deed::Wake {
            cpu: home,
            task,
            sender: home,
        }))
    }

    /// Counts the tasks that sleep until a moment.
    fn count_sleepers(&mut self) {
        self.sleepers = 0;
        for actor in self.actors.iter() {
            if let Condition::Until(_) = actor.condition {
                self.sleepers = self.sleepers.saturating_add(1);
            }
        }
    }

    /// Looks for the first of the tasks that sleep until the least moment.
    fn find_sleeper(&mut self) {
        self.wakes_at = NEVER;
        if self.sleepers == 0 {
            return;
        }
        for (place, actor) in self.actors.iter().enumerate() {
            if let Condition::Until(moment) = actor.condition {
                if moment < self.wakes_at {
                    self.wakes_at = moment;
                    self.wakes = place;
                }
            }
        }
    }

    /// A task sleeps until a moment.
    pub fn sleeps_until(&mut self, place: usize, moment: u64) {
        self.sleepers = self.sleepers.saturating_add(1);
        let is_first = moment == self.wakes_at && place < self.wakes;
        if moment < self.wakes_at || is_first {
            self.wakes_at = moment;
            self.wakes = place;
        }
    }

    /// Learns what a deed was answered, and why the machine is driven no further, where that ends it.
    pub fn learn(&mut self, machine: &Solo, line: &Line, now: u64) -> Option<Stop> {
        let place = line.deed.cpu().index();
        let deed = line.deed;
        let answer = line.answer;
        let is_expected = match deed {
            Deed::Tick { ns, .. } => self.has_ticked(machine, place, ns.get(), answer),
            Deed::Pick { .. } => self.has_picked(place, answer, now),
            Deed::Wake { .. } => self.has_woken(machine, place, answer, now),
            Deed::Pull { source, .. } => {
                self.has_pulled(place, answer);
                self.plan_next(machine, source.index(), now);
                true
            }
            _ => is_of_phase(answer),
        };
        self.plan_next(machine, place, now);
        if is_expected {
            None
        } else if answer == Answer::Range {
            Some(Stop::Range)
        } else {
            Some(Stop::Unexpected(*line))
        }
    }

    /// Time has been charged.
    fn has_ticked(&mut self, machine: &Solo, place: usize, ns: u64, answer: Answer) -> bool {
        match answer {
            Answer::Charged { resched, .. } => self.has_run(machine, place, ns, resched),
            Answer::Idle => self.has_idled(place, ns),
            _ => return false,
        }
        true
    }

    /// The running task has been charged so much, and may have used up its request.
    fn has_run(&mut self, machine: &Solo, place: usize, ns: u64, resched: bool) {
        let others = self.has_others(machine, place);
        let Some(processor) = self.processors.get_mut(place) else {
            return;
        };
        processor.charged = processor.charged.saturating_add(ns);
        if resched && others {
            processor.pick_soon();
        }
        let Some(running) = processor.running else {
            return;
        };
        if let Some(actor) = self.actors.get_mut(running) {
            actor.left = actor.left.saturating_sub(ns);
        }
    }

    /// So much time has gone by without a running task.
    fn has_idled(&mut self, place: usize, ns: u64) {
        if let Some(processor) = self.processors.get_mut(place) {
            processor.charged = processor.charged.saturating_add(ns);
        }
    }

    /// A CPU has picked.
    fn has_picked(&mut self, place: usize, answer: Answer, now: u64) -> bool {
        match answer {
            Answer::Picked(task) => self.has_next(place, task, now),
            Answer::Idle => self.has_none(place),
            _ => return false,
        }
        true
    }

    /// A task has been picked.
    fn has_next(&mut self, place: usize, task: TaskId, now: u64) {
        let Some(processor) = self.processors.get_mut(place) else {
            return;
        };
        processor.running = Some(task.index());
        processor.picks = Picks::No;
        processor.is_woken = false;
        processor.tick_after(now, self.plan.tick);
    }

    /// There was nobody to pick.
    fn has_none(&mut self, place: usize) {
        if let Some(processor) = self.processors.get_mut(place) {
            processor.running = None;
            processor.picks = Picks::No;
            processor.is_woken = false;
            processor.looked = 0;
        }
    }

    /// A CPU has pulled. A task that it got from another one is to be picked.
    fn has_pulled(&mut self, place: usize, answer: Answer) {
        if let Answer::Pulled(_) = answer {
            if let Some(processor) = self.processors.get_mut(place) {
                processor.picks = Picks::Now;
            }
        }
    }

    /// A task has woken. Where it is not alone there, the CPUs that have nothing to run look for work again.
    fn has_woken(&mut self, machine: &Solo, place: usize, answer: Answer, now: u64) -> bool {
        if answer != Answer::Woken {
            return false;
        }
        let preempt = self.plan.preempt;
        if let Some(processor) = self.processors.get_mut(place) {
            processor.is_woken = true;
            if processor.running.is_none() || preempt == Preempt::Wakeup {
                processor.pick_soon();
            }
        }
        if self.plan.pull && self.has_others(machine, place) {
            self.look_again(now);
        }
        true
    }

    /// Each CPU that has nothing to run looks for work again.
    fn look_again(&mut self, now: u64) {
        for processor in self.processors.iter_mut() {
            if processor.running.is_none() && processor.picks == Picks::No {
                processor.looked = 0;
                processor.next = now;
            }
        }
    }
}

/// Whether a deed that a phase or an arrival is has been done.
fn is_of_phase(answer: Answer) -> bool {
    matches!(
        answer,
        Answer::Slept(_) | Answer::Yielded | Answer::Reniced | Answer::Ended | Answer::Begun
    )
}
