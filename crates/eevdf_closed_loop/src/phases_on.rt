//! How a running task goes on from phase to phase.

use crate::actor::Condition;
use crate::phase::{Phase, Span};
use crate::processor::Picks;
use crate::schedule::Schedule;
use crate::stop::Stop;
use eevdf_ops::{CpuId, Deed};
use eevdf_queue::TaskId;

/// So many phases that take no time may follow one another.
const MOST_PHASES: usize = 100_000;

/// What a phase comes to.
#[derive(Clone, Copy)]
enum Step {
    /// The deed that it is.
    Done(Deed),
    /// The task runs, for a time that isn't over.
    Runs,
    /// It took no time, and the next phase comes.
    Next,
}

impl Schedule {
    /// The deed of the task that runs on a CPU, where it has run for as long as it had to. `None` where it runs on.
    pub fn go_on(&mut self, place: usize, running: usize, now: u64) -> Result<Option<Deed>, Stop> {
        for _phase in 0..MOST_PHASES {
            match self
                .go_on_once(place, running, now)
                .ok_or(Stop::OtherSetup)?
            {
                Step::Done(deed) => return Ok(Some(deed)),
                Step::Runs => return Ok(None),
                Step::Next => {}
            }
        }
        Err(Stop::Endless(running))
    }

    /// What the next phase of the running task comes to. `None` where the plan has no such task, CPU, group or phase.
    fn go_on_once(&mut self, place: usize, running: usize, now: u64) -> Option<Step> {
        if self.actors.get(running)?.left > 0 {
            return Some(Step::Runs);
        }
        let cpu = self.processors.get(place)?.id;
        match self.next_phase(running)? {
            Phase::Run(span) => self.run(running, span),
            Phase::Sleep(span) => self.sleep(cpu, running, span, now),
            Phase::Timer(period) => self.wait_for_timer(cpu, running, period, now),
            Phase::Suspend => self.suspend(cpu, running),
            Phase::Resume(group) => self.resume(cpu, running, group, now),
            Phase::Yield => self.pick_after(cpu, running, Deed::Yield { cpu }),
            Phase::Nice(nice) => {
                let task = self.actors.get(running)?.id;
                self.pick_after(cpu, running, Deed::Renice { cpu, task, nice })
            }
            Phase::Again {
                first,
                depth,
                rounds,
            } => {
                self.actors.get_mut(running)?.go_again(first, depth, rounds);
                Some(Step::Next)
            }
            Phase::End => self.end(cpu, running),
        }
    }

    /// The next phase of a task: the first one again after the last.
    fn next_phase(&mut self, running: usize) -> Option<Phase> {
        let actor = self.actors.get_mut(running)?;
        let phases = &self.plan.groups.get(actor.group)?.phases;
        if actor.at >= phases.len() {
            actor.at = 0;
        }
        phases.get(actor.at).copied()
    }

    /// The running task is to run for a time.
    fn run(&mut self, running: usize, span: Span) -> Option<Step> {
        let actor = self.actors.get_mut(running)?;
        actor.left = actor.draws.length(span);
        self.pass(running)
    }

    /// The running task sleeps for a time.
    fn sleep(&mut self, cpu: CpuId, running: usize, span: Span, now: u64) -> Option<Step> {
        let length = self.actors.get_mut(running)?.draws.length(span);
        let until = now.saturating_add(length);
        self.falls_asleep(cpu, running, Condition::Until(until))
    }

    /// The running task sleeps until the next moment of a timer.
    fn wait_for_timer(
        &mut self,
        cpu: CpuId,
        running: usize,
        period: u64,
        now: u64,
    ) -> Option<Step> {
        let until = self.actors.get_mut(running)?.comes_to_timer(now, period);
        self.falls_asleep(cpu, running, Condition::Until(until))
    }

    /// The running task does a deed after which its CPU picks before anything else.
    fn pick_after(&mut self, cpu: CpuId, running: usize, deed: Deed) -> Option<Step> {
        let _ = self.pass(running);
        self.processors.get_mut(cpu.index())?.picks = Picks::Now;
        Some(Step::Done(deed))
    }

    /// The running task ends.
    fn end(&mut self, cpu: CpuId, running: usize) -> Option<Step> {
        let actor = self.actors.get_mut(running)?;
        actor.condition = Condition::Ended;
        let task = actor.id;
        let group = actor.group;
        self.gives_back(running, group);
        self.processors.get_mut(cpu.index())?.loses_task();
        Some(Step::Done(Deed::End { cpu, task }))
    }

    /// The running task falls asleep, and has gone through the phase that says so. By which deed it does is seen to by `ClosedLoop`.
    fn falls_asleep(&mut self, cpu: CpuId, running: usize, condition: Condition) -> Option<Step> {
        let actor = self.actors.get_mut(running)?;
        actor.at = actor.at.saturating_add(1);
        actor.condition = condition;
        let task = actor.id;
        if let Condition::Until(moment) = condition {
            self.sleeps_until(running, moment);
        }
        self.processors.get_mut(cpu.index())?.loses_task();
        Some(Step::Done(Deed::Sleep { cpu, task }))
    }

    /// The running task is suspended, unless a resume of its group has been kept.
    fn suspend(&mut self, cpu: CpuId, running: usize) -> Option<Step> {
        let group = self.actors.get(running)?.group;
        let resumes = self.resumes.get_mut(group)?;
        if resumes.take() {
            return self.pass(running);
        }
        resumes.suspended.adds(running);
        self.falls_asleep(cpu, running, Condition::Suspended)
    }

    /// The running task resumes a task of a group, when the home of that one is charged.
    fn resume(&mut self, cpu: CpuId, running: usize, group: usize, now: u64) -> Option<Step> {
        let Some((resumed, task, home)) = self.suspended_of(group) else {
            self.resumes.get_mut(group)?.keep();
            return self.pass(running);
        };
        if let Some(deed) = self.charge(home.index(), now) {
            return Some(Step::Done(deed));
        }
        self.resumes.get_mut(group)?.suspended.loses_first(resumed);
        self.actors.get_mut(resumed)?.condition = Condition::Runnable;
        let _ = self.pass(running);
        Some(Step::Done(Deed::Wake {
            cpu: home,
            task,
            sender: cpu,
        }))
    }

    /// The suspended task of least number of a group: its place, its number and its home.
    fn suspended_of(&self, group: usize) -> Option<(usize, TaskId, CpuId)> {
        let first = self.resumes.get(group)?.suspended.first()?;
        let place = self.first_of(group, Condition::Suspended, first)?;
        let actor = self.actors.get(place)?;
        Some((place, actor.id, actor.home))
    }

    /// The place of the first task of a group, from a place on, that is in a condition.
    pub fn first_of(&self, group: usize, condition: Condition, from: usize) -> Option<usize> {
        for place in from..self.actors.len() {
            let actor = self.actors.get(place)?;
            if actor.group == group && actor.condition == condition {
                return Some(place);
            }
        }
        None
    }

    /// The task has gone through a phase that takes no time.
    fn pass(&mut self, running: usize) -> Option<Step> {
        let actor = self.actors.get_mut(running)?;
        actor.at = actor.at.saturating_add(1);
        Some(Step::Next)
    }
}
