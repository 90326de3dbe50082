ghost use Rattle.std.specs.Prelude.{◌≡◌, ◌<◌, nat_lt, true, is_none, length, Some, None, IfOk};
ghost use Rattle.std.specs.Prelude.{OnOk};
ghost use Rattle.eevdf_ops.specs.{Histories.AreHistory, Histories.IsOneThread, Machine.queue_at};
ghost use Rattle.eevdf_ops.specs.{Programs.deeds_of};
ghost use Rattle.eevdf_steps.specs.Counters as counters;
ghost use Rattle.eevdf_steps.specs.{Plan.IsSound, Plan.callers, Places.stands_at, Serial.IsSerial};
ghost use Rattle.eevdf_steps.specs.Players as player;
ghost use Rattle.eevdf_steps.specs.Playing as playing;
ghost use Rattle.eevdf_steps.specs.Plays as plays;

use crate::callers::Callers;
use crate::journal::Journal;
use crate::micro::Micro;
use crate::openings::{lines, no_requests, nothing_done};
use crate::place::Place;
use crate::plan::{Step, micro_of};
use crate::requests::Requests;
use crate::step_fault::StepFault;
use crate::work::Work;
use crate::work_steps::do_micro;
use eevdf_ops::laws::start_is_placed;
use eevdf_ops::{CpuId, Line, Outcome, Setup};
use eevdf_queue::{Queue, TaskId};
use std::alloc::{AllocError, Global};
use std::marker::Model;

/// The callers of a setup, each of whom does its program step by step as it is told.
#[derive(Drop)]
pub struct Player {
    callers: Callers,
    posts: Requests,
    found: Vec<Option<TaskId>>,
    work: Work,
    journal: Journal,
}

impl Model for Player {
    ghost use Rattle.eevdf_steps.specs.Players as player;
    ghost use Rattle.eevdf_steps.specs.Playing as playing;
    ghost use Rattle.eevdf_steps.specs.Recorded.{recorded};
    ghost use Rattle.std.specs.Coded.{codes};
    ghost use Rattle.eevdf_queue.specs.Codes.{state_code};

    ghost Value = { player.Player };

    ghost coded = { Prim.hlevel (codes, state_code) };

    ghost view = { λ a.
        playing.player_of a.callers a.posts a.found.items (recorded a.work a.journal) };

    ghost invariant = { λ a.
        playing.IsPlaying a.callers a.posts a.found.items (recorded a.work a.journal) };
}

impl Player {
    /// The callers of a setup, none of whom has done a step. It takes all the memory that they will ever need: room for as
    /// many lines as the programs have operations, and for each pair of CPUs for the requests that the one's program posts
    /// to the other.
    pub fn open(alloc: Global, setup: &Setup) -> Result<Player, AllocError>
        ensures { IfOk result (λ a. a ≡ player.player_start setup.now) }
    {
        start_is_placed(setup);
        let callers = Callers::open(alloc, setup)?;
        callers.keeps();
        let plan = callers.plan();
        let (posts, found) = no_requests(alloc, plan)?;
        let (work, journal) = nothing_done(alloc, setup, lines(plan))?;
        Ok(Player {
            callers,
            posts,
            found,
            work,
            journal,
        })
    }

    /// The micro-step that a caller does next: `None` exactly where it is done or there is no such caller.
    pub fn next(&self, caller: usize) -> Option<Micro>
        ensures { result ≡ player.next self.now caller }
    {
        let cpu = self.callers.cpu(caller)?;
        micro_of(self.callers.next(cpu))
    }

    /// The least caller whose next step nothing refuses: `None` exactly where all callers are done. Until then there
    /// is one, since every operation acquires its locks in ascending order of the CPUs.
    pub fn ready(&self) -> Option<usize>
        ensures ready { result ≡ player.ready self.now }
        ensures none { is_none result ≡ is_none (player.unfinished self.now) }
    {
        self.callers.keeps();
        self.callers.ready()
    }

    /// Whether the setup has a CPU: the condition of `holder` and `queue`.
    pub fn has_cpu(&self, cpu: CpuId) -> bool
        ensures { result ≡ nat_lt cpu (callers self.now.plan) }
    {
        cpu.index() < self.callers.plan().callers()
    }

    /// Whether the setup has a task: the condition of `place_of`.
    pub fn has_task(&self, task: TaskId) -> bool
        ensures { result ≡ nat_lt task (length self.now.plan.homes) }
    {
        task.index() < self.callers.plan().tasks()
    }

    /// Who holds the lock of a CPU of the setup: one caller at most (`laws::one_holder`).
    pub fn holder(&self, cpu: CpuId) -> Option<usize>
        requires { cpu < callers self.now.plan }
        ensures { result ≡ player.holder self.now cpu }
    {
        self.callers.holder(cpu).map(CpuId::index)
    }

    /// Where a task of the setup stands: the one place, since no task stands in two (`laws::every_task_in_one_place`).
    pub fn place_of(&self, task: TaskId) -> Place
        requires { task < length self.now.plan.homes }
        ensures { stands_at self.now.state.work task result ≡ true }
    {
        self.callers.keeps();
        match self.work.place_of(task) {
            Some(place) => place,
            None => unreachable!(),
        }
    }

    /// The queue of a CPU of the setup. While nobody holds its lock, it is that of the history: of the deeds committed so
    /// far, done one after the other as whole operations.
    pub fn queue(&self, cpu: CpuId) -> &Queue
        requires { cpu < callers self.now.plan }
        ensures queue { result.now.state ≡ player.queue_of self.now cpu }
        ensures free { player.holder self.now cpu ≡ None
            → result.now.state ≡ queue_at (player.machine_of_history self.now) cpu }
    {
        self.keeps();
        self.work.queue(cpu)
    }

    /// The deeds that were committed with their answers, in the order of the commits. Each answer is that of the deed done
    /// as a whole operation after those before it.
    pub fn history(&self) -> &[Line]
        ensures lines { result.now ≡ self.now.state.lines }
        ensures answers { AreHistory self.now.plan.homes self.now.plan.start result.now }
    {
        self.keeps();
        self.journal.lines()
    }

    /// Does the next step of a caller, where nothing refuses it. A refusal changes nothing. It takes no memory.
    #[tactic(auto, using(std::proofs::lemmas::Grind::common_steps))]
    pub fn step(&mut self, caller: usize) -> Result<(), StepFault>
        ensures step { player.IsStep self.old caller result self.new }
        ensures commits { OnOk result (player.Appends self.old caller self.new) }
    {
        let cpu = self.callers.cpu(caller).ok_or(StepFault::NoCaller)?;
        match self.callers.free_step(cpu) {
            Ok(step) => {
                self.do_step(cpu, step);
                Ok(())
            }
            Err(fault) => Err(fault),
        }
    }

    /// Learns what is kept of the queues and of what the callers hold.
    pub(crate) fn keeps(&self)
        ensures work { playing.IsWork self.now.plan self.now.state.work }
        ensures serial { IsSerial self.now.plan self.now.plan.start
            self.now.state.progress.counters self.now.state.work self.now.state.lines }
        ensures sound { IsSound self.now.plan }
        ensures each { length self.now.state.progress.counters ≡ callers self.now.plan }
    {
        self.callers.keeps();
        let _ = &self.work;
    }

    /// The least caller that isn't done.
    pub(crate) fn unfinished(&self) -> Option<usize>
        ensures { result ≡ player.unfinished self.now }
    {
        self.callers.unfinished()
    }

    /// What the steps have come to, with the requests that are left, where every caller is done. Else the player
    /// comes back as it was. It takes no memory.
    pub fn outcome(self) -> Result<Outcome, Player>
        ensures end { plays.IsEnd self result }
        ensures history { IfOk result (λ o.
            IsOneThread self.plan.homes self.plan.start (deeds_of self.state.lines) o) }
    {
        if self.unfinished().is_some() {
            return Err(self);
        }
        Ok(self.into_outcome())
    }

    /// What the steps have come to, with the requests that are left. It takes no memory.
    pub(crate) fn into_outcome(self) -> Outcome
        ensures outcome { plays.IsOutcome self result }
        ensures sound { IsSound self.plan }
        ensures history { player.unfinished self ≡ None
            → IsOneThread self.plan.homes self.plan.start (deeds_of self.state.lines) result }
    {
        self.keeps();
        let Player {
            callers: _,
            posts,
            found: _,
            work,
            journal,
        } = self;
        Outcome::of(journal.into_lines(), work.into_queues(), posts.into_left())
    }

    fn do_step(&mut self, cpu: CpuId, step: Step)
        requires next { counters.step_next self.old.plan self.old.state.progress.counters cpu
            ≡ Some step }
        requires free { counters.refused self.old.plan self.old.state.progress.counters step.micro
            ≡ None }
        ensures step { self.new ≡ player.player_step self.old cpu }
        ensures commits { player.Appends self.old cpu self.new }
    {
        self.callers.keeps();
        do_micro(
            &mut self.work,
            &mut self.journal,
            &mut self.posts,
            &mut self.found[cpu.index()],
            self.callers.plan(),
            cpu,
            &step,
        );
        self.callers.advance(cpu, step);
    }
}
