ghost use Rattle.std.specs.Prelude.{◌≡◌, ◌≤◌, length, true, IfOk, IfSome, IfNone, IsSome, None};
ghost use Rattle.eevdf_ops.specs.Setup.{cpus_of, homes_of};
ghost use Rattle.eevdf_ops.specs.Machine as machine;
ghost use Rattle.eevdf_ops.specs.Outcome.{machine_of};
ghost use Rattle.eevdf_closed_loop.specs.{Sleeps.is_by, Steps.IsStep};

use crate::plan::{FallAsleep, Plan};
use crate::schedule::Schedule;
use crate::sleeps::deed_by;
use crate::stop::Stop;
use eevdf_ops::{CpuId, Deed, Line, Setup, Solo};
use eevdf_queue::TaskId;
use std::alloc::{AllocError, Global};

/// How often what comes next is looked for before it is said that nothing does.
const MOST_LOOKS: usize = 1_000_000;

/// A machine and the tasks on it, each of which goes through its phases.
#[derive(Drop)]
pub struct ClosedLoop {
    /// The machine as the deeds so far have left it.
    pub machine: Solo,
    /// The moment up to which it has been driven, in nanoseconds.
    pub now: u64,
    /// Why it is driven no further, where it isn't.
    pub stop: Option<Stop>,
    /// By which deed tasks fall asleep.
    pub fall_asleep: FallAsleep,
    schedule: Schedule,
}

impl ClosedLoop {
    /// The machine of a setup at the start, with what its tasks are to do. The setup is the plan's, which `setup_of` makes; where it is
    /// another one, the machine may stop early. Fails only when out of memory.
    pub fn open(alloc: Global, setup: &Setup, plan: Plan) -> Result<ClosedLoop, AllocError>
        ensures homes { IfOk result (λ l. l.machine.homes ≡ homes_of setup.now) }
        ensures start { IfOk result (λ l. machine_of l.machine.queues ≡ machine.start setup.now) }
        ensures cpus { IfOk result (λ l. length l.machine.queues ≡ cpus_of setup.now) }
        ensures begins { IfOk result (λ l. l.now ≡ 0) }
        ensures fresh { IfOk result (λ l. l.stop ≡ None) }
        ensures asleep { IfOk result (λ l. l.fall_asleep ≡ plan.fall_asleep) }
    {
        let machine = Solo::open(alloc, setup)?;
        let fall_asleep = plan.fall_asleep;
        let schedule = Schedule::open(alloc, setup, plan)?;
        Ok(ClosedLoop {
            machine,
            now: 0,
            stop: None,
            fall_asleep,
            schedule,
        })
    }

    /// The next deed of the machine, with its answer: the machine allows it, and it is done as `Solo::apply` does it. `None`, with the
    /// machine unchanged, where it is driven no further: from then on `stop` says why, and each further step answers `None`. The clock
    /// never goes back. Tasks fall asleep by the plan's deed, and by no other. It takes no memory.
    pub fn step(&mut self) -> Option<Line>
        ensures step { IfSome result (λ line. IsStep self.old.machine line self.new.machine) }
        ensures none { IfNone result (self.new.machine ≡ self.old.machine) }
        ensures stop { IfNone result (IsSome self.new.stop) }
        ensures stopped { IfSome self.old.stop (λ _. result ≡ None) }
        ensures same { IfSome self.old.stop (λ _. self.new.stop ≡ self.old.stop) }
        ensures clock { self.old.now ≤ self.new.now }
        ensures asleep { IfSome result (λ line. is_by self.old.fall_asleep line.deed ≡ true) }
        ensures deed { self.new.fall_asleep ≡ self.old.fall_asleep }
    {
        if self.stop.is_some() {
            return None;
        }
        match self.next_deed() {
            Ok(deed) => self.done(&deed),
            Err(stop) => {
                self.stop = Some(stop);
                None
            }
        }
    }

    /// The next deed, at whose moment the clock then is, or why there is none.
    fn next_deed(&mut self) -> Result<Deed, Stop>
        ensures machine { self.new.machine ≡ self.old.machine }
        ensures clock { self.old.now ≤ self.new.now }
        ensures asleep { IfOk result (λ deed. is_by self.old.fall_asleep deed ≡ true) }
        ensures deed { self.new.fall_asleep ≡ self.old.fall_asleep }
    {
        for _look in 0..MOST_LOOKS {
            let (now, deed) = self.schedule.next(&self.machine, self.now);
            self.now = now;
            if let Some(deed) = deed? {
                return Ok(deed_by(self.fall_asleep, deed));
            }
        }
        Err(Stop::Stuck)
    }

    /// Does a deed, where the machine allows it.
    fn done(&mut self, deed: &Deed) -> Option<Line>
        ensures step { IfSome result (λ line. IsStep self.old.machine line self.new.machine) }
        ensures none { IfNone result (self.new.machine ≡ self.old.machine) }
        ensures stop { IfNone result (IsSome self.new.stop) }
        ensures clock { self.new.now ≡ self.old.now }
        ensures asleep { IfSome result (λ line. line.deed ≡ deed.now) }
        ensures deed { self.new.fall_asleep ≡ self.old.fall_asleep }
    {
        match self.machine.try_apply(*deed) {
            Some(answer) => {
                let line = Line {
                    deed: *deed,
                    answer,
                };
                self.stop = self.schedule.learn(&self.machine, &line, self.now);
                Some(line)
            }
            None => {
                self.stop = Some(Stop::Refused(*deed));
                None
            }
        }
    }

    /// Up to which moment time has been charged on a CPU, in nanoseconds. `None` where the machine has no such CPU.
    pub fn charged(&self, cpu: CpuId) -> Option<u64> {
        self.schedule.charged(cpu)
    }

    /// The moment at which the task arrived that has a number, or had it as the last one: its begin comes then, or when a number is free.
    /// Where tasks don't arrive it is the moment at which it begins. `None` where the machine has no such task.
    pub fn arrived(&self, task: TaskId) -> Option<u64> {
        self.schedule.arrived(task)
    }

    /// How many periods of timers the task that has a number has missed, with those that had it before: at so many moments of a timer it had
    /// not come to it yet. `None` where the machine has no such task.
    pub fn missed(&self, task: TaskId) -> Option<u64> {
        self.schedule.missed(task)
    }

    /// How many tasks of the group at a place of the plan are suspended: they sleep until they are resumed. `None` where the plan has no
    /// such group.
    pub fn suspended(&self, group: usize) -> Option<usize> {
        self.schedule.suspended(group)
    }

    /// What the machine is to do.
    pub fn plan(&self) -> &Plan {
        self.schedule.plan()
    }
}
