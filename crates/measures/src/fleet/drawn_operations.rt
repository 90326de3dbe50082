ghost use Rattle.std.specs.Prelude.{◌≢◌, ◌<◌, ◌≤◌};

use crate::fleet::asked_run::AskedRun;
use crate::fleet::mix::Mix;
use drawn_values::Draws;
use eevdf_ops::{Answer, CpuId, Op};
use eevdf_queue::TaskId;

/// The operations of a thread, drawn one after the other. They hang on the thread's number and on the answers.
#[derive(Drop)]
pub struct DrawnOperations {
    draws: Draws,
    mix: Mix,
    cpus: usize,
    tasks: usize,
    // a task that has begun, and that a post is to wake; whether it is given another level and slice first
    coming: Option<TaskId>,
    is_to_set: bool,
    ghost cpus_some: { 0 < cpus },
    ghost cpus_few: { cpus ≤ 64 },
    ghost tasks_some: { 0 < tasks },
    ghost tasks_few: { tasks ≤ 1024 },
}

impl DrawnOperations {
    /// Those of the thread of this number.
    pub fn new(run: &AskedRun, thread: usize) -> DrawnOperations
        requires { thread < 64 }
    {
        DrawnOperations {
            draws: Draws::new(run.seed, thread as u64 + 1),
            mix: run.mix,
            cpus: run.cpus(),
            tasks: run.tasks,
            coming: None,
            is_to_set: false,
        }
    }

    /// The next operation, on a CPU with this running task.
    #[inline(always)]
    pub fn next(&mut self, cpu: CpuId, running: Option<TaskId>) -> Op {
        let kind = self.draws.below(16);
        match self.mix {
            Mix::Own => self.own(kind < 8),
            Mix::Wakes => self.waking(kind, running),
            Mix::Pulls => self.pulling(kind, cpu, running),
            Mix::Comes => self.coming_and_going(kind, cpu, running),
            Mix::All => self.any(kind, cpu, running),
        }
    }

    fn own(&mut self, ticks: bool) -> Op {
        if ticks {
            Op::Tick(self.draws.tick())
        } else {
            Op::Pick
        }
    }

    fn request(&mut self, posts: bool) -> Op {
        if posts {
            Op::Post(self.task())
        } else {
            Op::Drain
        }
    }

    /// There are more drains than posts, so that the requests don't pile up.
    fn waking(&mut self, kind: u64, running: Option<TaskId>) -> Op {
        match kind {
            0..7 => self.request(kind >= 4),
            7 => running.map_or(Op::Pick, |task| Op::Sleep(task)),
            _ => self.own(kind < 12),
        }
    }

    /// Without the new levels the loads would soon be level, and no pull would move a task.
    fn pulling(&mut self, kind: u64, cpu: CpuId, running: Option<TaskId>) -> Op {
        match (kind, running) {
            (0..2, _) if 1 < self.cpus => Op::Pull(self.other_cpu(cpu)),
            (2, Some(task)) => Op::Renice(task, self.draws.nice()),
            _ => self.own(kind < 9),
        }
    }

    /// As many tasks come as go: of those that begin and are woken, half are runnable already. There are more drains than posts.
    fn coming_and_going(&mut self, kind: u64, cpu: CpuId, running: Option<TaskId>) -> Op {
        match kind {
            0..4 => self.next_of_coming(cpu),
            4..7 => Op::Drain,
            7 => running.map_or(Op::Pick, |task| Op::End(task)),
            _ => self.own(kind < 12),
        }
    }

    /// A task begins, one in ten is given another level and slice, and a post wakes it.
    fn next_of_coming(&mut self, cpu: CpuId) -> Op {
        let Some(task) = self.coming else {
            return self.begin(cpu);
        };
        if !self.is_to_set {
            self.coming = None;
            return Op::Post(task);
        }
        if !self.is_home(task, cpu) {
            return Op::Pick;
        }
        self.is_to_set = false;
        Op::Set(task, self.draws.nice(), self.draws.slice())
    }

    fn begin(&mut self, cpu: CpuId) -> Op {
        let task = self.task_at(cpu);
        self.coming = Some(task);
        self.is_to_set = self.draws.below(10) == 0;
        Op::Begin(task, self.draws.nice(), self.draws.slice())
    }

    /// Whether a task has its home at the CPU, as `drawn_setup` has it: all CPUs have tasks in turn.
    fn is_home(&self, task: TaskId, cpu: CpuId) -> bool {
        task.get() % self.cpus as u64 == cpu.get()
    }

    /// One of the tasks whose home is the CPU.
    fn task_at(&mut self, cpu: CpuId) -> TaskId {
        let drawn = self.task();
        let first = drawn.get().saturating_sub(drawn.get() % self.cpus as u64);
        TaskId::new(first + cpu.get()).unwrap_or(drawn)
    }

    /// There are more posts than sleeps, since most of them find their task awake.
    fn any(&mut self, kind: u64, cpu: CpuId, running: Option<TaskId>) -> Op {
        match kind {
            0 => Op::Yield,
            1 => Op::Sleep(running.unwrap_or(self.task())),
            2 => Op::Sleep(self.task()),
            3 => Op::Renice(running.unwrap_or(self.task()), self.draws.nice()),
            4 => Op::Renice(self.task(), self.draws.nice()),
            5..10 => self.request(kind < 8),
            10..12 if 1 < self.cpus => Op::Pull(self.other_cpu(cpu)),
            _ => self.own(kind < 13),
        }
    }

    /// One of the tasks.
    fn task(&mut self) -> TaskId {
        self.draws.task(self.tasks as u64)
    }

    /// One of the CPUs other than this one.
    fn other_cpu(&mut self, cpu: CpuId) -> CpuId
        requires { 1 < self.old.cpus }
        ensures { result ≢ cpu }
    {
        let number = self.draws.below(self.cpus as u64 - 1);
        let other = if number < cpu.get() {
            number
        } else {
            number + 1
        };
        CpuId::new(other).unwrap()
    }
}

/// The task that runs on a CPU after an answer.
pub fn running_after(running: Option<TaskId>, answer: Answer) -> Option<TaskId> {
    match answer {
        Answer::Picked(task) => Some(task),
        Answer::Slept(_) | Answer::Ended => None,
        _ => running,
    }
}
