ghost use Rattle.std.specs.Prelude.{◌≡◌, ◌≤◌, ◌↔◌, ◌==◌, ◌||◌, unsigned_abs, IfSome, IsNone, true, false};
ghost use Rattle.std.specs.Bool.{FalseIff};
ghost use Rattle.std.specs.FinMap as map;
ghost use Rattle.eevdf_weight.specs.Limits as limits;
ghost use Rattle.eevdf_queue.specs.{State.empty_state, Sums.total_weight, Sums.virtual_time, Kept.IsKept, Laws.AreSumsSmall};
ghost use Rattle.eevdf_queue.specs.Leaving.{IsNowhere};
ghost use Rattle.eevdf_queue.specs.Candidate as candidates;
ghost use Rattle.eevdf_queue.specs.Doze as dozes;
ghost use Rattle.eevdf_queue.specs.Lag as lags;
ghost use Rattle.eevdf_queue.specs.Tick.{running_entry};

mod attributes;
mod closing;
mod dozing;
mod moves;
mod offer;
mod placing;
mod rebase;
mod renice;
mod slice;
mod tasks;
mod time_to_use_up;
mod tried_moves;
mod turns;

use crate::entry::Entry;
use crate::lag::kept_lag;
use crate::place::runtime_at;
use crate::sleeper::Sleeper;
use crate::sleepers::Sleepers;
use crate::task_id::TaskId;
use crate::tree::runnable_tasks::RunnableTasks;
use crate::tree::totals::time_over;
pub use offer::Offer;
use std::marker::Model;
pub use tasks::{Runnable, Sleeping};

/// The run queue of one CPU. It has 24688 bytes on x86-64, whatever it holds, and each of its tasks 152 more, in a node.
#[derive(Drop)]
pub struct Queue {
    runnable: RunnableTasks,
    asleep: Sleepers,
    /// What the rebases have answered, in all. After the base it would have 8 bytes of padding before it.
    shift: i128,
    base: i64,
    running: Option<TaskId>,
    /// How deep the node of the last pick stood. With 32 bits it would leave no room for the count, and a queue would have 16
    /// bytes more.
    pick_depth: u16,
    /// How many tasks sleep here.
    asleep_count: u16,
}

impl Model for Queue {
    ghost use Rattle.std.specs.{Ordering.nat_cmp, Prelude.◌≡◌};
    ghost use Rattle.std.specs.FinMap as finite;
    ghost use Rattle.eevdf_queue.specs.{State.View, Codes.view_code};

    ghost Value = { View };

    ghost coded = { view_code };

    ghost use Rattle.std.specs.Prelude.{true};
    ghost use Rattle.eevdf_queue.specs.{Kept.AreSound, Kept.NoneIsPastDue, Rebase.is_shift};

    ghost view = { λ a. record {
      state = record { runnable = a.runnable.tasks; running = a.running; asleep = a.asleep.tasks; base = a.base; places = a.asleep.places; shift = a.shift };
      pick_depth = a.pick_depth;
      depths = a.runnable.depths;
    } };

    ghost invariant = { λ a. AreSound a.runnable.tasks a.running a.asleep.tasks a.base
        × (a.asleep_count ≡ finite.len a.asleep.tasks)
        × (is_shift a.shift ≡ true)
        × NoneIsPastDue a.runnable.tasks };
}

impl Queue {
    /// A queue without tasks, at the virtual time 0. Takes no memory.
    pub fn open() -> Queue
        ensures { result ≡ record { state = empty_state; pick_depth = 0; depths = map.empty } }
    {
        Queue {
            runnable: RunnableTasks::new(),
            asleep: Sleepers::new(),
            shift: 0,
            base: 0,
            running: None,
            pick_depth: 0,
            asleep_count: 0,
        }
    }

    /// The number of runnable tasks.
    pub fn len(&self) -> usize
        ensures { result ≡ map.len self.now.state.runnable }
    {
        self.runnable.len()
    }

    /// Whether no task is runnable. Tasks may sleep here all the same.
    pub fn is_empty(&self) -> bool
        ensures { result ≡ (map.len self.now.state.runnable == 0) }
    {
        self.len() == 0
    }

    /// The sum of the weights of the runnable tasks.
    pub fn load(&self) -> u64
        ensures { result ≡ total_weight self.now.state.runnable }
    {
        self.runnable.totals().weight
    }

    /// The task that runs.
    pub fn running(&self) -> Option<TaskId>
        ensures { result ≡ self.now.state.running }
    {
        self.running
    }

    /// The entry of a task that is runnable here, and `None` of any other.
    pub fn entry(&self, task: TaskId) -> Option<Entry>
        ensures { result ≡ map.get self.now.state.runnable task }
    {
        self.runnable.look_up(task)
    }

    /// The entry of the task that runs, and `None` where nobody runs. It takes no search where that task was picked last.
    pub fn running_entry(&self) -> Option<Entry>
        ensures { result ≡ running_entry self.now.state }
    {
        match self.running {
            None => None,
            Some(task) => self.runnable.get(task),
        }
    }

    /// The virtual time: the weighted mean of the virtual runtimes, rounded down. Where nothing is runnable,
    /// the time that stands.
    pub fn floor_time(&self) -> i64
        ensures value { result ≡ virtual_time self.now.state }
        ensures in_range { limits.is_in_range result ≡ true }
    {
        time_over(&self.runnable.totals(), self.base)
    }

    /// The task that another CPU may pull: of the runnable tasks that don't run the one of latest virtual
    /// deadline, the greater number where deadlines are equal. `None` exactly where no task waits.
    #[tactic(auto, using(crate::proofs::Waiting::candidate_last, crate::proofs::Waiting::candidate_waits))]
    pub fn candidate(&self) -> Option<TaskId>
        ensures value { result
            ≡ candidates.candidate_of self.now.state.runnable self.now.state.running }
        ensures last { IfSome result
            (candidates.IsCandidate self.now.state.runnable self.now.state.running) }
        ensures waiting { IfSome result (λ t. (map.contains_key self.now.state.runnable t ≡ true)
            × (candidates.is_running self.now.state.running t ≡ false)) }
        ensures none { IsNone result
            ↔ candidates.NoneWaits self.now.state.runnable self.now.state.running }
    {
        self.runnable.candidate(self.running)
    }

    /// The lag that a runnable task would keep if it left now, the kept lag of a sleeping one, and `None` of
    /// any other.
    #[tactic(auto, using(crate::proofs::Bounds::range_v))]
    pub fn lag_of(&self, task: TaskId) -> Option<i64>
        ensures value { result ≡ lags.lag_of self.now.state task }
        ensures limited { IfSome result
            (λ lag. unsigned_abs lag ≤ lags.limit_at self.now.state task) }
    {
        self.runnable.keeps();
        self.asleep.keeps();
        match self.runnable.look_up(task) {
            Some(entry) => Some(kept_lag(self.floor_time(), &entry)),
            None => self.asleep.lag(task),
        }
    }

    /// The lag that a sleeping task keeps, and `None` of any other.
    pub(crate) fn kept_asleep(&self, task: TaskId) -> Option<i64>
        ensures { result ≡ lags.sleeping_lag (map.get self.now.state.asleep task) }
    {
        self.asleep.lag(task)
    }

    /// What is kept of a task that sleeps here, and `None` of any other.
    pub fn sleeper(&self, task: TaskId) -> Option<Sleeper>
        ensures value { result ≡ map.get self.now.state.asleep task }
        ensures limited { IfSome result (λ s. lags.is_lag s.lag s.nice s.slice ≡ true) }
    {
        self.asleep.keeps();
        self.asleep.get(task)
    }

    /// The place of a task that dozes here, in the virtual times of now: the virtual runtime at which it left, less what the
    /// rebases since have answered. `None` of any other.
    pub fn place_of(&self, task: TaskId) -> Option<i128>
        ensures { result ≡ dozes.place_of self.now.state task }
    {
        match self.asleep.place(task) {
            None => None,
            Some(place) => Some(runtime_at(place, self.shift)),
        }
    }

    /// Whether a task sleeps here.
    pub fn asleep(&self, task: TaskId) -> bool
        ensures { result ≡ map.contains_key self.now.state.asleep task }
    {
        self.asleep.contains(task)
    }

    /// Whether a task is here, runnable or asleep.
    pub fn contains(&self, task: TaskId) -> bool
        ensures value { result
            ≡ (map.contains_key self.now.state.runnable task
            || map.contains_key self.now.state.asleep task) }
        ensures absent { FalseIff result (IsNowhere self.now.state task) }
    {
        self.entry(task).is_some() || self.asleep(task)
    }

    /// The steps of the descent to the task that the last pick answered: how deep its node stood in the tree, where the
    /// root's depth is 1. They are `k` such that `2 ^ (k / 2) <= n + 1` with `n` tasks runnable at that pick. 0 where it
    /// answered none, and before the first pick.
    pub fn pick_steps(&self) -> u32
        ensures { result ≡ self.now.pick_depth }
    {
        u32::from(self.pick_depth)
    }

    /// Learns what every queue keeps.
    pub(crate) fn keeps(&self)
        ensures { IsKept self.now.state }
    {
        self.runnable.keeps();
        self.asleep.keeps();
        let _time = self.floor_time();
    }

    /// Learns how large the sums can be.
    pub(crate) fn sums_are_small(&self)
        ensures { AreSumsSmall self.now.state.runnable }
    {
        self.runnable.sums_are_small();
    }
}
