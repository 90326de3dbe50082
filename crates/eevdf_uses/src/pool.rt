//! A pool of work: four threads, each a CPU, serve a million requests, each by a task of its own that begins, runs in steps, may sleep
//! until another task wakes it, and ends.
//!
//! A task that comes takes a number that sleeps at its home, from the home's part of the free numbers (`FreePart`). Whoever ends it gives
//! the number back, through the part of the CPU that it ended on. Requests come to every other CPU. Where none of a CPU's numbers can
//! begin, it hands the request to the next one. A task that falls asleep is given another level by its home, and is then there for others
//! to wake. A CPU with nothing to run looks for work on the others and picks next, and each rebases at the end of its day.
//!
//! Wakes come twice, and once more when their task has ended or another one has its number. So a number may wake though no task has it. The
//! threads begin, drain, pick and end by `LiveTasks`, which ends such a number before anybody is handed it.
//!
//! In the end all is counted (`counts.rt`): each task that came has ended or stands in one of the queues, each number is free or a task has
//! it, and no step was taken under a number that no task had.

ghost use Rattle.std.specs.Prelude.{◌≡◌};

mod counts;
mod lives;
mod pool_cpu;
mod task_list;

use crate::pool::lives::{Lives, Next};
use crate::pool::pool_cpu::{OnCpu, PoolCpu, home_index};
use crate::shared_work::{Running, Work, let_others_run};
pub use counts::{PoolCount, four_pool_cpus, served};
use eevdf_fleet::Names;
use eevdf_fleet::endless::Seat;
use eevdf_live_tasks::LiveTasks;
use eevdf_ops::{Answer, CpuId};
use eevdf_queue::TaskId;
use eevdf_weight::{Nice, Ns, Slice};
use std::sync::atomic::{AtomicU64, Ordering};
use std::sync::{Mutex, Wait};
use std::thread;

/// At most so many requests that were handed to a CPU wait there.
const MOST_HANDED: u64 = 32;

/// A turn takes a second on the clock of its CPU, and a task runs for a millisecond of it.
const STEP: u64 = 1_000_000;

const SECONDS_A_DAY: u64 = 86_400;

/// What the threads share.
#[derive(Drop)]
struct Pool {
    cpus: Vec<PoolCpu>,
    /// How many CPUs have come, each after those of lower numbers. One hands its requests to the next of these, and wakes the tasks of its
    /// home, and so none waits for one that may never come.
    come: AtomicU64,
    live: LiveTasks,
    lives: Lives,
}

impl Work for Pool {
    type Own = OnCpu;

    fn own(&self, cpu: CpuId) -> Option<&Mutex<OnCpu>> {
        Some(&self.cpus.get(cpu.index())?.own)
    }

    fn turn<N: Names, R: Wait>(
        running: &Running<'_, Pool, N, R>,
        seat: &mut Seat<N>,
        own: &mut OnCpu,
    ) -> bool {
        if !running.work.has_come(seat.cpu()) {
            thread::yield_now();
            return true;
        }
        running.pass_time(seat, own);
        running.drain(seat, own);
        running.accept(seat, own);
        running.accept(seat, own);
        running.set_fallen(seat);
        running.run_next(seat, own);
        !running.work.lives.have_all_come()
    }
}

impl Pool {
    /// Whether a request has come to the CPU or was handed to it, which is taken then.
    fn has_request(&self, cpu: CpuId) -> bool {
        let was_handed = match self.cpus.get(cpu.index()) {
            Some(shared) => took_one(&shared.handed),
            None => false,
        };
        was_handed || cpu.get() % 2 == 0
    }

    /// Whether a CPU has come. It comes by this where all of lower numbers have.
    fn has_come(&self, cpu: CpuId) -> bool {
        let come = self.come.load(Ordering::SeqCst);
        if cpu.get() == come {
            self.come.fetch_add(1, Ordering::SeqCst);
        }
        cpu.get() <= come
    }

    /// The next of the CPUs that have come.
    fn next(&self, cpu: CpuId) -> Option<&PoolCpu> {
        let next = cpu.get() + 1;
        if next < self.come.load(Ordering::SeqCst) {
            self.cpus.get(next as usize)
        } else {
            self.cpus.get(0)
        }
    }

    /// Hands a request to the next CPU. Where too many wait there, it is turned away.
    fn hand_on(&self, cpu: CpuId) {
        if let Some(next) = self.next(cpu)
            && next.handed.load(Ordering::SeqCst) < MOST_HANDED
        {
            next.handed.fetch_add(1, Ordering::SeqCst);
        }
    }
}

impl<'a, N: Names, R: Wait> Running<'a, Pool, N, R> {
    /// A second passes on the CPU's clock, and at the end of a day it rebases.
    fn pass_time(&self, seat: &mut Seat<N>, own: &mut OnCpu)
        ensures { seat.new.cpu ≡ seat.old.cpu }
    {
        own.turns = own.turns.saturating_add(1);
        if own.turns % SECONDS_A_DAY == 0 {
            let _ = self.fleet.rebase(self.rt, seat);
        }
        let_others_run(own.turns);
    }

    /// Takes the requests to wake that were posted to the CPU, and ends the numbers that woke without a task.
    fn drain(&self, seat: &mut Seat<N>, own: &mut OnCpu)
        ensures { seat.new.cpu ≡ seat.old.cpu }
    {
        own.wakes.clear();
        if self.fleet.cpus() <= own.wakes.capacity() {
            let live = &self.work.live;
            let _ = live.drain(self.rt, self.fleet, seat, &mut own.wakes);
        }
    }

    /// Begins a task for a request, where one has come to the CPU or was handed to it, or hands it to the next CPU.
    fn accept(&self, seat: &mut Seat<N>, own: &mut OnCpu)
        ensures { seat.new.cpu ≡ seat.old.cpu }
    {
        if !self.work.has_request(seat.cpu()) {
            return;
        }
        let (nice, slice) = (nice_of(own.turns), Slice::default());
        let live = &self.work.live;
        match live.begin(self.rt, self.fleet, seat, &mut own.free, nice, slice) {
            Some(task) => self.serve(seat, own, task),
            None => self.work.hand_on(seat.cpu()),
        }
    }

    /// Asks to wake the task that has begun, for the next request. Where no other one may come, the task ends.
    fn serve(&self, seat: &mut Seat<N>, own: &mut OnCpu, task: TaskId)
        ensures { seat.new.cpu ≡ seat.old.cpu }
    {
        match self.work.lives.next_request() {
            Some(request) => {
                self.work.lives.come(task, request);
                self.wake_own(seat, task);
            }
            None => {
                let live = &self.work.live;
                let _ = live.end(self.rt, self.fleet, seat, &mut own.free, task);
            }
        }
    }

    /// Asks to wake a task of this home. Where late wakes have filled the ring, another CPU wakes it.
    fn wake_own(&self, seat: &mut Seat<N>, task: TaskId)
        ensures { seat.new.cpu ≡ seat.old.cpu }
    {
        if !self.post(seat, task)
            && let Some(cpu) = self.work.cpus.get(seat.cpu().index())
        {
            cpu.waiting.add(self.rt, task);
        }
    }

    /// Asks to wake a task, and says whether there was room for that.
    fn post(&self, seat: &mut Seat<N>, task: TaskId) -> bool
        ensures { seat.new.cpu ≡ seat.old.cpu }
    {
        self.fleet.has_task(task) && seat.post(task).is_ok()
    }

    /// Gives a task that has fallen asleep another level, and lets others wake it.
    fn set_fallen(&self, seat: &mut Seat<N>)
        ensures { seat.new.cpu ≡ seat.old.cpu }
    {
        let (rt, fleet) = (self.rt, self.fleet);
        let Some(cpu) = self.work.cpus.get(seat.cpu().index()) else {
            return;
        };
        let Some(task) = cpu.fallen.take(rt) else {
            return;
        };
        if fleet.has_task(task) {
            let _ = fleet.set(rt, seat, task, Nice::default(), Slice::default());
        }
        cpu.waiting.add(rt, task);
    }

    /// Wakes a task, and lets the next one run for a step.
    fn run_next(&self, seat: &mut Seat<N>, own: &mut OnCpu)
        ensures { seat.new.cpu ≡ seat.old.cpu }
    {
        self.wake_other(seat, own);
        if let Some(task) = self.pick_or_pull(seat) {
            self.step(seat, own, task);
        }
    }

    /// Picks a task, and where there is none pulls one and picks it. A drain or a begin in between could let another one run, and the
    /// pulled task be pulled away before it has had a turn.
    fn pick_or_pull(&self, seat: &mut Seat<N>) -> Option<TaskId>
        ensures { seat.new.cpu ≡ seat.old.cpu }
    {
        let live = &self.work.live;
        if let Some(task) = live.pick(self.rt, self.fleet, seat) {
            return Some(task);
        }
        let _found = self.fleet.find_work(self.rt, seat)?;
        live.pick(self.rt, self.fleet, seat)
    }

    /// Asks to wake a task whose home is the next CPU, if one waits for it: twice, and then asks once more for one that it has woken some
    /// time ago, which has ended meanwhile or not.
    fn wake_other(&self, seat: &mut Seat<N>, own: &mut OnCpu)
        ensures { seat.new.cpu ≡ seat.old.cpu }
    {
        let Some(next) = self.work.next(seat.cpu()) else {
            return;
        };
        let Some(task) = next.waiting.take(self.rt) else {
            return;
        };
        if !self.post(seat, task) {
            next.waiting.add(self.rt, task);
            return;
        }
        self.post(seat, task);
        if let Some(former) = own.woken_before(task) {
            self.post(seat, former);
        }
    }

    /// A step of the task that runs: it is charged, and goes on, falls asleep or ends.
    fn step(&self, seat: &mut Seat<N>, own: &mut OnCpu, task: TaskId)
        ensures { seat.new.cpu ≡ seat.old.cpu }
    {
        let _ = self.fleet.tick(self.rt, seat, Ns::new(STEP).unwrap());
        match self.work.lives.after_step(task) {
            Next::GoOn => (),
            Next::Sleep => self.sleep(seat, task),
            Next::End => self.end(seat, own, task),
        }
    }

    /// Puts the task that runs to sleep, until another task wakes it.
    fn sleep(&self, seat: &mut Seat<N>, task: TaskId)
        ensures { seat.new.cpu ≡ seat.old.cpu }
    {
        let (rt, fleet) = (self.rt, self.fleet);
        if !fleet.has_task(task) {
            return;
        }
        if let Answer::Slept(_) = fleet.sleep(rt, seat, task)
            && let Some(home) = self.work.cpus.get(home_index(task))
        {
            home.fallen.add(rt, task);
        }
    }

    /// Ends the task that runs, and gives its number back.
    fn end(&self, seat: &mut Seat<N>, own: &mut OnCpu, task: TaskId)
        ensures { seat.new.cpu ≡ seat.old.cpu }
    {
        self.work.lives.go(task);
        let live = &self.work.live;
        let _ = live.end(self.rt, self.fleet, seat, &mut own.free, task);
    }
}

/// Takes one of what is counted, and says whether there was one. Nobody else takes any.
fn took_one(count: &AtomicU64) -> bool {
    let is_some = count.load(Ordering::SeqCst) > 0;
    if is_some {
        count.fetch_sub(1, Ordering::SeqCst);
    }
    is_some
}

/// The nice level of a task that comes in this turn of its CPU.
fn nice_of(turn: u64) -> Nice {
    let level = (turn % 40) as i64 - 20;
    Nice::new(level).unwrap_or_default()
}
