//! CPUs that wait for interrupts, and tasks that park, begin and end, so that no wake is lost and no CPU idles beside a crowded one: one
//! that has two tasks or more.
//!
//! Before it waits a CPU says whether it idles, which is its flag, or its task runs on. By that others know whether to send it an interrupt
//! (`cpus.rt`). A wake that comes while its task is awake leaves a token, which the task's next park takes (`parks.rt`). docs/fleets.md has
//! the rules, and says why nothing is lost by them. No contract does, since what the CPUs say and the tokens are the caller's.
//!
//! It is tested by the run: in each round the CPUs put units of work down for tasks, and unpark these or let them begin (`LiveTasks`). A
//! task that has taken its unit works until the next round, and then parks or ends. When all CPUs wait it is counted what is left undone
//! (`rounds.rt`).

ghost use Rattle.std.specs.Prelude.{◌≡◌};

mod counts;
mod cpus;
mod parks;
mod rounds;
mod tasks;

use crate::finding_work::find_work;
use crate::parking::cpus::WaitingCpu;
use crate::parking::rounds::Rounds;
use crate::parking::tasks::Desks;
use crate::shared_work::{Running, Work};
pub use counts::{ParkingCount, four_cpus, units_served};
use eevdf_fleet::endless::Seat;
use eevdf_fleet::{DrainedWake, Names};
use eevdf_free_tasks::FreePart;
use eevdf_live_tasks::LiveTasks;
use eevdf_ops::{Answer, CpuId};
use eevdf_queue::TaskId;
use eevdf_weight::{Nice, Ns, Slice};
use std::sync::{Mutex, Wait};
use std::thread;

const CPUS: u64 = 4;

/// How many numbers have their home at a CPU.
const NUMBERS_AT_HOME: u64 = 3;

const TASK_NUMBERS: u64 = CPUS * NUMBERS_AT_HOME;

/// What a CPU has of its own.
#[derive(Drop)]
pub struct OnCpu {
    /// Its part of the free numbers.
    free: FreePart,
    /// The wakes that its drains decided and that aren't settled.
    wakes: Vec<DrainedWake>,
    /// How many rounds have begun, up to the last one that it has begun.
    rounds: u64,
    /// How many units it has still to put down in this round, and what they are drawn from.
    units_left: u64,
    seed: u64,
    /// Whether its task works until the next round.
    works: bool,
    /// Whether it has idled since it last got a task.
    has_idled: bool,
}

/// What the threads share.
#[derive(Drop)]
pub struct Parking {
    cpus: Vec<WaitingCpu>,
    /// What each CPU has of its own. No other CPU takes its lock.
    on_cpus: Vec<Mutex<OnCpu>>,
    live: LiveTasks,
    desks: Desks,
    rounds: Rounds,
}

impl Work for Parking {
    type Own = OnCpu;

    fn own(&self, cpu: CpuId) -> Option<&Mutex<OnCpu>> {
        self.on_cpus.get(cpu.index())
    }

    fn turn<N: Names, R: Wait>(
        running: &Running<'_, Parking, N, R>,
        seat: &mut Seat<N>,
        own: &mut OnCpu,
    ) -> bool {
        let rounds = &running.work.rounds;
        let has_part = rounds.has_part(seat.cpu());
        let round = rounds.round();
        if rounds.are_over() {
            return false;
        }
        if has_part {
            own.begin(round);
            running.go_on(seat, own);
        } else {
            rounds.come(seat.cpu());
            thread::yield_now();
        }
        true
    }
}

impl OnCpu {
    /// Begins this round, if it hasn't yet: no task works in it so far, and it is drawn how many units are to be put down.
    fn begin(&mut self, round: u64) {
        if self.rounds <= round {
            self.rounds = round.saturating_add(1);
            self.works = false;
            self.units_left = self.draw(NUMBERS_AT_HOME + 1);
        }
    }

    /// A number below this one, which isn't 0.
    fn draw(&mut self, bound: u64) -> u64 {
        self.seed = self.seed.wrapping_mul(6_364_136_223_846_793_005);
        self.seed = self.seed.wrapping_add(1_442_695_040_888_963_407);
        (self.seed >> 33).checked_rem(bound).unwrap_or(0)
    }
}

impl Parking {
    /// A request to this home is alone in its ring: if the home waits, sends it an interrupt.
    fn interrupt_home(&self, home: u64) {
        if let Some(cpu) = self.cpus.get(home as usize)
            && cpu.take_back()
        {
            self.rounds.join();
            cpu.interrupt();
        }
    }

    /// Looks at the flags: takes one down that is up, if there is one, and sends that CPU an interrupt.
    fn interrupt_one(&self) {
        for cpu in self.cpus.iter() {
            if cpu.take_flag_down() {
                self.rounds.join();
                cpu.interrupt();
                return;
            }
        }
    }

    /// Begins the next round, and wakes the CPUs that had a part in the last one, which all wait. The run has the fewest and the most tasks
    /// of a CPU.
    fn begin_round(&self, least: usize, most: usize) {
        for cpu in self.cpus.iter() {
            let _ = cpu.take_back();
        }
        let members = self.rounds.end(least, most);
        for cpu in self.cpus.iter().take(members) {
            cpu.interrupt();
        }
    }
}

impl<'a, N: Names, R: Wait> Running<'a, Parking, N, R> {
    /// Settles the wakes that were posted, puts the units down, and lets a task work, if there is one; then waits.
    fn go_on(&self, seat: &mut Seat<N>, own: &mut OnCpu)
        ensures { seat.new.cpu ≡ seat.old.cpu }
    {
        let Some(cpu) = self.work.cpus.get(seat.cpu().index()) else {
            return;
        };
        if self.settle_next(seat, own) {
            return;
        }
        if own.units_left > 0 {
            own.units_left -= 1;
            self.put_unit_down(seat, own);
        } else if own.works {
            self.wait_beside_its_task(seat, own, cpu);
        } else if let Some(task) = self.work.live.pick(self.rt, self.fleet, seat) {
            self.let_run(seat, own, task);
        } else {
            self.idle(seat, own, cpu);
        }
    }

    /// Puts its flag up, drains, looks for work, and waits where there is none. What it does next on its queue, where it has found some, is
    /// a pick.
    fn idle(&self, seat: &mut Seat<N>, own: &mut OnCpu, cpu: &WaitingCpu)
        ensures { seat.new.cpu ≡ seat.old.cpu }
    {
        own.has_idled = true;
        cpu.say(true);
        if self.drain(seat, own) {
            self.stop_waiting(cpu);
            self.look_after_wakes(seat);
        } else if find_work(self.rt, self.fleet, seat).is_some() {
            let picked = self.work.live.pick(self.rt, self.fleet, seat);
            self.stop_waiting(cpu);
            if let Some(task) = picked {
                self.let_run(seat, own, task);
            }
        } else {
            self.wait(seat, cpu);
        }
    }

    /// Its task runs on: drains, and waits.
    fn wait_beside_its_task(&self, seat: &mut Seat<N>, own: &mut OnCpu, cpu: &WaitingCpu)
        ensures { seat.new.cpu ≡ seat.old.cpu }
    {
        cpu.say(false);
        if self.drain(seat, own) {
            self.stop_waiting(cpu);
            self.look_after_wakes(seat);
        } else {
            self.wait(seat, cpu);
        }
    }

    /// Doesn't wait after all. An interrupt that is under way comes first.
    fn stop_waiting(&self, cpu: &WaitingCpu) {
        if !cpu.take_back() {
            cpu.wait(self.rt);
            let _ = self.work.rounds.rest();
        }
    }

    /// Waits until an interrupt, or the end of the round, which comes when the last CPU rests.
    fn wait(&self, seat: &mut Seat<N>, cpu: &WaitingCpu)
        ensures { seat.new.cpu ≡ seat.old.cpu }
    {
        if self.work.rounds.rest() {
            let (least, most) = self.least_and_most(seat);
            self.work.begin_round(least, most);
        }
        cpu.wait(self.rt);
    }

    /// Takes the requests that were posted to the CPU, and lists the wakes. Says whether there were any.
    fn drain(&self, seat: &mut Seat<N>, own: &mut OnCpu) -> bool
        ensures { seat.new.cpu ≡ seat.old.cpu }
    {
        own.wakes.clear();
        if self.fleet.cpus() <= own.wakes.capacity() {
            let live = &self.work.live;
            let listed = live.drain(self.rt, self.fleet, seat, &mut own.wakes);
            self.work.rounds.count_taken(listed.drained.taken);
            listed.drained.taken > 0
        } else {
            false
        }
    }

    /// Looks at the flags, if wakes have made the CPU crowded.
    fn look_after_wakes(&self, seat: &mut Seat<N>)
        ensures { seat.new.cpu ≡ seat.old.cpu }
    {
        if self.tasks_of(seat, seat.cpu()) >= 2 {
            self.work.interrupt_one();
        }
    }

    /// Leaves a token for the next of the drained wakes, where it wasn't answered `Woken`; or drains, where no wake is left. Says whether
    /// there was a wake.
    fn settle_next(&self, seat: &mut Seat<N>, own: &mut OnCpu) -> bool
        ensures { seat.new.cpu ≡ seat.old.cpu }
    {
        match own.wakes.pop() {
            Some(wake) => {
                if wake.answer != Answer::Woken {
                    self.leave_token(seat, wake.task);
                }
                true
            }
            None => {
                let has_drained = self.drain(seat, own);
                if has_drained {
                    self.look_after_wakes(seat);
                }
                has_drained
            }
        }
    }

    /// Puts a unit of work down for a task that is drawn, and unparks it. Where none can take it, one begins for it under a free number.
    fn put_unit_down(&self, seat: &mut Seat<N>, own: &mut OnCpu)
        ensures { seat.new.cpu ≡ seat.old.cpu }
    {
        let work = self.work;
        if !work.rounds.count_unit() {
            return;
        }
        let (nice, slice) = (Nice::default(), Slice::default());
        if let Some(task) = TaskId::new(own.draw(TASK_NUMBERS))
            && work.desks.puts_down(task)
        {
            self.unpark(seat, task);
        } else if let Some(task) = work
            .live
            .begin(self.rt, self.fleet, seat, &mut own.free, nice, slice)
        {
            work.desks.open(task);
            self.unpark(seat, task);
        } else {
            work.rounds.give_unit_back();
        }
    }

    /// A task was picked. It works until the next round, or has done so and ends or parks. A CPU that has idled looks at the flags: the
    /// interrupt that it got may have been for another task.
    fn let_run(&self, seat: &mut Seat<N>, own: &mut OnCpu, task: TaskId)
        ensures { seat.new.cpu ≡ seat.old.cpu }
    {
        if own.has_idled {
            own.has_idled = false;
            self.work.interrupt_one();
        }
        own.works = self.work.desks.works(task, own.rounds);
        if !own.works {
            let _ = self.fleet.tick(self.rt, seat, Ns::new(1_000).unwrap());
            self.finish(seat, own, task);
        }
    }

    /// How many tasks run or wait on a CPU.
    fn tasks_of(&self, seat: &mut Seat<N>, cpu: CpuId) -> usize
        ensures { seat.new.cpu ≡ seat.old.cpu }
    {
        if self.fleet.has_cpu(cpu) {
            self.fleet.look(self.rt, seat, cpu, |queue| queue.len())
        } else {
            0
        }
    }

    /// The fewest and the most tasks that run or wait on a CPU, of those that have a part in the round.
    fn least_and_most(&self, seat: &mut Seat<N>) -> (usize, usize)
        ensures { seat.new.cpu ≡ seat.old.cpu }
    {
        let mut least = usize::MAX;
        let mut most = 0;
        for number in 0..CPUS {
            if let Some(cpu) = CpuId::new(number)
                && self.work.rounds.has_part(cpu)
            {
                let tasks = self.tasks_of(seat, cpu);
                least = least.min(tasks);
                most = most.max(tasks);
            }
        }
        (least, most)
    }
}
