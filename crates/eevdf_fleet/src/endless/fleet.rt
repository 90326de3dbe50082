ghost use Rattle.std.specs.Prelude.{◌≡◌, ◌≢◌, ◌<◌, ◌≤◌, ◌↔◌, ◌+◌, is_some, length, nat_lt, vec_capacity, IfOk, IfSome, IsSome, IsSomeAnd, IsTrue, map, true};
ghost use Rattle.eevdf_ops.specs.{Machine.queue_at, Outcome.machine_of, Programs.deed_of};
ghost use Rattle.eevdf_ops.specs.Setup.{cpus_of, home_of, homes_of, is_at_home, is_task};
ghost use Rattle.eevdf_fleet.specs.{Drains.IsPickedAnew, Endless.Agree, Endless.AgreeOnPosts, Endless.AreListed};
ghost use Rattle.eevdf_fleet.specs.Endless.{AreOfOneHistory, AreSeats, HasDone, HasDrained, IsOneThread};
ghost use Rattle.eevdf_fleet.specs.Endless.{fresh_seats, told_by};
ghost use Rattle.eevdf_fleet.specs.{Fleets.setup_of, Tried.has_what};

use crate::call::Call;
use crate::closing::ClosedQueues;
use crate::drains::Drained;
use crate::endless::closed::Closed;
use crate::endless::kit::Kit;
use crate::endless::seat::{Seat, parts_in, seats_of};
use crate::listed_drains::ListedDrain;
use crate::names::Names;
use crate::posted::Posted;
use crate::run_queues::RunQueues;
use crate::seen::Seen;
use crate::wake_list::DrainedWake;
use crossbeam_utils::CachePadded;
use eevdf_ops::{Answer, CpuId, Deed, Op};
use eevdf_queue::TaskId;
use eevdf_weight::{Nice, Ns, Slice};
use std::alloc::{AllocError, Global};
use std::marker::Model;
use std::sync::Wait;

/// A scheduler for several threads that keeps no history: each CPU's run queue in a lock of its own, and nothing that all operations
/// write.
#[derive(Drop)]
pub struct Fleet<N: Names> {
    pub(crate) queues: CachePadded<RunQueues<N>>,
}

impl<N: Names> Model for Fleet<N> {
    ghost use Rattle.std.specs.Prelude.{◌≡◌, None};

    ghost Value = { Unit {0} };

    ghost view = { λ f. tt };

    ghost invariant = { λ _. N.kit.terms.quota ≡ None };
}

impl<N: Names> Fleet<N> {
    /// Opens a fleet from the kit that `N` names, and gives a seat for each CPU, in order, which has done and seen nothing. It takes all
    /// the memory that they ever need. The answer is `AllocError` where memory is refused, and the kit is then lost.
    pub fn open(alloc: Global, kit: Kit) -> Result<(Fleet<N>, Vec<Seat<N>>), AllocError>
        requires { kit ≡ N.kit }
        ensures { IfOk result (λ r. r.1.items ≡ fresh_seats N.kit) }
    {
        let (queues, parts) = RunQueues::<N>::open(alloc, kit.parts)?;
        let seats = seats_of(alloc, parts)?;
        let queues = CachePadded::new(queues);
        Ok((Fleet { queues }, seats))
    }

    /// Charges `ns` nanoseconds to the task that runs on the seat's CPU (`Deed::Tick`). `Charged` says whether its request
    /// was used up; `Idle`: nobody runs; `Range`: a virtual time would leave its range, and nothing changes.
    pub fn tick<R: Wait>(&self, rt: &R, seat: &mut Seat<N>, ns: Ns) -> Answer
        ensures { HasDone (setup_of N.kit) (Deed.Tick seat.old.cpu ns) result seat.old seat.new }
    {
        self.operate(rt, seat, Op::Tick(ns))
    }

    /// Makes the eligible task of earliest virtual deadline run on the seat's CPU, among equal deadlines that of lowest
    /// number (`Deed::Pick`; Stoica and Abdel-Wahab 1995). `Idle`: no task is runnable there.
    pub fn pick<R: Wait>(&self, rt: &R, seat: &mut Seat<N>) -> Answer
        ensures { HasDone (setup_of N.kit) (Deed.Pick seat.old.cpu) result seat.old seat.new }
    {
        self.operate(rt, seat, Op::Pick)
    }

    /// Adds the charge of one slice to the virtual deadline of the task that runs on the seat's CPU, which runs until the
    /// next pick (`Deed::Yield`). `Idle`: nobody runs; `Range`: the deadline would leave its range, and nothing changes.
    pub fn yield_now<R: Wait>(&self, rt: &R, seat: &mut Seat<N>) -> Answer
        ensures { HasDone (setup_of N.kit) (Deed.Yield seat.old.cpu) result seat.old seat.new }
    {
        self.operate(rt, seat, Op::Yield)
    }

    /// Gives a task another nice level, if it is runnable on the seat's CPU (`Deed::Renice`). `NotHere`: it isn't runnable
    /// there; `Range`: it couldn't be placed in range. Both change nothing.
    pub fn renice<R: Wait>(&self, rt: &R, seat: &mut Seat<N>, task: TaskId, nice: Nice) -> Answer
        requires { is_task (homes_of (setup_of N.kit)) task ≡ true }
        ensures { HasDone (setup_of N.kit) (Deed.Renice seat.old.cpu task nice)
            result seat.old seat.new }
    {
        self.operate(rt, seat, Op::Renice(task, nice))
    }

    /// Puts a task to sleep at its home, if it runs on the seat's CPU (`Deed::Sleep`). `Slept` has the lag that it keeps, in
    /// virtual time; `NotRunning` changes nothing.
    pub fn sleep<R: Wait>(&self, rt: &R, seat: &mut Seat<N>, task: TaskId) -> Answer
        requires { is_task (homes_of (setup_of N.kit)) task ≡ true }
        ensures { HasDone (setup_of N.kit) (Deed.Sleep seat.old.cpu task) result seat.old seat.new }
    {
        self.operate(rt, seat, Op::Sleep(task))
    }

    /// Lets a task doze off at its home, if it runs on the seat's CPU (`Deed::Doze`): it keeps of its lag what it is owed and no debt, and
    /// its place, the virtual runtime at which it leaves, before which no wake puts it (this project's own profile). Where its home is
    /// another CPU, it falls asleep there as by `sleep`, since virtual times of two queues can't be compared. `Slept` has the lag that it
    /// leaves with, in virtual time; `NotRunning` changes nothing.
    pub fn doze<R: Wait>(&self, rt: &R, seat: &mut Seat<N>, task: TaskId) -> Answer
        requires { is_task (homes_of (setup_of N.kit)) task ≡ true }
        ensures { HasDone (setup_of N.kit) (Deed.Doze seat.old.cpu task) result seat.old seat.new }
    {
        self.operate(rt, seat, Op::Doze(task))
    }

    /// Moves the waiting task of latest virtual deadline, of equal ones that of highest number, from the source to the seat's
    /// CPU, where the load of the CPU with it is still below that of the source (`Deed::Pull`; the rule is this project's
    /// own). `Nothing`: no task waits there; `Balanced`: the load wouldn't be below; `Range`: it couldn't be placed in
    /// range. These change nothing.
    pub fn pull<R: Wait>(&self, rt: &R, seat: &mut Seat<N>, source: CpuId) -> Answer
        requires source { source < cpus_of (setup_of N.kit) }
        requires apart { source ≢ seat.old.cpu }
        ensures { HasDone (setup_of N.kit) (Deed.Pull seat.old.cpu source)
            result seat.old seat.new }
    {
        self.operate(rt, seat, Op::Pull(source))
    }

    /// Lets a task that sleeps at its home, the seat's CPU, begin anew (`Deed::Begin`): it sleeps on as one that has just been
    /// made, with the nice level, the slice and the lag 0, until a wake makes it runnable. `Awake` where it doesn't sleep there,
    /// and nothing changes.
    pub fn begin<R: Wait>(
        &self,
        rt: &R,
        seat: &mut Seat<N>,
        task: TaskId,
        nice: Nice,
        slice: Slice,
    ) -> Answer
        requires { is_at_home (homes_of (setup_of N.kit)) task seat.old.cpu ≡ true }
        ensures { HasDone (setup_of N.kit) (Deed.Begin seat.old.cpu task nice slice)
            result seat.old seat.new }
    {
        self.operate(rt, seat, Op::Begin(task, nice, slice))
    }

    /// Ends a task, if it is runnable on the seat's CPU, running or waiting (`Deed::End`): it is put to sleep at its home with the
    /// lag 0, and its number may begin there again. `NotHere` changes nothing.
    pub fn end<R: Wait>(&self, rt: &R, seat: &mut Seat<N>, task: TaskId) -> Answer
        requires { is_task (homes_of (setup_of N.kit)) task ≡ true }
        ensures { HasDone (setup_of N.kit) (Deed.End seat.old.cpu task) result seat.old seat.new }
    {
        self.operate(rt, seat, Op::End(task))
    }

    /// Gives a task another nice level and slice, if it is runnable on the seat's CPU or sleeps there (`Deed::Set`). A runnable one
    /// joins again as at `renice`, and the request after the one that then stands is of the new slice; the lag that a sleeping one
    /// keeps is rescaled, and cut to its new limit. `NotHere`: it is neither; `Range`: it couldn't be placed in range. Both change
    /// nothing.
    pub fn set<R: Wait>(
        &self,
        rt: &R,
        seat: &mut Seat<N>,
        task: TaskId,
        nice: Nice,
        slice: Slice,
    ) -> Answer
        requires { is_task (homes_of (setup_of N.kit)) task ≡ true }
        ensures { HasDone (setup_of N.kit) (Deed.Set seat.old.cpu task nice slice)
            result seat.old seat.new }
    {
        self.operate(rt, seat, Op::Set(task, nice, slice))
    }

    /// Lowers all virtual times of the seat's CPU by one number, so that its virtual time is 0 (`Deed::Rebase`). `Rebased` has
    /// the number; where one of them would leave the range it is 0, and nothing changes.
    pub fn rebase<R: Wait>(&self, rt: &R, seat: &mut Seat<N>) -> Answer
        ensures { HasDone (setup_of N.kit) (Deed.Rebase seat.old.cpu) result seat.old seat.new }
    {
        self.operate(rt, seat, Op::Rebase)
    }

    /// Takes at most one of the requests that each CPU posted to the seat's CPU, senders in ascending order, and decides
    /// each by `Deed::Wake`. Of the seat's own requests it takes the oldest; it may miss requests of other seats.
    pub fn drain<R: Wait>(&self, rt: &R, seat: &mut Seat<N>) -> Drained
        ensures drained { HasDrained (setup_of N.kit) result seat.old seat.new }
        ensures few { result.taken ≤ cpus_of (setup_of N.kit) }
    {
        let drained = self
            .queues
            .drain(&Call::alone(rt), &mut seat.parts, &mut seat.held);
        seat.parts.know();
        drained
    }

    /// Drains as `drain` does, and names the wakes: each is pushed onto the list, with its task, its sender and its answer, in the order in
    /// which they were decided. So the caller sees a wake that came while its task was awake: it is there with the answer `Awake`.
    /// `resched` is that of the queue after the last wake: whether a pick would let another task run than the one that runs, which is then
    /// to be preempted, or a task where nobody runs. No memory is taken: the list has to have room for as many wakes as there are CPUs
    /// (`cpus`), and its capacity stays.
    pub fn drain_into<R: Wait>(
        &self,
        rt: &R,
        seat: &mut Seat<N>,
        wakes: &mut Vec<DrainedWake>,
    ) -> ListedDrain
        requires room { length wakes.old.items + cpus_of (setup_of N.kit) ≤ vec_capacity wakes.old }
        ensures drained { HasDrained (setup_of N.kit) result.drained seat.old seat.new }
        ensures few { result.drained.taken ≤ cpus_of (setup_of N.kit) }
        ensures wakes { AreListed seat.old seat.new wakes.old.items wakes.new.items }
        ensures capacity { vec_capacity wakes.new ≡ vec_capacity wakes.old }
        ensures resched { IsTrue result.resched
            ↔ IsPickedAnew (queue_at (told_by (setup_of N.kit) seat.new.seen) seat.old.cpu) }
    {
        let listed = self
            .queues
            .drain_into(rt, &mut seat.parts, &mut seat.held, wakes);
        seat.parts.know();
        listed
    }

    /// Does an operation of the seat's CPU that is a deed.
    #[inline(always)]
    fn operate<R: Wait>(&self, rt: &R, seat: &mut Seat<N>, op: Op) -> Answer
        requires deed { IsSome (deed_of seat.old.cpu op) }
        requires named { has_what (setup_of N.kit) seat.old.cpu op ≡ true }
        ensures { IsSomeAnd (deed_of seat.old.cpu op)
            (λ deed. HasDone (setup_of N.kit) deed result seat.old seat.new) }
    {
        let answer = self
            .queues
            .operate(&Call::alone(rt), &mut seat.parts, &mut seat.held, op);
        seat.parts.know();
        answer
    }

    /// What a seat has seen of the history so far, as a value of its own. It neither waits nor takes memory.
    pub fn seen(&self, seat: &mut Seat<N>) -> Seen<N>
        ensures seat { seat.new ≡ seat.old }
        ensures seen { result ≡ seat.old.seen }
        ensures one_thread { IsOneThread (setup_of N.kit) result }
    {
        self.queues.seen(&mut seat.parts)
    }

    /// A copy of what was seen, for another thread, say. It neither waits nor takes memory.
    pub fn copy(&self, seen: &mut Seen<N>) -> Seen<N>
        ensures seen { seen.new ≡ seen.old }
        ensures copy { result ≡ seen.old }
    {
        self.queues.copy(seen)
    }

    /// What was seen at two moments, by whatever seats of the fleet, is of one history: one of the two is the beginning of the
    /// other. So the answers of any two calls are answers of one thread, while all go on. It takes no lock, neither waits nor takes
    /// memory, and at run time it decides nothing.
    pub fn agree(&self, seen: &mut Seen<N>, other: &mut Seen<N>)
        ensures seen { seen.new ≡ seen.old }
        ensures other { other.new ≡ other.old }
        ensures agree { Agree (setup_of N.kit) seen.old other.old }
    {
        self.queues.agree(seen, other);
    }

    /// What a CPU had posted, once more: for another thread, say. It neither waits nor takes memory.
    pub fn copy_posted(&self, posted: &mut Posted<N>) -> Posted<N>
        ensures posted { posted.new ≡ posted.old }
        ensures copy { result ≡ posted.old }
    {
        self.queues.copy_posted(posted)
    }

    /// What a CPU had posted at one moment and what was seen at another are of one history: for each home, the wakes that the CPU asked for
    /// among the home's lines are the beginning of what it had posted to the home, or the other way about, where more was drained than it
    /// had posted by then. `Seat::agree_on_posts` says of what a seat has posted by now that it is never the other way about. It takes no
    /// lock, neither waits nor takes memory, and at run time it decides nothing.
    pub fn agree_on_posts(&self, seen: &mut Seen<N>, posted: &mut Posted<N>)
        ensures seen { seen.new ≡ seen.old }
        ensures posted { posted.new ≡ posted.old }
        ensures agree { AgreeOnPosts seen.old posted.old }
    {
        self.queues.agree_on_posts(seen, posted);
    }

    /// How many CPUs there are: the room that `drain_into` needs in its list.
    pub fn cpus(&self) -> usize
        ensures { result ≡ cpus_of (setup_of N.kit) }
    {
        self.queues.cpus()
    }

    /// Whether the setup has a task: the condition of `sleep`, `doze`, `renice`, `end`, `set` and `Seat::post`.
    pub fn has_task(&self, task: TaskId) -> bool
        ensures { result ≡ is_task (homes_of (setup_of N.kit)) task }
    {
        self.queues.has_task(task)
    }

    /// Whether the setup has a CPU. From one that it has, and that isn't the seat's, a seat may pull.
    pub fn has_cpu(&self, cpu: CpuId) -> bool
        ensures { result ≡ nat_lt cpu (cpus_of (setup_of N.kit)) }
    {
        self.queues.has_cpu(cpu)
    }

    /// Whether the setup has a task that has its home at a CPU. At that of the seat it may begin.
    pub fn is_at_home(&self, task: TaskId, cpu: CpuId) -> bool
        ensures { result ≡ is_at_home (homes_of (setup_of N.kit)) task cpu }
    {
        self.queues.is_at_home(task, cpu)
    }

    /// The home of a task: the CPU at which it sleeps, and to which its wakes are posted. `None` where the setup doesn't have the task.
    pub fn home_of(&self, task: TaskId) -> Option<CpuId>
        ensures some { is_some result ≡ is_task (homes_of (setup_of N.kit)) task }
        ensures home { IfSome result (λ cpu. cpu ≡ home_of (homes_of (setup_of N.kit)) task) }
        ensures cpu { IfSome result (λ cpu. cpu < cpus_of (setup_of N.kit)) }
    {
        self.queues.home_of(task)
    }

    /// Whether `run_turns` or `run_exchange_turns` was refused a thread for a CPU of this fleet: that CPU and those after it never come, and
    /// a turn that waits for another CPU is to break. It becomes `true` before the run waits for the threads that have started, and never
    /// `false` again. Of a fleet that was opened by `open` it is `false`.
    pub fn thread_was_refused(&self) -> bool {
        self.queues.thread_was_refused()
    }

    /// Says that a thread was refused that was to have a seat.
    pub(crate) fn note_refused_thread(&self) {
        self.queues.note_refused_thread();
    }

    /// Whether the list has the seats of all CPUs, in order: the condition of `close`.
    pub fn has_all_seats(&self, seats: &Vec<Seat<N>>) -> bool
        ensures { IsTrue result ↔ AreSeats (cpus_of (setup_of N.kit)) seats.now.items }
    {
        if seats.len() != self.queues.cpus() {
            return false;
        }
        for number in 0..seats.len() {
            if seats[number].cpu().index() != number {
                return false;
            }
        }
        true
    }

    /// Closes the fleet; it neither waits nor takes memory. There is one history of one thread that has each seat's lines as those of its
    /// CPU and begins with what each seat has seen, and the queues have the states that it leaves. What a seat has posted to a home is
    /// what the home's drains took, in order and each once, whatever the answers were, followed by what is left.
    pub fn close(self, seats: Vec<Seat<N>>) -> Closed
        requires { AreSeats (cpus_of (setup_of N.kit)) seats.items }
        ensures { AreOfOneHistory (setup_of N.kit) seats.items
            (machine_of result.queues.items) (map (λ l. l.items) result.left.items) }
    {
        let (closing, room) = self.queues.into_inner().into_closing();
        let ClosedQueues {
            lines: _,
            queues,
            left,
        } = closing.close(parts_in(seats, room));
        Closed { queues, left }
    }
}
