ghost use Rattle.std.specs.Prelude.{◌≡◌, ◌≢◌, ◌*◌, ◌<◌, ◌≤◌, ◌↔◌, nat_lt, All, IfOk, IfSome, IsErr, IsSome, IsSomeAnd, IsTrue};
ghost use Rattle.std.specs.Prelude.{MatchResult, is_some, length, true};
ghost use Rattle.std.specs.List.{list_all};
ghost use Rattle.eevdf_ops.specs.{Histories.IsOneThread, Machine.start, Outcome.machine_of};
ghost use Rattle.eevdf_ops.specs.Places.{IsPlaced};
ghost use Rattle.eevdf_ops.specs.Programs.{deed_of, deeds_of, lines_by};
ghost use Rattle.eevdf_ops.specs.Setup.{allows, cpus_of, home_of, homes_of, is_at_home, is_task};
ghost use Rattle.eevdf_fleet.specs.Drains.{HasDrained};
ghost use Rattle.eevdf_fleet.specs.Fleets.{AllPostsTold, AreSeats, IsLogged, fresh_seats, quota_of};
ghost use Rattle.eevdf_fleet.specs.{Fleets.setup_of, Tried.has_what};

use crate::call::Call;
use crate::closing::ClosedQueues;
use crate::drains::Drained;
use crate::gate::Gate;
use crate::kit::Kit;
use crate::names::Names;
use crate::run_queues::RunQueues;
use crate::seat::{Seat, parts_in, seats_of};
use crossbeam_utils::CachePadded;
use eevdf_ops::{Answer, CpuId, Deed, Op, Outcome};
use eevdf_queue::TaskId;
use eevdf_weight::{Nice, Ns, Slice};
use std::alloc::{AllocError, Global};
use std::marker::Model;
use std::sync::Wait;

/// The seat has room for fewer lines than the operation may need: one, for a drain one for each CPU, and for `find_work` one for each
/// other CPU. It is decided before the first lock is taken, and nothing has changed. Room never grows, so the same call is refused until
/// the fleet is closed.
#[derive(Clone, Copy, PartialEq, Eq, Debug, Drop)]
pub struct SeatFull;

/// What a fleet is closed to: its lines in order, its queues, and the requests that were posted and not drained.
pub type Closed = Outcome;

/// A scheduler for several threads: each CPU's queue in a lock of its own, and the journal.
#[derive(Drop)]
pub struct Fleet<N: Names> {
    pub(crate) queues: CachePadded<RunQueues<N>>,
}

impl<N: Names> Model for Fleet<N> {
    ghost use Rattle.std.specs.Prelude.{◌≡◌, is_some, true};

    ghost Value = { Unit {0} };

    ghost view = { λ f. tt };

    ghost invariant = { λ _. is_some N.kit.terms.quota ≡ true };
}

impl<N: Names> Fleet<N> {
    /// Opens a fleet from the kit that `N` names, and gives a seat for each CPU, in order, without lines, with the quota as
    /// room. It takes all the memory that they ever need. The answer is `AllocError` where memory is refused, and the kit
    /// is then lost.
    pub fn open(alloc: Global, kit: Kit) -> Result<(Fleet<N>, Vec<Seat<N>>), AllocError>
        requires { kit ≡ N.kit }
        ensures { IfOk result (λ r. r.1.items
            ≡ fresh_seats (quota_of N.kit) (cpus_of (setup_of N.kit))) }
    {
        let (queues, parts) = RunQueues::<N>::open(alloc, kit.parts)?;
        let seats = seats_of(alloc, parts)?;
        let queues = CachePadded::new(queues);
        Ok((Fleet { queues }, seats))
    }

    /// Charges `ns` nanoseconds to the task that runs on the seat's CPU (`Deed::Tick`). `Charged` says whether its request
    /// was used up; `Idle`: nobody runs; `Range`: a virtual time would leave its range, and nothing changes.
    /// `SeatFull` where the seat has no room.
    pub fn tick<R: Wait>(&self, rt: &R, seat: &mut Seat<N>, ns: Ns) -> Result<Answer, SeatFull>
        ensures cases { IsLogged (Deed.Tick seat.old.cpu ns) seat.old seat.new result }
        ensures full { IsErr result ↔ (seat.old.room < 1) }
    {
        self.operate(&Call::alone(rt), seat, Op::Tick(ns))
    }

    /// Makes the eligible task of earliest virtual deadline run on the seat's CPU, among equal deadlines that of lowest
    /// number (`Deed::Pick`; Stoica and Abdel-Wahab 1995). `Idle`: no task is runnable there.
    /// `SeatFull` where the seat has no room.
    pub fn pick<R: Wait>(&self, rt: &R, seat: &mut Seat<N>) -> Result<Answer, SeatFull>
        ensures cases { IsLogged (Deed.Pick seat.old.cpu) seat.old seat.new result }
        ensures full { IsErr result ↔ (seat.old.room < 1) }
    {
        self.operate(&Call::alone(rt), seat, Op::Pick)
    }

    /// Adds the charge of one slice to the virtual deadline of the task that runs on the seat's CPU, which runs until the
    /// next pick (`Deed::Yield`). `Idle`: nobody runs; `Range`: the deadline would leave its range, and nothing changes.
    /// `SeatFull` where the seat has no room.
    pub fn yield_now<R: Wait>(&self, rt: &R, seat: &mut Seat<N>) -> Result<Answer, SeatFull>
        ensures cases { IsLogged (Deed.Yield seat.old.cpu) seat.old seat.new result }
        ensures full { IsErr result ↔ (seat.old.room < 1) }
    {
        self.operate(&Call::alone(rt), seat, Op::Yield)
    }

    /// Gives a task another nice level, if it is runnable on the seat's CPU (`Deed::Renice`). `NotHere`: it isn't runnable
    /// there; `Range`: it couldn't be placed in range. Both change nothing. `SeatFull` where the seat has no room.
    pub fn renice<R: Wait>(
        &self,
        rt: &R,
        seat: &mut Seat<N>,
        task: TaskId,
        nice: Nice,
    ) -> Result<Answer, SeatFull>
        requires { is_task (homes_of (setup_of N.kit)) task ≡ true }
        ensures cases { IsLogged (Deed.Renice seat.old.cpu task nice) seat.old seat.new result }
        ensures full { IsErr result ↔ (seat.old.room < 1) }
    {
        self.operate(&Call::alone(rt), seat, Op::Renice(task, nice))
    }

    /// Puts a task to sleep at its home, if it runs on the seat's CPU (`Deed::Sleep`). `Slept` has the lag that it keeps, in
    /// virtual time; `NotRunning` changes nothing. `SeatFull` where the seat has no room.
    pub fn sleep<R: Wait>(
        &self,
        rt: &R,
        seat: &mut Seat<N>,
        task: TaskId,
    ) -> Result<Answer, SeatFull>
        requires { is_task (homes_of (setup_of N.kit)) task ≡ true }
        ensures cases { IsLogged (Deed.Sleep seat.old.cpu task) seat.old seat.new result }
        ensures full { IsErr result ↔ (seat.old.room < 1) }
    {
        self.operate(&Call::alone(rt), seat, Op::Sleep(task))
    }

    /// Lets a task doze off at its home, if it runs on the seat's CPU (`Deed::Doze`): it keeps of its lag what it is owed and no debt, and
    /// its place, the virtual runtime at which it leaves, before which no wake puts it (this project's own profile). Where its home is
    /// another CPU, it falls asleep there as by `sleep`, since virtual times of two queues can't be compared. `Slept` has the lag that it
    /// leaves with, in virtual time; `NotRunning` changes nothing. `SeatFull` where the seat has no room.
    pub fn doze<R: Wait>(
        &self,
        rt: &R,
        seat: &mut Seat<N>,
        task: TaskId,
    ) -> Result<Answer, SeatFull>
        requires { is_task (homes_of (setup_of N.kit)) task ≡ true }
        ensures cases { IsLogged (Deed.Doze seat.old.cpu task) seat.old seat.new result }
        ensures full { IsErr result ↔ (seat.old.room < 1) }
    {
        self.operate(&Call::alone(rt), seat, Op::Doze(task))
    }

    /// Moves the waiting task of latest virtual deadline, of equal ones that of highest number, from the source to the seat's
    /// CPU, where the load of the CPU with it is still below that of the source (`Deed::Pull`; the rule is this project's
    /// own). `Nothing`: no task waits there; `Balanced`: the load wouldn't be below; `Range`: it couldn't be placed in
    /// range. These change nothing. `SeatFull` where the seat has no room.
    pub fn pull<R: Wait>(
        &self,
        rt: &R,
        seat: &mut Seat<N>,
        source: CpuId,
    ) -> Result<Answer, SeatFull>
        requires source { source < cpus_of (setup_of N.kit) }
        requires apart { source ≢ seat.old.cpu }
        ensures cases { IsLogged (Deed.Pull seat.old.cpu source) seat.old seat.new result }
        ensures full { IsErr result ↔ (seat.old.room < 1) }
    {
        self.operate(&Call::alone(rt), seat, Op::Pull(source))
    }

    /// Lets a task that sleeps at its home, the seat's CPU, begin anew (`Deed::Begin`): it sleeps on as one that has just been
    /// made, with the nice level, the slice and the lag 0, until a wake makes it runnable. `Awake` where it doesn't sleep there,
    /// and nothing changes. `SeatFull` where the seat has no room.
    pub fn begin<R: Wait>(
        &self,
        rt: &R,
        seat: &mut Seat<N>,
        task: TaskId,
        nice: Nice,
        slice: Slice,
    ) -> Result<Answer, SeatFull>
        requires { is_at_home (homes_of (setup_of N.kit)) task seat.old.cpu ≡ true }
        ensures cases { IsLogged (Deed.Begin seat.old.cpu task nice slice)
            seat.old seat.new result }
        ensures full { IsErr result ↔ (seat.old.room < 1) }
    {
        self.operate(&Call::alone(rt), seat, Op::Begin(task, nice, slice))
    }

    /// Ends a task, if it is runnable on the seat's CPU, running or waiting (`Deed::End`): it is put to sleep at its home with the
    /// lag 0, and its number may begin there again. `NotHere` changes nothing. `SeatFull` where the seat has no room.
    pub fn end<R: Wait>(&self, rt: &R, seat: &mut Seat<N>, task: TaskId) -> Result<Answer, SeatFull>
        requires { is_task (homes_of (setup_of N.kit)) task ≡ true }
        ensures cases { IsLogged (Deed.End seat.old.cpu task) seat.old seat.new result }
        ensures full { IsErr result ↔ (seat.old.room < 1) }
    {
        self.operate(&Call::alone(rt), seat, Op::End(task))
    }

    /// Gives a task another nice level and slice, if it is runnable on the seat's CPU or sleeps there (`Deed::Set`). A runnable one
    /// joins again as at `renice`, and the request after the one that then stands is of the new slice; the lag that a sleeping one
    /// keeps is rescaled, and cut to its new limit. `NotHere`: it is neither; `Range`: it couldn't be placed in range. Both change
    /// nothing. `SeatFull` where the seat has no room.
    pub fn set<R: Wait>(
        &self,
        rt: &R,
        seat: &mut Seat<N>,
        task: TaskId,
        nice: Nice,
        slice: Slice,
    ) -> Result<Answer, SeatFull>
        requires { is_task (homes_of (setup_of N.kit)) task ≡ true }
        ensures cases { IsLogged (Deed.Set seat.old.cpu task nice slice) seat.old seat.new result }
        ensures full { IsErr result ↔ (seat.old.room < 1) }
    {
        self.operate(&Call::alone(rt), seat, Op::Set(task, nice, slice))
    }

    /// Lowers all virtual times of the seat's CPU by one number, so that its virtual time is 0 (`Deed::Rebase`). `Rebased` has
    /// the number; where one of them would leave the range it is 0, and nothing changes.
    /// `SeatFull` where the seat has no room.
    pub fn rebase<R: Wait>(&self, rt: &R, seat: &mut Seat<N>) -> Result<Answer, SeatFull>
        ensures cases { IsLogged (Deed.Rebase seat.old.cpu) seat.old seat.new result }
        ensures full { IsErr result ↔ (seat.old.room < 1) }
    {
        self.operate(&Call::alone(rt), seat, Op::Rebase)
    }

    /// Takes at most one of the requests that each CPU posted to the seat's CPU, senders in ascending order, and decides
    /// each by `Deed::Wake`. Of the seat's own requests it takes the oldest; it may miss requests of other seats.
    /// `SeatFull` where the room is less than the number of CPUs, however many requests there are.
    pub fn drain<R: Wait>(&self, rt: &R, seat: &mut Seat<N>) -> Result<Drained, SeatFull>
        ensures cases { MatchResult result
            (λ drained. HasDrained seat.old seat.new drained)
            (λ _. seat.new ≡ seat.old) }
        ensures few { IfOk result (λ drained. drained.taken ≤ cpus_of (setup_of N.kit)) }
        ensures full { IsErr result ↔ (seat.old.room < cpus_of (setup_of N.kit)) }
    {
        self.drain_by(&Call::alone(rt), seat)
    }

    /// Whether the setup has a task: the condition of `sleep`, `doze`, `renice`, `end`, `set` and `Seat::post`.
    pub fn has_task(&self, task: TaskId) -> bool
        ensures { result ≡ is_task (homes_of (setup_of N.kit)) task }
    {
        self.queues.has_task(task)
    }

    /// Whether the setup has a CPU. From one that it has, and that isn't the seat's, a seat may pull.
    pub fn has_cpu(&self, cpu: CpuId) -> bool
        ensures { result ≡ nat_lt cpu (cpus_of (setup_of N.kit)) }
    {
        self.queues.has_cpu(cpu)
    }

    /// Whether the setup has a task that has its home at a CPU. At that of the seat it may begin.
    pub fn is_at_home(&self, task: TaskId, cpu: CpuId) -> bool
        ensures { result ≡ is_at_home (homes_of (setup_of N.kit)) task cpu }
    {
        self.queues.is_at_home(task, cpu)
    }

    /// The home of a task: the CPU at which it sleeps, and to which its wakes are posted. `None` where the setup doesn't have the task.
    pub fn home_of(&self, task: TaskId) -> Option<CpuId>
        ensures some { is_some result ≡ is_task (homes_of (setup_of N.kit)) task }
        ensures home { IfSome result (λ cpu. cpu ≡ home_of (homes_of (setup_of N.kit)) task) }
        ensures cpu { IfSome result (λ cpu. cpu < cpus_of (setup_of N.kit)) }
    {
        self.queues.home_of(task)
    }

    /// Whether `run_turns` was refused a thread for a CPU of this fleet: that CPU and those after it never come, and
    /// a turn that waits for another CPU is to break. It becomes `true` before the run waits for the threads that have started, and never
    /// `false` again. Of a fleet that was opened by `open` it is `false`.
    pub fn thread_was_refused(&self) -> bool {
        self.queues.thread_was_refused()
    }

    /// Says that a thread was refused that was to have a seat.
    pub(crate) fn note_refused_thread(&self) {
        self.queues.note_refused_thread();
    }

    /// Whether the list has the seats of all CPUs, in order: the condition of `close`.
    pub fn has_all_seats(&self, seats: &Vec<Seat<N>>) -> bool
        ensures { IsTrue result ↔ AreSeats (cpus_of (setup_of N.kit)) seats.now.items }
    {
        if seats.len() != self.queues.cpus() {
            return false;
        }
        for number in 0..seats.len() {
            if seats[number].cpu().index() != number {
                return false;
            }
        }
        true
    }

    /// Closes the fleet; it neither waits nor takes memory. The lines are the history of one thread that does the deeds one
    /// after the other, each at once, and the queues have the states that it leaves. The lines of each CPU are its seat's
    /// log. What a seat has posted to a home is what the home's drains took, in order and each once, whatever the answers
    /// were, followed by what is left.
    pub fn close(self, seats: Vec<Seat<N>>) -> Closed
        requires { AreSeats (cpus_of (setup_of N.kit)) seats.items }
        ensures one_thread { IsOneThread (homes_of (setup_of N.kit)) (start (setup_of N.kit))
            (deeds_of result.lines) result }
        ensures allowed { list_all (allows (setup_of N.kit)) (deeds_of result.lines) ≡ true }
        ensures logs { All (λ s. lines_by s.cpu result.lines ≡ s.log) seats.items }
        ensures places { IsPlaced (homes_of (setup_of N.kit)) (machine_of result.queues) }
        ensures posts { AllPostsTold (cpus_of (setup_of N.kit)) seats.items
            result.lines result.left }
        ensures left { length result.left ≡ cpus_of (setup_of N.kit) * cpus_of (setup_of N.kit) }
    {
        let (closing, room) = self.queues.into_inner().into_closing();
        let ClosedQueues {
            lines,
            queues,
            left,
        } = closing.close(parts_in(seats, room));
        match lines {
            Some(lines) => Outcome::of(lines, queues, left),
            None => unreachable!(),
        }
    }

    /// Does an operation of the seat's CPU that is a deed.
    #[inline(always)]
    pub(crate) fn operate<R: Wait, G: Gate>(
        &self,
        call: &Call<'_, R, G>,
        seat: &mut Seat<N>,
        op: Op,
    ) -> Result<Answer, SeatFull>
        requires deed { IsSome (deed_of seat.old.cpu op) }
        requires named { has_what (setup_of N.kit) seat.old.cpu op ≡ true }
        ensures cases { IsSomeAnd (deed_of seat.old.cpu op)
            (λ deed. IsLogged deed seat.old seat.new result) }
        ensures full { IsErr result ↔ (seat.old.room < 1) }
    {
        if seat.room() == 0 {
            return Err(SeatFull);
        }
        Ok(
            self.queues
                .operate(call, &mut seat.parts, &mut seat.held, op),
        )
    }

    /// The drain of a seat's CPU.
    pub(crate) fn drain_by<R: Wait, G: Gate>(
        &self,
        call: &Call<'_, R, G>,
        seat: &mut Seat<N>,
    ) -> Result<Drained, SeatFull>
        ensures cases { MatchResult result
            (λ drained. HasDrained seat.old seat.new drained)
            (λ _. seat.new ≡ seat.old) }
        ensures few { IfOk result (λ drained. drained.taken ≤ cpus_of (setup_of N.kit)) }
        ensures full { IsErr result ↔ (seat.old.room < cpus_of (setup_of N.kit)) }
    {
        if seat.room() < self.queues.cpus() {
            return Err(SeatFull);
        }
        Ok(self.queues.drain(call, &mut seat.parts, &mut seat.held))
    }
}
