ghost use Rattle.std.specs.Prelude.{◌≡◌, ◌+◌, ◌<◌, ◌≤◌, ◌↔◌, [], length, map, vec_capacity, vec_len, None, OnOk, OnErr, IfErr, IfOk, IsOk};
ghost use Rattle.std.specs.Prelude.{IsTrue, true};
ghost use Rattle.eevdf_ops.specs.{Programs.wakes_from, Setup.cpus_of, Setup.home_of, Setup.homes_of, Setup.is_task};
ghost use Rattle.eevdf_fleet.specs.Fleets.{capacity_of, free_at, setup_of};
ghost use Rattle.eevdf_fleet.specs.Endless.{HasAskedFor, HasFound, HasPosted, posted_to, seat_of_parts};

use crate::locks::LockLeave;
use crate::names::Names;
use crate::posted::Posted;
use crate::rings::RingFull;
use crate::seat_parts::SeatParts;
use crate::seen::Seen;
use eevdf_ops::CpuId;
use eevdf_queue::TaskId;
use std::alloc::{AllocError, Global};
use std::marker::Model;

/// A CPU's part of a fleet that keeps no history: whoever has it does the CPU's operations. Contracts see its CPU, the lines of its
/// operations in order, the first lines of the history, as far as the seat knows them, the tasks of the requests that it has posted
/// to each home, and how many requests more certainly fit into the ring to each home. None of these lists is there at run time.
#[derive(Drop)]
pub struct Seat<N: Names> {
    pub(super) parts: SeatParts<N>,
    pub(super) held: LockLeave,
}

impl<N: Names> Model for Seat<N> {
    ghost use Rattle.std.specs.Prelude.{◌≡◌, None};
    ghost use Rattle.eevdf_fleet.specs.Endless.{Seat, seat_of_parts};

    ghost Value = { Seat };

    ghost view = { λ s. seat_of_parts s.parts };

    ghost invariant = { λ _. N.kit.terms.quota ≡ None };
}

impl<N: Names> Seat<N> {
    /// The number of its CPU.
    pub fn cpu(&self) -> CpuId
        ensures cpu { result ≡ self.now.cpu }
        ensures below { result < cpus_of (setup_of N.kit) }
    {
        self.parts.cpu()
    }

    /// Sends a request to wake a task to the task's home, whose drain decides it. It adds no line, and neither waits nor takes memory.
    /// `RingFull`, with the task, comes only where no place in the ring to that home is known to be free; then nothing has changed, and
    /// none is known to be. Wherever one is known to be free it succeeds, after any number of posts and drains.
    pub fn post(&mut self, task: TaskId) -> Result<(), RingFull>
        requires { is_task (homes_of (setup_of N.kit)) task ≡ true }
        ensures accepted { OnOk result
            (HasPosted (home_of (homes_of (setup_of N.kit)) task) task self.old self.new) }
        ensures refused { OnErr result (self.new ≡ self.old) }
        ensures given_back { IfErr result (λ full. full.task ≡ task) }
        ensures full { OnErr result (free_at self.new.free (home_of (homes_of (setup_of N.kit)) task) ≡ 0) }
        ensures free { 0 < free_at self.old.free (home_of (homes_of (setup_of N.kit)) task) → IsOk result }
    {
        self.parts.post(task)
    }

    /// Posts as `post` does, and then looks at the ring to that home. `true`: the request is alone there. So all that the seat posted to
    /// the home before was taken out, and the home may be idle: it is to be sent an interrupt. `false` is a hint alone: an earlier request
    /// is there too, as far as the look shows, or this one was taken out already.
    pub fn post_and_look(&mut self, task: TaskId) -> Result<bool, RingFull>
        requires { is_task (homes_of (setup_of N.kit)) task ≡ true }
        ensures accepted { OnOk result
            (HasPosted (home_of (homes_of (setup_of N.kit)) task) task self.old self.new) }
        ensures alone { IfOk result (λ alone. IsTrue alone
            ↔ (free_at self.new.free (home_of (homes_of (setup_of N.kit)) task) + 1 ≡ capacity_of N.kit)) }
        ensures refused { OnErr result (self.new ≡ self.old) }
        ensures given_back { IfErr result (λ full. full.task ≡ task) }
        ensures full { OnErr result (free_at self.new.free (home_of (homes_of (setup_of N.kit)) task) ≡ 0) }
        ensures free { 0 < free_at self.old.free (home_of (homes_of (setup_of N.kit)) task) → IsOk result }
    {
        self.post(task)?;
        Ok(self.parts.has_one(task))
    }

    /// What the seat has posted so far, as a value of its own. It neither waits nor takes memory.
    pub fn posted(&mut self) -> Posted<N>
        ensures seat { self.new ≡ self.old }
        ensures sender { result.sender ≡ self.old.cpu }
        ensures posted { result.posted ≡ self.old.posted }
    {
        self.parts.posted()
    }

    /// Whatever was seen at whatever moment, by any seat of the fleet, tells of no other wakes that this seat asked for than of
    /// those that it has posted by now: for each home, the wakes that the seat asked for among the home's lines are the beginning of what
    /// it has posted to the home. So no wake stands there in its name that it hasn't posted, and none before those that it posted earlier to
    /// the same home. It takes no lock, neither waits nor takes memory, and at run time it decides nothing.
    pub fn agree_on_posts(&mut self, seen: &mut Seen<N>)
        ensures seat { self.new ≡ self.old }
        ensures seen { seen.new ≡ seen.old }
        ensures agree { HasAskedFor self.old seen.old }
    {
        self.parts.agree_on_posts(seen);
    }

    /// How many requests to a home certainly fit into its ring now: so many posts to it succeed, whoever drains in the meantime. The home's
    /// drains can only make it more. For the seat's own CPU it is the room of a ring less what the seat has posted to it and not drained.
    pub fn free(&mut self, home: CpuId) -> usize
        requires { home < cpus_of (setup_of N.kit) }
        ensures seat { HasFound self.old self.new }
        ensures free { result ≡ free_at self.new.free home }
        ensures own { 0 < capacity_of N.kit → home ≡ self.old.cpu → result + length (posted_to self.old home)
            ≡ capacity_of N.kit + length (wakes_from home self.old.log) }
    {
        self.parts.free(home)
    }
}

/// The seats of these parts, in order.
pub(super) fn seats_of<N: Names>(
    alloc: Global,
    parts: Vec<SeatParts<N>>,
) -> Result<Vec<Seat<N>>, AllocError>
    requires { N.kit.terms.quota ≡ None }
    ensures { IfOk result (λ seats. seats.items ≡ map seat_of_parts parts.items) }
{
    let mut seats = Vec::with_capacity(alloc, parts.len())?;
    for own in parts {
        let (parts, held) = LockLeave::beside(own);
        seats.push(Seat { parts, held })?;
    }
    Ok(seats)
}

/// The parts of these seats, in order, in the room for them.
pub(super) fn parts_in<N: Names>(
    seats: Vec<Seat<N>>,
    mut room: Vec<SeatParts<N>>,
) -> Vec<SeatParts<N>>
    requires none { room.items ≡ [] }
    requires enough { vec_len seats ≤ vec_capacity room }
    ensures { map seat_of_parts result.items ≡ seats.items }
{
    for seat in seats {
        let Seat { parts, held: _ } = seat;
        room.push_reserved(parts);
    }
    room
}
