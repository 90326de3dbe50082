ghost use Rattle.std.specs.Prelude.{◌≡◌, ◌+◌, ◌<◌, ◌≤◌, [], length, vec_capacity, vec_len, OnOk, OnErr, IfErr, IfOk, is_some};
ghost use Rattle.std.specs.Prelude.{IsOk, true};
ghost use Rattle.eevdf_ops.specs.Setup.{cpus_of, home_of, homes_of, is_task};
ghost use Rattle.eevdf_fleet.specs.Fleets.{capacity_of, posted_to, quota_of, seats_in, setup_of};
ghost use Rattle.eevdf_fleet.specs.Fleets.{with_post};

use crate::locks::LockLeave;
use crate::names::Names;
use crate::rings::RingFull;
use crate::seat_parts::SeatParts;
use eevdf_ops::{CpuId, Line};
use eevdf_queue::TaskId;
use std::alloc::{AllocError, Global};
use std::marker::Model;

/// A CPU's part of a fleet: whoever has it does the CPU's operations. Contracts see its CPU, its lines in order, how
/// many more it may have, and the tasks of the requests that it has posted to each home, in order.
#[derive(Drop)]
pub struct Seat<N: Names> {
    pub(crate) parts: SeatParts<N>,
    pub(crate) held: LockLeave,
}

impl<N: Names> Model for Seat<N> {
    ghost use Rattle.std.specs.Prelude.{◌≡◌, is_some, true};
    ghost use Rattle.eevdf_fleet.specs.Fleets.{Seat};

    ghost Value = { Seat };

    ghost view = { λ s. s.parts.seat };

    ghost invariant = { λ _. is_some N.kit.terms.quota ≡ true };
}

impl<N: Names> Seat<N> {
    /// The number of its CPU.
    pub fn cpu(&self) -> CpuId
        ensures cpu { result ≡ self.now.cpu }
        ensures below { result < cpus_of (setup_of N.kit) }
    {
        self.parts.cpu()
    }

    /// How many more lines its log may have: the quota less the lines so far.
    pub fn room(&self) -> usize
        ensures room { result ≡ self.now.room }
        ensures quota { length self.now.log + result ≡ quota_of N.kit }
    {
        self.parts.room()
    }

    /// The lines that its operations have made, oldest first. A post has none.
    pub fn log(&self) -> &[Line]
        ensures { result.now ≡ self.now.log }
    {
        self.parts.lines()
    }

    /// Sends a request to wake a task to the task's home, whose drain decides it. It needs no room, adds no line, and neither
    /// waits nor takes memory. `RingFull`, with the task, comes only where this seat has already posted as many requests to
    /// that home, over all, as a ring has room for; then nothing has changed. Below that number it always succeeds.
    pub fn post(&mut self, task: TaskId) -> Result<(), RingFull>
        requires { is_task (homes_of (setup_of N.kit)) task ≡ true }
        ensures accepted { OnOk result
            (self.new ≡ with_post self.old (home_of (homes_of (setup_of N.kit)) task) task) }
        ensures refused { OnErr result (self.new ≡ self.old) }
        ensures given_back { IfErr result (λ full. full.task ≡ task) }
        ensures room { length (posted_to self.old (home_of (homes_of (setup_of N.kit)) task))
            < capacity_of N.kit → IsOk result }
    {
        self.parts.post(task)
    }
}

/// The seats of these parts, in order.
pub(crate) fn seats_of<N: Names>(
    alloc: Global,
    parts: Vec<SeatParts<N>>,
) -> Result<Vec<Seat<N>>, AllocError>
    requires { is_some N.kit.terms.quota ≡ true }
    ensures { IfOk result (λ seats. seats.items ≡ seats_in parts.items) }
{
    let mut seats = Vec::with_capacity(alloc, parts.len())?;
    for own in parts {
        let (parts, held) = LockLeave::beside(own);
        seats.push(Seat { parts, held })?;
    }
    Ok(seats)
}

/// The parts of these seats, in order, in the room for them.
pub(crate) fn parts_in<N: Names>(
    seats: Vec<Seat<N>>,
    mut room: Vec<SeatParts<N>>,
) -> Vec<SeatParts<N>>
    requires none { room.items ≡ [] }
    requires enough { vec_len seats ≤ vec_capacity room }
    ensures { seats_in result.items ≡ seats.items }
{
    for seat in seats {
        let Seat { parts, held: _ } = seat;
        room.push_reserved(parts);
    }
    room
}
