//! Work that the threads of a fleet share, one for each CPU. A thread may be slow to come, and where the system refuses one neither it nor
//! a later one comes. So a thread waits for those of lower CPUs alone, which were started before it, and which come for certain.

ghost use Rattle.std.specs.Prelude.{◌≡◌};

use eevdf_fleet::Names;
use eevdf_fleet::endless::{Fleet, Seat, SeatTurn};
use eevdf_ops::CpuId;
use std::ops::ControlFlow;
use std::sync::{Mutex, Wait};
use std::thread;

/// Once in so many turns a CPU lets the others run: there may be fewer processors than threads.
const TURNS_TO_YIELD: u64 = 64;

/// Lets the other threads run, once in so many of the turns that are counted.
pub fn let_others_run(turns: u64) {
    if turns % TURNS_TO_YIELD == 0 {
        thread::yield_now();
    }
}

/// A work on the fleet that runs it, with what its calls need.
#[derive(Drop)]
pub struct Running<'a, W, N: Names, R> {
    pub work: &'a W,
    pub rt: &'a R,
    pub fleet: &'a Fleet<N>,
}

/// What the threads do.
pub trait Work: Drop + Sized {
    /// What a CPU has of its own.
    type Own;

    /// What this CPU has of its own. No other CPU takes its lock.
    fn own(&self, cpu: CpuId) -> Option<&Mutex<Self::Own>>;

    /// Does a turn of the seat's CPU, and says whether it has another one.
    fn turn<N: Names, R: Wait>(
        running: &Running<'_, Self, N, R>,
        seat: &mut Seat<N>,
        own: &mut Self::Own,
    ) -> bool
        ensures { seat.new.cpu ≡ seat.old.cpu };
}

/// The turns of a work.
#[derive(Drop)]
pub struct Turns<W: Work> {
    pub work: W,
}

impl<W: Work> SeatTurn for Turns<W> {
    fn turn<N: Names, R: Wait>(
        &self,
        rt: &R,
        fleet: &Fleet<N>,
        seat: &mut Seat<N>,
    ) -> ControlFlow<()> {
        let Some(own) = self.work.own(seat.cpu()) else {
            return ControlFlow::Break(());
        };
        let running = Running {
            work: &self.work,
            rt,
            fleet,
        };
        if W::turn(&running, seat, &mut own.lock(rt)) {
            ControlFlow::Continue(())
        } else {
            ControlFlow::Break(())
        }
    }
}
