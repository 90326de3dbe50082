//! CPUs that are operated each by a thread of its own, on a fleet that keeps no history. While they run the threads tell one another what
//! they were answered, with what they had seen of the history then. Whoever compares two such answers knows that one history has both.

ghost use Rattle.std.specs.Prelude.{◌≡◌};
ghost use Rattle.eevdf_fleet.specs.Fleets.{setup_of};
ghost use Rattle.eevdf_fleet.specs.Endless.{Agree, EndsWith};

use eevdf_fleet::endless::{
    Exchange, ExchangeTurn, Fleet, Kit, Seat, SeenLine, run_exchange_turns,
};
use eevdf_fleet::{Names, RunFault};
use eevdf_ops::{CpuId, Deed, Line, Setup};
use std::alloc::Global;
use std::ops::ControlFlow;
use std::sync::Wait;
use std::sync::atomic::{AtomicU64, Ordering};
use std::thread::Threads;

/// Picks the task that the seat's CPU runs next, and tells what was answered, with what the seat has seen then.
fn pick<N: Names, R: Wait>(rt: &R, fleet: &Fleet<N>, seat: &mut Seat<N>) -> SeenLine<N>
    ensures cpu { seat.new.cpu ≡ seat.old.cpu }
    ensures seen { result.seen ≡ seat.new.seen }
{
    let cpu = seat.cpu();
    let answer = fleet.pick(rt, seat);
    let seen = fleet.seen(seat);
    let deed = Deed::Pick { cpu };
    SeenLine {
        line: Line { deed, answer },
        seen,
    }
}

/// A copy of a line and of what was seen then.
fn copied<N: Names>(fleet: &Fleet<N>, told: &mut SeenLine<N>) -> SeenLine<N>
    ensures told { told.new ≡ told.old }
    ensures copy { result ≡ told.old }
{
    let seen = fleet.copy(&mut told.seen);
    SeenLine {
        line: told.line,
        seen,
    }
}

/// Two answers, by whatever seats and from whatever moments, are answers of one history: of what was seen with them one is the beginning of
/// the other, the longer is one thread's, and each answer is the last line of what was seen with it.
fn compare<N: Names>(fleet: &Fleet<N>, told: &mut SeenLine<N>, other: &mut SeenLine<N>)
    ensures told { told.new ≡ told.old }
    ensures other { other.new ≡ other.old }
    ensures agree { Agree (setup_of N.kit) told.old.seen other.old.seen }
    ensures last { EndsWith told.old.seen told.old.line }
    ensures others_last { EndsWith other.old.seen other.old.line }
{
    fleet.agree(&mut told.seen, &mut other.seen);
}

/// Turns of so many CPUs: in each a CPU picks its next task, tells the next CPU of it, and compares it with what the CPU before has told by
/// then. They go on until all CPUs together have done so many.
#[derive(Drop)]
struct Comparisons {
    cpus: u64,
    picks: u64,
    begun: AtomicU64,
}

impl ExchangeTurn for Comparisons {
    fn turn<N: Names, R: Wait>(
        &self,
        rt: &R,
        fleet: &Fleet<N>,
        seat: &mut Seat<N>,
        exchange: &Exchange<N>,
    ) -> ControlFlow<()> {
        if self.begun.fetch_add(1, Ordering::SeqCst) >= self.picks {
            return ControlFlow::Break(());
        }
        let mut own = pick(rt, fleet, seat);
        exchange.leave(rt, self.next(seat.cpu()), copied(fleet, &mut own));
        if let Some(mut other) = exchange.take(rt, seat.cpu()) {
            fleet.learn(seat, &mut other.seen);
            compare(fleet, &mut own, &mut other);
        }
        ControlFlow::Continue(())
    }
}

impl Comparisons {
    /// The CPU behind one, and the first behind the last.
    fn next(&self, cpu: CpuId) -> CpuId {
        let next = cpu.get() + 1;
        match CpuId::new(next) {
            Some(next) if next.get() < self.cpus => next,
            _ => CpuId::numbered(0),
        }
    }
}

/// Lets the CPUs of a setup do so many picks, of which each is told to the next CPU.
pub fn tell_picks<R: Threads + Wait + Sync>(
    rt: &R,
    alloc: Global,
    setup: &Setup,
    picks: u64,
) -> Result<(), RunFault> {
    let kit = Kit::make(alloc, setup, 1)?;
    let turns = Comparisons {
        cpus: setup.cpus() as u64,
        picks,
        begun: AtomicU64::new(0),
    };
    let _ = run_exchange_turns(rt, alloc, kit, &turns)?;
    Ok(())
}
