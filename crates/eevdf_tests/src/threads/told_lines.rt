//! Turns whose threads tell one another what they have done: each CPU finds what was left for it, and nothing else.

ghost use Rattle.std.specs.Prelude.{◌≡◌};

use super::token::Token;
use crate::fixtures::one_task_each;
use crate::kits::endless_kit_of;
use eevdf_fleet::Names;
use eevdf_fleet::endless::{Exchange, ExchangeTurn, Fleet, Seat, SeenLine, run_exchange_turns};
use eevdf_ops::{CpuId, Deed, Line};
use std::ops::ControlFlow;
use std::sync::Wait;
use std::sync::atomic::{AtomicUsize, Ordering};

/// So many CPUs there are in the tests.
const CPUS: [usize; 4] = [1, 4, 8, 64];

/// One turn of each CPU: it leaves its pick for the next CPU, and when all have done so it takes what was left for itself.
#[derive(Drop)]
struct RoundOfLines {
    cpus: usize,
    token: Token,
    /// How many CPUs found the line of the CPU before, and how many then found nothing more.
    found: AtomicUsize,
    emptied: AtomicUsize,
}

/// Picks on the seat's CPU, and gives the line to be told.
fn pick<N: Names, R: Wait>(rt: &R, fleet: &Fleet<N>, seat: &mut Seat<N>) -> SeenLine<N>
    ensures { seat.new.cpu ≡ seat.old.cpu }
{
    let cpu = seat.cpu();
    let answer = fleet.pick(rt, seat);
    let seen = fleet.seen(seat);
    let deed = Deed::Pick { cpu };
    SeenLine {
        line: Line { deed, answer },
        seen,
    }
}

/// The CPU behind one of so many, and the first behind the last.
fn next(cpu: CpuId, cpus: usize) -> CpuId {
    match CpuId::new(cpu.get() + 1) {
        Some(next) if next.index() < cpus => next,
        _ => CpuId::numbered(0),
    }
}

impl ExchangeTurn for RoundOfLines {
    fn turn<N: Names, R: Wait>(
        &self,
        rt: &R,
        fleet: &Fleet<N>,
        seat: &mut Seat<N>,
        exchange: &Exchange<N>,
    ) -> ControlFlow<()> {
        let cpu = seat.cpu();
        let own = pick(rt, fleet, seat);
        exchange.leave(rt, next(cpu, self.cpus), own);
        self.token.go_round(0, cpu.index());
        if let Some(told) = exchange.take(rt, cpu) {
            self.note(&told.line, cpu);
        }
        if exchange.take(rt, cpu).is_none() {
            self.emptied.fetch_add(1, Ordering::SeqCst);
        }
        ControlFlow::Break(())
    }
}

impl RoundOfLines {
    /// Counts a line that a CPU has found, if it is that of the CPU before.
    fn note(&self, line: &Line, cpu: CpuId) {
        match line.deed {
            Deed::Pick { cpu: before } if next(before, self.cpus) == cpu => {
                self.found.fetch_add(1, Ordering::SeqCst);
            }
            _ => (),
        }
    }
}

#[test]
fn each_cpu_is_told_what_was_left_for_it(rt: HostRuntime) {
    for cpus in CPUS {
        let setup = one_task_each(&rt, rt.alloc(), cpus);
        let kit = endless_kit_of(&rt, rt.alloc(), &setup, 1);
        let each = RoundOfLines {
            cpus,
            token: Token::new(cpus),
            found: AtomicUsize::new(0),
            emptied: AtomicUsize::new(0),
        };
        let _closed = run_exchange_turns(&rt, rt.alloc(), kit, &each).expect(&rt, "turns");
        assert!(rt; each.token.has_gone(1), "{cpus} CPUs");
        assert!(rt; each.found.load(Ordering::SeqCst) == cpus, "{cpus} CPUs");
        assert!(rt; each.emptied.load(Ordering::SeqCst) == cpus, "{cpus} CPUs");
    }
}
