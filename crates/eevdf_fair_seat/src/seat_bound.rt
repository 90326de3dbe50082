ghost use Rattle.std.specs.Prelude.{◌≡◌, IfSome};
ghost use Rattle.eevdf_weight.specs.{Charge.charge_of, Weight.weight_of};
ghost use Rattle.eevdf_fair_seat.specs.Turns as turns;
ghost use Rattle.eevdf_fair_seat.specs.Turns.{BeginsAnew, GoesOn, TurnsAreNoLonger};
ghost use Rattle.eevdf_fair_seat.specs.Lateness.{NoneIsLater, lateness_bound};

use eevdf_dozes::laws::requests_stay_punctual_on_cpu;
use eevdf_ops::Deed;
use eevdf_weight::{Nice, weight};

/// What is known of the turns of a CPU from the deeds that were handed over: a turn is what the CPU is ticked between two picks of its
/// own. Where it is made in the middle of a history, it speaks of what comes from the CPU's next pick on.
#[derive(Clone, Copy, PartialEq, Eq, Debug)]
pub struct SeatBound {
    /// For how many nanoseconds the CPU was ticked since its last pick.
    pub turn: u64,
    /// For how many in its longest turn, the one that goes on among them. `u64::MAX` says that there were as many or more.
    pub longest: u64,
}

impl SeatBound {
    /// That of a CPU of which nothing was handed over.
    pub fn fresh() -> SeatBound
        ensures { result ≡ turns.fresh }
    {
        SeatBound {
            turn: 0,
            longest: 0,
        }
    }

    /// Hands over a deed of the CPU, once it was done: each one, in order, a wake that a drain has done too. A pick ends a turn, whatever
    /// it is answered, and a tick makes it longer, also where nobody runs. No other deed changes anything, so it may be left out.
    pub fn see(&mut self, deed: Deed)
        ensures turns { self.new ≡ turns.after self.old deed }
        ensures begins { BeginsAnew deed self.new }
        ensures goes_on { GoesOn self.old deed self.new }
    {
        match deed {
            Deed::Tick { cpu: _, ns } => self.grow(ns.get()),
            Deed::Pick { cpu: _ } => self.turn = 0,
            _ => {}
        }
    }

    /// The nanoseconds of the longest turn: none was longer since any pick from which on the CPU's deeds were handed over. So each law of a
    /// CPU holds from that pick on with turns of this length. `None` where they are `u64::MAX` or more.
    pub fn longest_turn(self) -> Option<u64>
        ensures value { result ≡ turns.longest_turn self }
        ensures turns { IfSome result (TurnsAreNoLonger self) }
    {
        if self.longest < u64::MAX {
            Some(self.longest)
        } else {
            None
        }
    }

    /// By how much the virtual time of the CPU can be past the deadline of a pending request, at most, where no task on it is lighter than
    /// one of this nice level: what that one is charged for the longest turn, in virtual time. Level 19 is enough for all. It is said of a
    /// task that has stayed there since a pick that was handed over, at which nobody stood further past its deadline, and as long as the
    /// other runnable tasks of the CPU come and go by dozes and wakes alone: one that is pulled there with a debt can be further past it.
    /// `None` where the longest turn isn't known.
    pub fn lateness_bound(self, lightest: Nice) -> Option<u128>
        ensures value { result ≡ lateness_bound self lightest }
        ensures late { IfSome result (NoneIsLater self lightest) }
    {
        requests_stay_punctual_on_cpu();
        let longest = self.longest_turn()?;
        Some(charged_for(longest, lightest))
    }

    /// Makes it that where the turn is so many nanoseconds longer.
    fn grow(&mut self, ns: u64)
        ensures { self.new ≡ turns.grown self.old ns }
    {
        self.turn = self.turn.saturating_add(ns);
        self.longest = self.longest.max(self.turn);
    }
}

/// What a task of this nice level is charged for so many nanoseconds, in virtual time.
#[tactic(auto, unfolding(eevdf_weight::specs::Charge::charge_of))]
fn charged_for(ns: u64, nice: Nice) -> u128
    ensures { result ≡ charge_of ns (weight_of nice) }
{
    u128::from(ns) * 1024 / u128::from(weight(nice))
}
