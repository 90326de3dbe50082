//! The clock by which the shares of tasks are told.

ghost use Rattle.std.specs.Prelude.{◌≡◌, ◌≤◌, ◌^◌, pos, neg_ℤ, ◌-ℤ◌, ◌+ℤ◌, ◌*ℤ◌, unsigned_abs, true, IfSome};
ghost use Rattle.eevdf_queue.specs.Sums.{total_weight};
ghost use Rattle.eevdf_fair_queue.specs.ShareClock as clock;

use eevdf_queue::Queue;
use eevdf_weight::Ns;
use std::marker::Model;

/// Where a task stood beside the clock of its queue at a moment, from which on its share of the CPU's time can be told.
#[derive(Clone, Copy, PartialEq, Eq, Debug)]
pub struct ShareMark {
    /// How far the clock was past the virtual runtime, in parts of virtual time, of which 2^32 are one unit.
    pub standing: i128,
}

/// How much virtual time a CPU has gone through, as its charges make it go and without their rounding: `1024 / W` for each nanosecond
/// that was charged, where `W` is the load of then. Nobody's coming or going moves it. It is kept in parts, of which 2^32 are one unit.
#[derive(Drop)]
pub struct ShareClock {
    /// What it had come to when the load changed last, each time rounded up. `None` once that would be past 2^100 parts.
    settled: Option<i128>,
    /// The nanoseconds that were charged since.
    since: u64,
}

impl Model for ShareClock {
    ghost use Rattle.std.specs.Prelude.{◌<◌, ◌^◌, ◌≡◌, true, IfSome};
    ghost use Rattle.eevdf_fair_queue.specs.ShareClock.{Clock, clock_code, is_clock};

    ghost Value = { Clock };

    ghost coded = { clock_code };

    ghost view = { λ c. record { settled = c.settled; since = c.since } };

    ghost invariant = { λ c. (c.since < 2 ^ 63) × IfSome c.settled (λ z. is_clock z ≡ true) };
}

/// The parts in one unit of virtual time.
const PARTS: i128 = 1 << 32;

/// The parts that it goes through in a nanosecond, times the load.
const NS_PARTS: u128 = 1 << 42;

/// The most parts that it can have come to.
const MOST: i128 = 1 << 100;

/// The most nanoseconds that are settled later.
const LONGEST: u64 = (1 << 63) - 1;

/// No mark of a clock is farther from 0.
const FARTHEST: i128 = 1 << 108;

impl ShareClock {
    /// A clock at 0.
    pub fn start() -> ShareClock
        ensures { result ≡ clock.begun }
    {
        ShareClock {
            settled: Some(0),
            since: 0,
        }
    }

    /// Goes on by a charge for so many nanoseconds, at the load of a queue.
    // which is read only where it is needed: a tick is to take few instructions
    #[inline(always)]
    pub fn charge(&mut self, ns: Ns, queue: &Queue)
        ensures { self.new ≡ clock.charged self.old ns (total_weight queue.now.state.runnable) }
    {
        self.since += ns.get();
        if self.since > LONGEST {
            self.settled = settled(self.settled, self.since, queue.load());
            self.since = 0;
        }
    }

    /// The load was one, and is another now.
    pub fn reload(&mut self, before: u64, after: u64)
        ensures { self.new ≡ clock.reloaded self.old before after }
    {
        if before != after {
            self.settled = settled(self.settled, self.since, before);
            self.since = 0;
        }
    }

    /// Lowers it as all virtual times are lowered.
    pub fn lower(&mut self, by: i64)
        ensures { self.new ≡ clock.lowered self.old by }
    {
        self.settled = lowered(self.settled, by);
    }

    /// Where a virtual runtime stands beside it. `None` where it has left its range.
    pub fn mark(&self, v: i64, load: u64) -> Option<ShareMark>
        ensures { result ≡ clock.mark_of self.now load v }
    {
        let Some(settled) = self.settled else {
            return None;
        };
        let standing = beside(settled, v, parts_down(self.since, load));
        Some(ShareMark { standing })
    }

    /// The nanoseconds that a task of this virtual runtime and weight lacks since a mark, rounded up. `None` where the clock has left its
    /// range, or the mark is none of such a clock.
    pub fn lack_since(&self, mark: ShareMark, v: i64, weight: u64, load: u64) -> Option<u128>
        requires { weight ≤ 88761 }
        ensures { result ≡ clock.lack_since self.now load v weight mark }
    {
        let Some(settled) = self.settled else {
            return None;
        };
        let standing = beside(settled, v, parts_up(self.since, load));
        lack_between(standing, mark, weight)
    }
}

/// What a clock has come to once so many nanoseconds more are settled, at the load that it went by.
#[inline(never)]
fn settled(settled: Option<i128>, since: u64, load: u64) -> Option<i128>
    requires { IfSome settled (λ z. clock.is_clock z ≡ true) }
    ensures value { result ≡ clock.later settled (pos (clock.parts_up since load)) }
    ensures kept { IfSome result (λ z. clock.is_clock z ≡ true) }
{
    match settled {
        None => None,
        Some(before) => later(before, parts_up(since, load)),
    }
}

/// What it has come to once all virtual times are lower by a number.
fn lowered(settled: Option<i128>, by: i64) -> Option<i128>
    requires { IfSome settled (λ z. clock.is_clock z ≡ true) }
    ensures value { result ≡ clock.later settled (neg_ℤ (by *ℤ pos (2 ^ 32))) }
    ensures kept { IfSome result (λ z. clock.is_clock z ≡ true) }
{
    match settled {
        None => None,
        Some(before) => later(before, lowering_by(by)),
    }
}

/// A number of parts later by another one. `None` where that is out of range.
fn later(settled: i128, by: i128) -> Option<i128>
    requires kept { clock.is_clock settled ≡ true }
    requires near { unsigned_abs by ≤ 2 ^ 107 }
    ensures value { result ≡ clock.checked_clock (settled +ℤ by) }
    ensures kept { IfSome result (λ z. clock.is_clock z ≡ true) }
{
    let after = settled + by;
    if after < -MOST || MOST < after {
        None
    } else {
        Some(after)
    }
}

/// The parts of a virtual time, below 0.
fn lowering_by(time: i64) -> i128
    ensures value { result ≡ neg_ℤ (time *ℤ pos (2 ^ 32)) }
    ensures few { unsigned_abs result ≤ 2 ^ 107 }
{
    -(i128::from(time) * PARTS)
}

/// The parts of a virtual time.
fn parts_of(time: i64) -> i128
    ensures value { result ≡ time *ℤ pos (2 ^ 32) }
    ensures few { unsigned_abs result ≤ 2 ^ 96 }
{
    i128::from(time) * PARTS
}

/// How far a clock that has gone on by so many parts is past a virtual runtime.
fn beside(settled: i128, v: i64, gone: i128) -> i128
    requires kept { clock.is_clock settled ≡ true }
    requires few { unsigned_abs gone ≤ 2 ^ 107 }
    ensures value { result ≡ (settled -ℤ (v *ℤ pos (2 ^ 32))) +ℤ gone }
    ensures few { unsigned_abs result ≤ 2 ^ 108 }
{
    settled - parts_of(v) + gone
}

/// The parts of so many nanoseconds at a load, rounded up.
#[tactic(auto, using(crate::proofs::Parts::few))]
fn parts_up(ns: u64, load: u64) -> i128
    ensures value { result ≡ pos (clock.parts_up ns load) }
    ensures few { clock.parts_up ns load ≤ 2 ^ 107 }
{
    if load == 0 {
        return 0;
    }
    let load = u128::from(load);
    ((u128::from(ns) * NS_PARTS + (load - 1)) / load) as i128
}

/// The parts of so many nanoseconds at a load, rounded down.
#[tactic(auto, using(crate::proofs::Parts::fewer))]
fn parts_down(ns: u64, load: u64) -> i128
    ensures value { result ≡ pos (clock.parts_down ns load) }
    ensures few { clock.parts_down ns load ≤ 2 ^ 107 }
{
    if load == 0 {
        return 0;
    }
    (u128::from(ns) * NS_PARTS / u128::from(load)) as i128
}

/// What a weight lacks between a mark and where it stands. `None` where the mark is none of a clock.
fn lack_between(standing: i128, mark: ShareMark, weight: u64) -> Option<u128>
    requires light { weight ≤ 88761 }
    requires few { unsigned_abs standing ≤ 2 ^ 108 }
    ensures { result ≡ clock.lack_between standing mark weight }
{
    if mark.standing < -FARTHEST || FARTHEST < mark.standing {
        return None;
    }
    Some(lack_of(standing - mark.standing, weight))
}

/// The nanoseconds that a weight lacks by so many parts, rounded up.
fn lack_of(by: i128, weight: u64) -> u128
    requires light { weight ≤ 88761 }
    requires few { unsigned_abs by ≤ 2 ^ 109 }
    ensures { result ≡ clock.lack_of by weight }
{
    let Ok(by) = u128::try_from(by) else {
        return 0;
    };
    (by * u128::from(weight) + (NS_PARTS - 1)) / NS_PARTS
}
