//! What is kept beside a seat, by deeds that are handed over.

use crate::kits::{ns, task};
use eevdf_fair_seat::SeatBound;
use eevdf_ops::{CpuId, Deed};
use eevdf_weight::Nice;
use std::process::Abort;

fn cpu(rt: &impl Abort) -> CpuId {
    CpuId::new(1).expect(rt, "a CPU's number")
}

fn nice(rt: &impl Abort, level: i64) -> Nice {
    Nice::new(level).expect(rt, "a nice level")
}

fn tick(rt: &impl Abort, bound: &mut SeatBound, time: u64) {
    bound.see(Deed::Tick {
        cpu: cpu(rt),
        ns: ns(rt, time),
    });
}

fn pick(rt: &impl Abort, bound: &mut SeatBound) {
    bound.see(Deed::Pick { cpu: cpu(rt) });
}

/// Before anything is handed over no turn has been.
#[test]
fn a_fresh_one_knows_no_turn(rt: HostRuntime) {
    let rt = &rt;
    let bound = SeatBound::fresh();
    assert_eq!(rt; bound.longest_turn(), Some(0));
    assert_eq!(rt; bound.lateness_bound(nice(rt, 19)), Some(0));
}

/// A turn of 4 and 6 ms, a doze in it, and a shorter one: for 10 ms a task of level 0 is charged 10000000, and one of level 19, which weighs
/// 15, 1024 / 15 times that.
#[test]
fn the_longest_turn_is_the_bound(rt: HostRuntime) {
    let rt = &rt;
    let mut bound = SeatBound::fresh();
    pick(rt, &mut bound);
    tick(rt, &mut bound, 4_000_000);
    bound.see(Deed::Doze {
        cpu: cpu(rt),
        task: task(rt, 0),
    });
    tick(rt, &mut bound, 6_000_000);
    pick(rt, &mut bound);
    tick(rt, &mut bound, 3_000_000);
    assert_eq!(rt; bound.turn, 3_000_000);
    assert_eq!(rt; bound.longest_turn(), Some(10_000_000));
    assert_eq!(rt; bound.lateness_bound(nice(rt, 0)), Some(10_000_000));
    assert_eq!(rt; bound.lateness_bound(nice(rt, 19)), Some(682_666_666));
}

/// Where 64 bits don't hold a turn, no longest one is known any more, and no bound.
#[test]
fn a_turn_that_is_too_long_is_not_known(rt: HostRuntime) {
    let rt = &rt;
    let mut bound = SeatBound {
        turn: u64::MAX - 2,
        longest: u64::MAX - 2,
    };
    tick(rt, &mut bound, 1);
    assert_eq!(rt; bound.longest_turn(), Some(u64::MAX - 1));
    tick(rt, &mut bound, 1);
    assert_eq!(rt; bound.longest_turn(), None);
    pick(rt, &mut bound);
    assert_eq!(rt; bound.turn, 0);
    assert_eq!(rt; bound.lateness_bound(nice(rt, 0)), None);
}
