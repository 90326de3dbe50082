//! Seats of the least and the most room, rings of the least and the most room, and as many seats as there may be.

use super::outcome_of_calls;
use super::seat_call::Done;
use crate::fixtures;
use eevdf_ops::{Op, Outcome};
use std::alloc::Global;
use std::process::Abort;
use std::sync::Wait;

/// So many lines each CPU may have, and so many requests a ring may have room for.
const MOST: usize = 1_000_000;

/// Two CPUs with one task of CPU 0.
const TWO_CPUS: &[u8] = b"version = 1\nprogram = [[], []]\n[[task]]\n";

/// Sixty-four CPUs with a task of CPU 0 that sleeps.
const SIXTY_FOUR_CPUS: &[u8] =
    b"version = 2\nprogram = [[], [], [], [], [], [], [], [], [], [], [], [], [], [], [], [], [], [], [], [], [], [], [], [], [], [], [], [], [], [], [], [], [], [], [], [], [], [], [], [], [], [], [], [], [], [], [], [], [], [], [], [], [], [], [], [], [], [], [], [], [], [], [], []]\n[[task]]\nasleep = true\n[[task]]\nhome = 63\nasleep = true\n";

/// Calls on CPU 1: one that is made so many times, with what comes of it each time, and what comes of it once more.
fn repeated(
    rt: &impl Abort,
    alloc: Global,
    call: Op,
    times: usize,
    done: Done,
    refused: Done,
) -> Vec<(usize, Op, Done)> {
    let mut calls = vec![in alloc; (1, call, done); times].expect(rt, "memory");
    calls.push((1, call, refused)).expect(rt, "memory");
    calls
}

/// What a fleet of two CPUs with this quota comes to, where CPU 1 has room for so many picks and no more.
fn outcome_of_picks<R: Wait + Abort>(rt: &R, alloc: Global, quota: usize) -> Option<Outcome> {
    let calls = repeated(rt, alloc, Op::Pick, quota, Done::Line, Done::SeatFull);
    outcome_of_calls(rt, alloc, TWO_CPUS, quota, 1, &calls)
}

/// What a fleet of two CPUs with these rings comes to, where CPU 1 can post so many requests and no more.
fn outcome_of_posts<R: Wait + Abort>(rt: &R, alloc: Global, rings: usize) -> Option<Outcome> {
    let calls = repeated(
        rt,
        alloc,
        Op::Post(fixtures::task(rt, 0)),
        rings,
        Done::Posted,
        Done::RingFull,
    );
    outcome_of_calls(rt, alloc, TWO_CPUS, 1, rings, &calls)
}

/// How many lines an outcome has.
fn lines(outcome: Option<Outcome>) -> Option<usize> {
    Some(outcome?.history().len())
}

/// How many requests CPU 1 has posted to CPU 0 that weren't drained.
fn left(outcome: Option<Outcome>) -> Option<usize> {
    let outcome = outcome?;
    if outcome.cpus() == 2 {
        Some(outcome.left(1, 0).len())
    } else {
        None
    }
}

#[test]
fn quotas_and_rings_may_be_a_million(rt: HostRuntime) {
    for number in [0, 1, MOST] {
        let lines = lines(outcome_of_picks(&rt, rt.alloc(), number));
        assert!(rt; lines == Some(number), "{number} lines");
        let requests = left(outcome_of_posts(&rt, rt.alloc(), number));
        assert!(rt; requests == Some(number), "{number} requests");
    }
}

/// What sixty-four seats come to that all ask for one task, where its home has so much room for lines and this comes of its drain.
fn outcome_of_drain<R: Wait + Abort>(
    rt: &R,
    alloc: Global,
    (task, home): (u64, usize),
    quota: usize,
    drained: Done,
) -> Option<Outcome> {
    let mut calls = Vec::new(alloc);
    for cpu in 0..64 {
        calls
            .push((cpu, Op::Post(fixtures::task(rt, task)), Done::Posted))
            .expect(rt, "memory");
    }
    calls.push((home, Op::Drain, drained)).expect(rt, "memory");
    outcome_of_calls(rt, alloc, SIXTY_FOUR_CPUS, quota, 1, &calls)
}

#[test]
fn a_drain_takes_a_request_of_each_of_sixty_four_seats(rt: HostRuntime) {
    let all = Done::Drained {
        taken: 64,
        woken: 1,
    };
    for asked in [(0, 0), (1, 63)] {
        for (quota, drained) in [(63, Done::SeatFull), (64, all)] {
            let outcome = outcome_of_drain(&rt, rt.alloc(), asked, quota, drained);
            assert!(rt; outcome.is_some(), "task {}, {quota}", asked.0);
        }
    }
}

/// A drain of sixty-four CPUs needs room for sixty-four lines, also where nothing was posted.
#[test]
fn a_drain_that_takes_nothing_needs_its_room(rt: HostRuntime) {
    let nothing = Done::Drained { taken: 0, woken: 0 };
    for cpu in [0, 63] {
        let calls = [
            (cpu, Op::Drain, nothing),
            (cpu, Op::Pick, Done::Line),
            (cpu, Op::Drain, Done::SeatFull),
        ];
        let outcome = outcome_of_calls(&rt, rt.alloc(), SIXTY_FOUR_CPUS, 64, 1, &calls);
        let lines = lines(outcome);
        assert!(rt; lines == Some(1), "CPU {cpu}");
    }
}
