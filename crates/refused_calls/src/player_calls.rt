//! The player of an order of steps.

use crate::called::{called, say};
use crate::player_lines::say_player;
use crate::stopped::Stopped;
use crate::text_calls::{say_fault, say_outcome};
use eevdf_bench::{BenchFault, Workload};
use eevdf_ops::{Outcome, Setup};
use eevdf_steps::{PlayFault, Player, play};
use std::alloc::Global;

/// No workload here has programs of more steps.
const MOST_STEPS: u64 = 1000;

/// More callers than any player has.
const CALLERS: usize = 65;

/// The workload's order, played; it is empty where the workload has none.
pub fn play_calls(rt: &impl Print, alloc: Global, workload: &Workload) -> Result<(), Stopped> {
    let order = workload.order().unwrap_or(&[]);
    let played = called!(
        rt,
        "play",
        Err(PlayFault::Memory),
        play(alloc, workload.setup(), order)
    );
    match played {
        Ok(outcome) => say_outcome(rt, alloc, &outcome),
        Err(fault) => say_fault(rt, alloc, &BenchFault::Play(fault)),
    }
}

/// Opens a player, and lets the callers do their programs step by step.
pub fn player_calls(rt: &impl Print, alloc: Global, setup: &Setup) -> Result<(), Stopped> {
    let player = called!(rt, "Player::open", Err(_), Player::open(alloc, setup))?;
    say(rt, "-- opened");
    let outcome = played_to_the_end(rt, player);
    say(rt, "-- closed");
    match outcome {
        Some(outcome) => say_outcome(rt, alloc, &outcome),
        None => Err(Stopped),
    }
}

/// Asks for the outcome after each round of steps. A player that isn't done comes back, and goes on.
fn played_to_the_end(rt: &impl Print, mut player: Player) -> Option<Outcome> {
    for _round in 0..MOST_STEPS {
        match player.outcome() {
            Ok(outcome) => return Some(outcome),
            Err(unfinished) => player = unfinished,
        }
        say_player(rt, &player);
        step_all(&mut player);
    }
    None
}

/// Lets each caller do its next step, where it may do one. Callers that may not, and one that there isn't, are asked too.
fn step_all(player: &mut Player) {
    for caller in 0..CALLERS {
        let _ = player.next(caller);
        let _ = player.step(caller);
        let _ = player.ready();
    }
}
