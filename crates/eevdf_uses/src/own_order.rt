//! A player whose callers are stepped by a rule of one's own: the last caller that can take its step goes first.

use crate::machines::task_at;
use eevdf_ops::{CpuId, Op, Outcome, Setup, SetupFault};
use eevdf_steps::Player;
use std::alloc::{AllocError, Global};

/// Plays the programs of a setup, in at most so many steps. `None` where these didn't suffice.
pub fn last_first(
    alloc: Global,
    setup: &Setup,
    steps: usize,
) -> Result<Option<Outcome>, AllocError> {
    let mut player = Player::open(alloc, setup)?;
    for _step in 0..steps {
        if !step_last(&mut player, setup.cpus()) {
            break;
        }
    }
    Ok(player.outcome().ok())
}

/// Steps the last caller that nothing stops. Whether there was one.
fn step_last(player: &mut Player, callers: usize) -> bool {
    for caller in (0..callers).rev() {
        if player.step(caller).is_ok() {
            return true;
        }
    }
    false
}

/// CPU 0 has three tasks and picks one; CPU 1 pulls from it, and picks.
pub fn pull_and_picks(alloc: Global) -> Result<Setup, SetupFault> {
    let picks = program(alloc, &[Op::Pick])?;
    let pulls = program(alloc, &[Op::Pull(CpuId::new(0).unwrap()), Op::Pick])?;
    let task = || task_at(CpuId::new(0).unwrap(), false);
    Setup::make(alloc, &[task(), task(), task()], &[picks, pulls])
}

fn program(alloc: Global, operations: &[Op]) -> Result<Vec<Op>, SetupFault> {
    Ok(Vec::from_slice(alloc, operations)?)
}
