//! Playing a whole order.

ghost use Rattle.std.specs.List.{list_all};
ghost use Rattle.std.specs.Prelude.{◌≡◌, true, IfOk, OnOk};
ghost use Rattle.eevdf_ops.specs.{Followed.FollowsPrograms, Histories.IsOneThread, Machine.start};
ghost use Rattle.eevdf_ops.specs.{Outcome.machine_of};
ghost use Rattle.eevdf_ops.specs.{Places.IsPlaced, Programs.deeds_of, Setup.allows, Setup.homes_of};
ghost use Rattle.eevdf_steps.specs.{Commits.deeds_committed, Orders.IsWhole, Plan.plan_of};
ghost use Rattle.eevdf_steps.specs.{PlayedSteps.IsPlayed, PlayedSteps.IsPlayedOut, Plays.IsPlay};
ghost use Rattle.eevdf_steps.specs.Orders as orders;

use crate::play_fault::PlayFault;
use crate::player::Player;
use crate::step_fault::StepFault;
use eevdf_ops::{Outcome, Setup, laws};
use std::alloc::Global;

/// An order has at most so many places.
pub const MOST_PLACES: usize = 1_000_000;

/// Lets the callers of a setup do their steps in an order, which is a list of callers. An order of more than
/// 1000000 places is refused first. Else its first faulty place is, and where no place is faulty, an order that
/// ends before all callers are done. `Memory` may be answered in place of all but the first.
///
/// Whatever the order, its outcome is that of one thread that does the deeds of the order's commits one after the other,
/// each at once: the same answers, the same queues. The setup allows each of these deeds. The lines of each CPU are its
/// program's operations, in order and each once (a post has no line, a drain the wakes that it found), and each request
/// that was posted was either drained once, in order, or is left. Each task stands in one place.
pub fn play(alloc: Global, setup: &Setup, order: &[usize]) -> Result<Outcome, PlayFault>
    ensures play { IsPlay setup.now order.now result }
    ensures whole { OnOk result
        (IsWhole (plan_of setup.now) (orders.counters_at_start (plan_of setup.now)) order.now) }
    ensures one_thread { IfOk result (λ o. IsOneThread
        (homes_of setup.now) (start setup.now) (deeds_committed setup.now order.now) o) }
    ensures allowed { IfOk result (λ o. list_all (allows setup.now) (deeds_of o.lines) ≡ true) }
    ensures programs { IfOk result (λ o. FollowsPrograms setup.now o) }
    ensures places { IfOk result (λ o. IsPlaced (homes_of setup.now) (machine_of o.queues)) }
{
    laws::start_is_placed(setup);
    if order.len() > MOST_PLACES {
        return Err(PlayFault::TooLong);
    }
    let player = Player::open(alloc, setup)?;
    play_with(player, order)
}

/// The outcome of a player's callers after their steps in an order. Where the order has a fault, that is the answer.
fn play_with(mut player: Player, order: &[usize]) -> Result<Outcome, PlayFault>
    ensures { IsPlayedOut player order.now result }
{
    match play_order(&mut player, order) {
        Some(fault) => Err(fault),
        None => Ok(player.into_outcome()),
    }
}

/// Does the steps of an order up to its first faulty place, whose fault is the answer. Where no place is faulty it is
/// that of an order which ends before all callers are done.
#[tactic(auto, using(std::proofs::lemmas::Grind::common_steps))]
fn play_order(player: &mut Player, order: &[usize]) -> Option<PlayFault>
    ensures { IsPlayed player.old order.now result player.new }
{
    for at in 0..order.len() {
        if let Err(fault) = player.step(order[at]) {
            return Some(fault_at(at, fault));
        }
    }
    let caller = player.unfinished()?;
    Some(PlayFault::Short { caller })
}

fn fault_at(at: usize, fault: StepFault) -> PlayFault
    ensures { result ≡ orders.fault_at at fault }
{
    match fault {
        StepFault::NoCaller => PlayFault::NoCaller { at },
        StepFault::Done => PlayFault::Done { at },
        StepFault::Blocked { cpu, .. } => PlayFault::Blocked { at, cpu },
    }
}
