//! Laws of a player, each the contract of a function that does nothing.

ghost use Rattle.std.specs.Prelude.{◌≡◌};
ghost use Rattle.eevdf_steps.specs.{Orders.WholeIsPlayed, Plan.plan_of};
ghost use Rattle.eevdf_steps.specs.Players.{EachInOnePlace, EachSleepsAtHome, OneHolder};

use crate::player::Player;
use eevdf_ops::Setup;
use eevdf_ops::laws::start_is_placed;

/// At every moment each task of the setup stands in one place: runnable on one CPU, asleep on one, or in one
/// caller's hand. No other number stands anywhere.
pub fn every_task_in_one_place(player: &Player)
    ensures { EachInOnePlace player.now }
{
    player.keeps();
}

/// At every moment a task that sleeps is at its home, in each player of a setup.
pub fn every_task_sleeps_at_home(setup: &Setup, player: &Player)
    ensures { player.now.plan ≡ plan_of setup.now → EachSleepsAtHome player.now }
{
    start_is_placed(setup);
    Player::keeps(player);
}

/// At every moment at most one caller holds the lock of each CPU.
pub fn one_holder(player: &Player)
    ensures { OneHolder player.now }
{
    player.keeps()
}

/// An order of at most 1000000 places has no fault where at each place it names a caller that may step, and after it
/// every caller is done.
#[tactic(auto, using(crate::proofs::LawfulOrders::whole_is_played))]
pub fn whole_orders_are_played()
    ensures { WholeIsPlayed }
{}
