//! Making an order by playing it.

ghost use Rattle.std.specs.Prelude.{◌≡◌, ◌-◌, ◌<◌, ◌≤◌, true, is_some, ℕ, List, Err, None, Some, IfOk};
ghost use Rattle.eevdf_orders.specs.{CallerSteps.IsStepAmong, CallerSteps.IsStepFrom, ChosenOrders.IsChosen};
ghost use Rattle.eevdf_orders.specs.FaultLines.{order_fault_text};
ghost use Rattle.eevdf_steps.specs.{Counters.ready, Orders.play_fault, Plan.callers, Plan.plan_of};
ghost use Rattle.eevdf_steps.specs.{Players.player_start};

use crate::caller_choice::Choice;
use eevdf_ops::Setup;
use eevdf_steps::{MOST_PLACES, Player};
use std::alloc::Global;
use std::error::Error;
use std::fmt;

/// Why no order was made.
#[derive(Clone, Copy, PartialEq, Eq, Debug)]
pub enum OrderFault {
    /// Out of memory.
    Memory,
    /// The callers have more than `MOST_PLACES` steps to do.
    TooLong,
}

/// What is wrong, as the workbench says it of an order.
impl fmt::Display for OrderFault {
    ghost output = { λ fault. Some (order_fault_text fault) };

    fn fmt<W: fmt::Write>(&self, f: &mut fmt::Formatter<W>) -> fmt::Result {
        match self {
            OrderFault::Memory => f.write_str("memory"),
            OrderFault::TooLong => write!(f, "order longer than {MOST_PLACES}"),
        }
    }
}

impl Error for OrderFault {}

/// An order in which the callers of a setup can do all their steps: at each place the next caller that may step, going
/// around from the one with whom the choice begins, and at the end every caller is done. `TooLong` comes only where every
/// order has a fault; out of memory may come in place of all.
pub fn order_of(alloc: Global, setup: &Setup, choice: Choice) -> Result<Vec<usize>, OrderFault>
    ensures faultless { IfOk result (λ order. play_fault (plan_of setup.now) order.items ≡ None) }
    ensures chosen { IfOk result (λ order. IsChosen (plan_of setup.now) choice order.items) }
    ensures too_long { result ≡ Err OrderFault.TooLong → (order : List ℕ) →
        is_some (play_fault (plan_of setup.now) order) ≡ true }
{
    let Ok(mut player) = Player::open(alloc, setup) else {
        return Err(OrderFault::Memory);
    };
    played_order(alloc, setup, &mut player, choice)
}

/// That order, as a player at the start is played by it.
fn played_order(
    alloc: Global,
    setup: &Setup,
    player: &mut Player,
    mut choice: Choice,
) -> Result<Vec<usize>, OrderFault>
    requires { player.old ≡ player_start setup.now }
    ensures faultless { IfOk result (λ order. play_fault (plan_of setup.now) order.items ≡ None) }
    ensures chosen { IfOk result (λ order. IsChosen (plan_of setup.now) choice order.items) }
    ensures too_long { result ≡ Err OrderFault.TooLong → (order : List ℕ) →
        is_some (play_fault (plan_of setup.now) order) ≡ true }
{
    let count = setup.cpus();
    let mut order = Vec::new(alloc);
    let mut last = count - 1;
    for _place in 0..MOST_PLACES {
        if player.ready().is_none() {
            return Ok(order);
        }
        last = step_from(player, count, choice.first(count, last));
        if order.push(last).is_err() {
            return Err(OrderFault::Memory);
        }
    }
    match player.ready() {
        None => Ok(order),
        Some(_) => Err(OrderFault::TooLong),
    }
}

/// Does the next step of the next caller that may step: the search goes around from one on.
fn step_from(player: &mut Player, count: usize, first: usize) -> usize
    requires count { count ≡ callers player.old.plan }
    requires first { first < count }
    requires some { is_some (ready player.old.plan player.old.state.progress.counters) ≡ true }
    ensures { IsStepFrom player.old first result player.new }
{
    if let Some(caller) = step_among(player, first, count) {
        return caller;
    }
    match step_among(player, 0, first) {
        Some(caller) => caller,
        None => unreachable!(),
    }
}

/// Does the next step of the first caller, of those from one to before another, that may step.
fn step_among(player: &mut Player, from: usize, end: usize) -> Option<usize>
    requires { from ≤ end }
    ensures { IsStepAmong player.old from (end - from) result player.new }
{
    for caller in from..end {
        if player.step(caller).is_ok() {
            return Some(caller);
        }
    }
    None
}
