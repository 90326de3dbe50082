//! Turns of a queue.

ghost use Rattle.std.specs.Prelude.{◌≡◌, ℕ, ℤ, map};
ghost use Rattle.eevdf_queue.specs.Pick.{view_after_pick};
ghost use Rattle.eevdf_fairness.specs.Fair.{AllAreFair};
ghost use Rattle.eevdf_fairness.specs.Turns.{AreNoLonger, IsFresh, after_turn, after_turns};

use crate::laws::turns_are_fair;
use eevdf_queue::Queue;
use eevdf_weight::Ns;

/// Takes a turn: picks, and charges the task picked for each of these times. Where nothing is runnable nothing happens. How far the pick
/// went down in the tree (`Queue::pick_steps`) is as that pick left it.
pub fn take_turn(queue: &mut Queue, ticks: &[Ns])
    ensures state { queue.new.state ≡ after_turn queue.old.state ticks.now }
    ensures turns { queue.new.pick_depth ≡ (view_after_pick queue.old).pick_depth }
{
    let _picked = queue.pick();
    for ns in ticks {
        let _answer = queue.tick(*ns);
    }
}

/// Takes turns, one after the other. Where all tasks stood at one virtual runtime with fresh requests, each is fair afterwards.
pub fn take_turns(queue: &mut Queue, turns: &[Vec<Ns>])
    ensures state { queue.new.state ≡ after_turns queue.old.state (map (λ t. t.items) turns.now) }
    ensures fair { (v : ℤ) (ns : ℕ) → IsFresh v queue.old.state.runnable
        → AreNoLonger ns (map (λ t. t.items) turns.now) → AllAreFair ns queue.new.state.runnable }
{
    turns_are_fair();
    take_each(queue, turns);
}

fn take_each(queue: &mut Queue, turns: &[Vec<Ns>])
    ensures { queue.new.state ≡ after_turns queue.old.state (map (λ t. t.items) turns.now) }
{
    for turn in turns {
        take_turn(queue, turn);
    }
}
