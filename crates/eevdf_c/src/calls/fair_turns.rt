//! Who runs in a queue with bounds beside it, what is charged, and how the virtual times of all become smaller. Each call does to the queue
//! what that without bounds does, and an error changes nothing.

ghost use Rattle.std.specs.Prelude.{◌≡◌, ◌↔◌, ℕ, pos, true, IfSome};
ghost use Rattle.std.specs.FinMap as map;
ghost use Rattle.eevdf_weight.specs.Limits.{is_in_range};
ghost use Rattle.eevdf_queue.specs.{Pick.IsPick, Sums.virtual_time};
ghost use Rattle.eevdf_queue.specs.Rebase as rebases;
ghost use Rattle.eevdf_fair_queue.specs.Fair.{IsFair};
ghost use Rattle.eevdf_c.specs.Codes.{absent, done};
ghost use Rattle.eevdf_c.specs.Errors.{KeepsOnError};
ghost use Rattle.eevdf_c.specs.Fair as fairs;
ghost use Rattle.eevdf_c.specs.Tick as ticks;
ghost use Rattle.eevdf_c.specs.Turns as turns;

use crate::calls::{changing, turns};
use crate::codes::INVALID;
use crate::fair_bounds::FairBounds;
use crate::opened::Opened;
use eevdf_queue::Entry;
use eevdf_queue::laws::{every_queue, pick_is_first, pick_of_nobody};
use eevdf_weight::Ns;

/// Lets the eligible task of earliest virtual deadline run, and its turn begin.
pub fn pick(bounds: &mut FairBounds, opened: &mut Opened) -> i64
    ensures answer { result ≡ (turns.pick opened.old).0 }
    ensures bounds { bounds.new ≡ fairs.pick bounds.old opened.old }
    ensures after { opened.new ≡ (turns.pick opened.old).1 }
    ensures picked { (t : ℕ) → result ≡ pos t → IsPick opened.old.runnable t }
    ensures nobody { (result ≡ absent) ↔ (opened.old.runnable ≡ map.empty) }
    ensures fair { IsFair opened.old bounds.old → IsFair opened.new bounds.new }
    ensures kept { KeepsOnError result opened.old opened.new }
    ensures steady { KeepsOnError result bounds.old bounds.new }
{
    pick_is_first();
    pick_of_nobody();
    let code = turns::pick(opened);
    if 0 <= code {
        bounds.kept = bounds.kept.picked();
    }
    code
}

/// Lets a runnable task run, whichever a pick would choose.
pub fn run(bounds: &mut FairBounds, opened: &mut Opened, number: u64) -> i64
    ensures answer { result ≡ (turns.run opened.old number).0 }
    ensures bounds { bounds.new ≡ fairs.run bounds.old opened.old number }
    ensures after { opened.new ≡ (turns.run opened.old number).1 }
    ensures fair { IsFair opened.old bounds.old → IsFair opened.new bounds.new }
    ensures kept { KeepsOnError result opened.old opened.new }
    ensures steady { KeepsOnError result bounds.old bounds.new }
{
    let code = turns::run(opened, number);
    bounds.kept = bounds.kept.adopted(0 <= code);
    code
}

/// Charges the running task for `ns` nanoseconds.
pub fn tick(bounds: &mut FairBounds, opened: &mut Opened, ns: u64) -> i64
    ensures answer { result ≡ (ticks.tick opened.old ns).0 }
    ensures bounds { bounds.new ≡ fairs.tick bounds.old opened.old ns }
    ensures after { opened.new ≡ (ticks.tick opened.old ns).1 }
    ensures fair { IsFair opened.old bounds.old → IsFair opened.new bounds.new }
    ensures kept { KeepsOnError result opened.old opened.new }
    ensures steady { KeepsOnError result bounds.old bounds.new }
{
    let Some(length) = Ns::new(ns) else {
        return INVALID;
    };
    every_queue(&opened.queue);
    let tick = turns::tick_from(opened, length);
    every_queue(&opened.queue);
    charge(bounds, tick.code, length, tick.before);
    tick.code
}

/// Makes bounds those after a tick that was answered so, with the entry that whoever runs had before it. An error leaves them.
fn charge(bounds: &mut FairBounds, code: i64, ns: Ns, runner: Option<Entry>)
    requires { IfSome runner (λ e. is_in_range e.v ≡ true) }
    ensures { bounds.new ≡ fairs.charged_with bounds.old code ns runner }
{
    if 0 <= code {
        bounds.kept.charge_from(ns, runner);
    }
}

/// Lowers all virtual times by one number, which `by` gets, so that the virtual time is 0.
pub fn rebase(bounds: &mut FairBounds, opened: &mut Opened, by: &mut i64) -> i64
    ensures answer { result ≡ done }
    ensures bounds { bounds.new ≡ fairs.rebase bounds.old opened.old }
    ensures after { opened.new ≡ (rebases.rebase opened.old).1 }
    ensures told { by.new ≡ (rebases.rebase opened.old).0 }
    ensures time { rebases.can_rebase opened.old ≡ true → virtual_time opened.new ≡ pos 0 }
    ensures fair { IsFair opened.old bounds.old → IsFair opened.new bounds.new }
{
    every_queue(&opened.queue);
    let code = changing::rebase(opened, by);
    every_queue(&opened.queue);
    bounds.kept = bounds.kept.lowered(*by);
    code
}
