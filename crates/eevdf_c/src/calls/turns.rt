//! Who runs, and what is charged.

ghost use Rattle.std.specs.Prelude.{◌≡◌, ◌<ℤ◌, ◌↔◌, ℕ, pos, Some, None};
ghost use Rattle.std.specs.FinMap as map;
ghost use Rattle.eevdf_queue.specs.{Pick.IsPick, TimeToResched.IsShortest};
ghost use Rattle.eevdf_queue.specs.Tick as queue_ticks;
ghost use Rattle.eevdf_c.specs.Codes.{absent};
ghost use Rattle.eevdf_c.specs.Errors.{KeepsOnError};
ghost use Rattle.eevdf_c.specs.Turns as turns;
ghost use Rattle.eevdf_c.specs.Tick as ticks;
ghost use Rattle.eevdf_c.specs.TimeToResched.{uses_up};
ghost use Rattle.eevdf_c.specs.Yield as yields;

use crate::codes::{ABSENT, DONE, INVALID, RANGE, TIME_TO_PICK};
use crate::opened::Opened;
use eevdf_queue::{Entry, TaskId, TickAnswer, YieldAnswer};
use eevdf_weight::Ns;

/// What a charge is answered with, and the entry that whoever ran had before it.
#[derive(Clone, Copy)]
pub struct TickCode {
    pub code: i64,
    pub before: Option<Entry>,
}

/// The number of a task, and `ABSENT` where there is none.
pub fn task_or_absent(task: Option<TaskId>) -> i64
    ensures { result ≡ turns.task_code task }
{
    match task {
        Some(task) => task.get() as i64,
        None => ABSENT,
    }
}

/// Lets the eligible task of earliest virtual deadline run.
#[tactic(auto, using(crate::proofs::TaskCodes::absent_of_none, crate::proofs::TaskCodes::said_of_code))]
pub fn pick(opened: &mut Opened) -> i64
    ensures answer { result ≡ (turns.pick opened.old).0 }
    ensures after { opened.new ≡ (turns.pick opened.old).1 }
    ensures picked { (t : ℕ) → result ≡ pos t → IsPick opened.old.runnable t }
    ensures nobody { (result ≡ absent) ↔ (opened.old.runnable ≡ map.empty) }
    ensures kept { KeepsOnError result opened.old opened.new }
{
    task_or_absent(opened.queue.pick())
}

/// The task that a pick would let run.
#[tactic(auto, using(crate::proofs::TaskCodes::absent_of_none, crate::proofs::TaskCodes::said_of_code))]
pub fn peek(opened: &Opened) -> i64
    ensures answer { result ≡ turns.peek opened.now }
    ensures picked { (t : ℕ) → result ≡ pos t → IsPick opened.now.runnable t }
    ensures nobody { (result ≡ absent) ↔ (opened.now.runnable ≡ map.empty) }
{
    task_or_absent(opened.queue.peek())
}

/// Lets a runnable task run, whichever a pick would choose.
pub fn run(opened: &mut Opened, number: u64) -> i64
    ensures answer { result ≡ (turns.run opened.old number).0 }
    ensures after { opened.new ≡ (turns.run opened.old number).1 }
    ensures kept { KeepsOnError result opened.old opened.new }
{
    let Some(task) = TaskId::new(number) else {
        return INVALID;
    };
    if !opened.queue.adopt(task) {
        return ABSENT;
    }
    DONE
}

/// Lets nobody run.
pub fn stop(opened: &mut Opened) -> i64
    ensures answer { result ≡ (turns.stop opened.old).0 }
    ensures after { opened.new ≡ (turns.stop opened.old).1 }
    ensures kept { KeepsOnError result opened.old opened.new }
{
    task_or_absent(opened.queue.stop_running())
}

/// Charges the running task for `ns` nanoseconds.
pub fn tick(opened: &mut Opened, ns: u64) -> i64
    ensures answer { result ≡ (ticks.tick opened.old ns).0 }
    ensures after { opened.new ≡ (ticks.tick opened.old ns).1 }
    ensures kept { KeepsOnError result opened.old opened.new }
{
    match Ns::new(ns) {
        Some(ns) => tick_code(opened.queue.tick(ns)),
        None => INVALID,
    }
}

/// Charges the running task, and tells besides the entry that it had before.
pub fn tick_from(opened: &mut Opened, ns: Ns) -> TickCode
    ensures code { result.code ≡ ticks.tick_code (queue_ticks.tick opened.old ns).0 }
    ensures before { result.before ≡ queue_ticks.running_entry opened.old }
    ensures after { opened.new ≡ (queue_ticks.tick opened.old ns).1 }
    ensures kept { KeepsOnError result.code opened.old opened.new }
{
    let tick = opened.queue.tick_from(ns);
    TickCode {
        code: tick_code(tick.answer),
        before: tick.before,
    }
}

fn tick_code(answer: TickAnswer) -> i64
    ensures { result ≡ ticks.tick_code answer }
{
    match answer {
        TickAnswer::Charged { resched: true, .. } => TIME_TO_PICK,
        TickAnswer::Charged { resched: false, .. } => DONE,
        TickAnswer::Idle => ABSENT,
        TickAnswer::Range => RANGE,
    }
}

/// The shortest tick that uses up the running task's request, and `ABSENT` where none does.
pub fn time_to_resched(opened: &Opened) -> i64
    ensures shortest { (ns : ℕ) → result ≡ pos ns → IsShortest (uses_up opened.now) (Some ns) }
    ensures never { result <ℤ pos 0 → (result ≡ absent) × IsShortest (uses_up opened.now) None }
{
    let Some(ns) = opened.queue.time_to_resched() else {
        return ABSENT;
    };
    ns.get() as i64
}

/// Makes the running task's deadline one request later.
pub fn yield_now(opened: &mut Opened) -> i64
    ensures answer { result ≡ (yields.yield_now opened.old).0 }
    ensures after { opened.new ≡ (yields.yield_now opened.old).1 }
    ensures kept { KeepsOnError result opened.old opened.new }
{
    match opened.queue.yield_now() {
        YieldAnswer::Yielded => DONE,
        YieldAnswer::Idle => ABSENT,
        YieldAnswer::Range => RANGE,
    }
}
