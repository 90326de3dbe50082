//! How a task becomes runnable in a queue with bounds beside it, and how it gets another level or slice. Each call does to the queue what
//! that without bounds does, and an error changes nothing.

ghost use Rattle.std.specs.Prelude.{◌≡◌};
ghost use Rattle.std.specs.FinMap as map;
ghost use Rattle.eevdf_fair_queue.specs.Bounds as kept;
ghost use Rattle.eevdf_fair_queue.specs.Fair.{IsFair};
ghost use Rattle.eevdf_c.specs.Errors.{KeepsOnError};
ghost use Rattle.eevdf_c.specs.Admit as admits;
ghost use Rattle.eevdf_c.specs.Attributes as attributes;
ghost use Rattle.eevdf_c.specs.Blocks as blocks;
ghost use Rattle.eevdf_c.specs.Fair as fairs;
ghost use Rattle.eevdf_c.specs.Hands as hands;
ghost use Rattle.eevdf_c.specs.Renice as renices;
ghost use Rattle.eevdf_c.specs.Wake as wakes;

use crate::calls::{blocks, carrying, changing, coming};
use crate::codes::{ABSENT, INVALID};
use crate::fair_bounds::FairBounds;
use crate::given_block::GivenBlock;
use crate::hand::Hand;
use crate::opened::Opened;
use eevdf_fair_queue::{Bounds, Mark};
use eevdf_queue::laws::{every_queue, pick_is_first, pick_of_nobody};
use eevdf_queue::{Entry, TaskId};

/// Makes a call that touches one task, and makes the bounds those after it.
macro_rules! beside {
    ($bounds:expr, $opened:expr, $task:expr; $call:expr) => {{
        pick_is_first();
        pick_of_nobody();
        every_queue(&$opened.queue);
        let mark = Mark::of(&$opened.queue, $task);
        let code = $call;
        settle($bounds, code, mark, $opened, $task);
        code
    }};
}

/// Makes a task runnable that starts at a virtual runtime, with a fresh request.
pub fn admit(
    bounds: &mut FairBounds,
    opened: &mut Opened,
    number: u64,
    level: i64,
    slice_ns: u64,
    start: i64,
) -> i64
    ensures answer { admits.IsAnswer
        (admits.admit opened.old number level slice_ns start).0 result }
    ensures bounds { bounds.new ≡ fairs.settled bounds.old opened.old number
        (result, admits.after_answer opened.old (admits.admit opened.old number level slice_ns start) result) }
    ensures after { opened.new
        ≡ admits.after_answer opened.old (admits.admit opened.old number level slice_ns start) result }
    ensures fair { IsFair opened.old bounds.old → IsFair opened.new bounds.new }
    ensures kept { KeepsOnError result opened.old opened.new }
    ensures steady { KeepsOnError result bounds.old bounds.new }
{
    let Some(task) = TaskId::new(number) else {
        return INVALID;
    };
    beside!(bounds, opened, task; coming::admit(opened, number, level, slice_ns, start))
}

/// The same in a block that the caller gives.
pub fn admit_in(
    bounds: &mut FairBounds,
    opened: &mut Opened,
    block: &mut GivenBlock,
    number: u64,
    level: i64,
    slice_ns: u64,
    start: i64,
) -> i64
    ensures answer { result
        ≡ (blocks.admit opened.old block.old number level slice_ns start).answer }
    ensures bounds { bounds.new ≡ fairs.settled bounds.old opened.old number (
      (blocks.admit opened.old block.old number level slice_ns start).answer,
      (blocks.admit opened.old block.old number level slice_ns start).queue,
    ) }
    ensures queue { opened.new
        ≡ (blocks.admit opened.old block.old number level slice_ns start).queue }
    ensures block { block.new
        ≡ (blocks.admit opened.old block.old number level slice_ns start).block }
    ensures fair { IsFair opened.old bounds.old → IsFair opened.new bounds.new }
    ensures kept { KeepsOnError result opened.old opened.new }
    ensures held { KeepsOnError result block.old block.new }
    ensures steady { KeepsOnError result bounds.old bounds.new }
{
    let Some(task) = TaskId::new(number) else {
        return INVALID;
    };
    beside!(bounds, opened, task; blocks::admit_in(opened, block, number, level, slice_ns, start))
}

/// The task of a hand becomes runnable, placed with its lag.
pub fn put(bounds: &mut FairBounds, opened: &mut Opened, hand: &mut Hand) -> i64
    ensures answer { result ≡ (hands.put opened.old hand.old).answer }
    ensures bounds { bounds.new ≡ fairs.put bounds.old opened.old hand.old }
    ensures queue { opened.new ≡ (hands.put opened.old hand.old).queue }
    ensures hand { hand.new ≡ (hands.put opened.old hand.old).hand }
    ensures fair { IsFair opened.old bounds.old → IsFair opened.new bounds.new }
    ensures kept { KeepsOnError result opened.old opened.new }
    ensures held { KeepsOnError result hand.old hand.new }
    ensures steady { KeepsOnError result bounds.old bounds.new }
{
    let Some(parcel) = &hand.parcel else {
        return ABSENT;
    };
    let task = parcel.task();
    beside!(bounds, opened, task; carrying::put(opened, hand))
}

/// Makes a task runnable that sleeps here, with the lag that it kept.
pub fn wake(bounds: &mut FairBounds, opened: &mut Opened, number: u64) -> i64
    ensures answer { result ≡ (wakes.wake opened.old number).0 }
    ensures bounds { bounds.new
        ≡ fairs.settled bounds.old opened.old number (wakes.wake opened.old number) }
    ensures after { opened.new ≡ (wakes.wake opened.old number).1 }
    ensures fair { IsFair opened.old bounds.old → IsFair opened.new bounds.new }
    ensures kept { KeepsOnError result opened.old opened.new }
    ensures steady { KeepsOnError result bounds.old bounds.new }
{
    let Some(task) = TaskId::new(number) else {
        return INVALID;
    };
    beside!(bounds, opened, task; changing::wake(opened, number))
}

/// Gives a runnable task another nice level.
pub fn renice(bounds: &mut FairBounds, opened: &mut Opened, number: u64, level: i64) -> i64
    ensures answer { result ≡ (renices.renice opened.old number level).0 }
    ensures bounds { bounds.new
        ≡ fairs.settled bounds.old opened.old number (renices.renice opened.old number level) }
    ensures after { opened.new ≡ (renices.renice opened.old number level).1 }
    ensures fair { IsFair opened.old bounds.old → IsFair opened.new bounds.new }
    ensures kept { KeepsOnError result opened.old opened.new }
    ensures steady { KeepsOnError result bounds.old bounds.new }
{
    let Some(task) = TaskId::new(number) else {
        return INVALID;
    };
    beside!(bounds, opened, task; changing::renice(opened, number, level))
}

/// Gives a task another nice level and slice, runnable or asleep.
pub fn set(
    bounds: &mut FairBounds,
    opened: &mut Opened,
    number: u64,
    level: i64,
    slice_ns: u64,
) -> i64
    ensures answer { result ≡ (attributes.set opened.old number level slice_ns).0 }
    ensures bounds { bounds.new
        ≡ fairs.settled bounds.old opened.old number (attributes.set opened.old number level slice_ns) }
    ensures after { opened.new ≡ (attributes.set opened.old number level slice_ns).1 }
    ensures fair { IsFair opened.old bounds.old → IsFair opened.new bounds.new }
    ensures kept { KeepsOnError result opened.old opened.new }
    ensures steady { KeepsOnError result bounds.old bounds.new }
{
    let Some(task) = TaskId::new(number) else {
        return INVALID;
    };
    beside!(bounds, opened, task; changing::set(opened, number, level, slice_ns))
}

/// Makes bounds those after a call that touched a task and was answered so, with the mark of before. An error leaves them.
fn settle(bounds: &mut FairBounds, code: i64, mark: Option<Mark>, opened: &Opened, task: TaskId)
    ensures { bounds.new ≡ fairs.settled_with bounds.old code mark (map.get opened.now.runnable task) }
{
    if 0 <= code {
        bounds.kept = settled(bounds.kept, mark, opened.queue.entry(task));
    }
}

/// Bounds after a call that touched a task, with the mark of before and the entry of now.
// apart, since the exports would else need a register more than the archive for ARM uses
#[inline(never)]
fn settled(bounds: Bounds, mark: Option<Mark>, now: Option<Entry>) -> Bounds
    ensures { result ≡ kept.settled bounds mark now }
{
    bounds.settled(mark, now)
}
