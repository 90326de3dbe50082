//! How a task comes in a block of memory that the caller gives, and how one ends whose block the caller gets back.

ghost use Rattle.std.specs.Prelude.{◌≡◌, Bool, Option};
ghost use Rattle.std.specs.Borrow.{sem};
ghost use Rattle.eevdf_queue.specs.State.{State, Contents};
ghost use Rattle.eevdf_c.specs.Memory.{block_at, hand_at, queue_at};
ghost use Rattle.eevdf_c.specs.Errors.{KeepsOnError};
ghost use Rattle.eevdf_c.specs.Blocks as blocks;

use crate::calls;
use crate::given_block::GivenBlock;
use crate::hand::Hand;
use crate::opened::Opened;

/// Makes a task runnable that starts at a virtual runtime, with a fresh request, in the memory of `block`, which is the queue's then.
/// Asks for none. Answers 0. `INVALID`: a number is out of its range; `PRESENT`: the task is here already; `NO_MEMORY`: there is no
/// block; `RANGE`: its deadline would be out of range.
#[unsafe(no_mangle)]
pub unsafe extern "C" fn eevdf_admit_in(
    queue: *mut u8,
    block: *mut u8,
    task: u64,
    nice: i64,
    slice_ns: u64,
    start: i64,
) -> i64
    ghost g: { State × Bool }
    requires* queue { sem 𝓛 (queue_at queue g.0) }
    requires* block { sem 𝓛 (block_at block g.1) }
    ensures* after { sem 𝓛 (queue_at queue (blocks.admit g.0 g.1 task nice slice_ns start).queue) }
    ensures* left { sem 𝓛 (block_at block (blocks.admit g.0 g.1 task nice slice_ns start).block) }
    ensures answer { result ≡ (blocks.admit g.0 g.1 task nice slice_ns start).answer }
    ensures kept { KeepsOnError result g.0 (blocks.admit g.0 g.1 task nice slice_ns start).queue }
    ensures held { KeepsOnError result g.1 (blocks.admit g.0 g.1 task nice slice_ns start).block }
{
    calls::blocks::admit_in(
        &mut *(queue as *mut Opened),
        &mut *(block as *mut GivenBlock),
        task,
        nice,
        slice_ns,
        start,
    )
}

/// A task ends, runnable or asleep, and `block` gets memory back in which a task was. Answers 0. `INVALID`: no task has the number;
/// `BUSY`: there is a block already; `ABSENT`: the task isn't here.
#[unsafe(no_mangle)]
pub unsafe extern "C" fn eevdf_end_out(queue: *mut u8, block: *mut u8, task: u64) -> i64
    ghost g: { State × Bool }
    requires* queue { sem 𝓛 (queue_at queue g.0) }
    requires* block { sem 𝓛 (block_at block g.1) }
    ensures* after { sem 𝓛 (queue_at queue (blocks.end g.0 g.1 task).queue) }
    ensures* left { sem 𝓛 (block_at block (blocks.end g.0 g.1 task).block) }
    ensures answer { result ≡ (blocks.end g.0 g.1 task).answer }
    ensures kept { KeepsOnError result g.0 (blocks.end g.0 g.1 task).queue }
    ensures held { KeepsOnError result g.1 (blocks.end g.0 g.1 task).block }
{
    calls::blocks::end_out(
        &mut *(queue as *mut Opened),
        &mut *(block as *mut GivenBlock),
        task,
    )
}

/// The task of a hand ends, and `block` gets memory back in which a task was. Answers 0, and the hand is empty. `BUSY`: there is a block
/// already; `ABSENT`: the hand is empty.
#[unsafe(no_mangle)]
pub unsafe extern "C" fn eevdf_hand_end_out(hand: *mut u8, block: *mut u8) -> i64
    ghost g: { Option Contents × Bool }
    requires* hand { sem 𝓛 (hand_at hand g.0) }
    requires* block { sem 𝓛 (block_at block g.1) }
    ensures* after { sem 𝓛 (hand_at hand (blocks.end_held g.0 g.1).hand) }
    ensures* left { sem 𝓛 (block_at block (blocks.end_held g.0 g.1).block) }
    ensures answer { result ≡ (blocks.end_held g.0 g.1).answer }
    ensures kept { KeepsOnError result g.0 (blocks.end_held g.0 g.1).hand }
    ensures held { KeepsOnError result g.1 (blocks.end_held g.0 g.1).block }
{
    calls::blocks::hand_end_out(&mut *(hand as *mut Hand), &mut *(block as *mut GivenBlock))
}
