//! Tasks in blocks of memory that the caller gives, and gets back.

ghost use Rattle.std.specs.Prelude.{◌≡◌, Some, false};
ghost use Rattle.eevdf_c.specs.Errors.{KeepsOnError};
ghost use Rattle.eevdf_c.specs.Admit as admits;
ghost use Rattle.eevdf_c.specs.Blocks as blocks;

use crate::calls::coming::{NewTask, checked, refusal_code};
use crate::calls::leaving::taken_out;
use crate::codes::{ABSENT, BUSY, DONE, INVALID, NO_MEMORY, PRESENT};
use crate::given_block::GivenBlock;
use crate::hand::Hand;
use crate::opened::Opened;
use eevdf_queue::{Block, Parcel, Queue, Refused, TaskId};

/// Makes a task runnable that starts at a virtual runtime, with a fresh request, in a block that the caller gives.
pub fn admit_in(
    opened: &mut Opened,
    block: &mut GivenBlock,
    number: u64,
    level: i64,
    slice_ns: u64,
    start: i64,
) -> i64
    ensures answer { result
        ≡ (blocks.admit opened.old block.old number level slice_ns start).answer }
    ensures queue { opened.new
        ≡ (blocks.admit opened.old block.old number level slice_ns start).queue }
    ensures block { block.new
        ≡ (blocks.admit opened.old block.old number level slice_ns start).block }
    ensures kept { KeepsOnError result opened.old opened.new }
    ensures held { KeepsOnError result block.old block.new }
{
    match checked(number, level, slice_ns, start) {
        Some(new) => admit_checked_in(opened, &mut block.block, new),
        None => INVALID,
    }
}

/// Makes it runnable, where it isn't here and there is a block.
fn admit_checked_in(opened: &mut Opened, block: &mut Block, new: NewTask) -> i64
    ensures answer { let p = admits.contents new.task new.nice new.slice new.start in
        result ≡ (blocks.admit_by opened.old block.old (Some p)).answer }
    ensures queue { let p = admits.contents new.task new.nice new.slice new.start in
        opened.new ≡ (blocks.admit_by opened.old block.old (Some p)).queue }
    ensures block { let p = admits.contents new.task new.nice new.slice new.start in
        block.new ≡ (blocks.admit_by opened.old block.old (Some p)).block }
{
    if opened.queue.contains(new.task) {
        return PRESENT;
    }
    match Parcel::make_in(
        opened.alloc,
        block,
        new.task,
        new.nice,
        new.slice,
        new.start,
    ) {
        Some(parcel) => admit_parcel_in(&mut opened.queue, block, parcel),
        None => NO_MEMORY,
    }
}

/// Makes the task of a parcel runnable. Where that can't be, the task ends, and its block comes back.
fn admit_parcel_in(queue: &mut Queue, block: &mut Block, parcel: Parcel) -> i64
    requires { block.old ≡ false }
    ensures answer { result ≡ (blocks.admit_given queue.old.state parcel).answer }
    ensures queue { queue.new.state ≡ (blocks.admit_given queue.old.state parcel).queue }
    ensures block { block.new ≡ (blocks.admit_given queue.old.state parcel).block }
{
    match queue.try_admit(parcel) {
        Ok(()) => DONE,
        Err(Refused { parcel, reason }) => {
            parcel.retire_into(block);
            refusal_code(reason)
        }
    }
}

/// A task ends, runnable or asleep, and the caller gets a block back.
pub fn end_out(opened: &mut Opened, block: &mut GivenBlock, number: u64) -> i64
    ensures answer { result ≡ (blocks.end opened.old block.old number).answer }
    ensures queue { opened.new ≡ (blocks.end opened.old block.old number).queue }
    ensures block { block.new ≡ (blocks.end opened.old block.old number).block }
    ensures kept { KeepsOnError result opened.old opened.new }
    ensures held { KeepsOnError result block.old block.new }
{
    let Some(task) = TaskId::new(number) else {
        return INVALID;
    };
    if block.block.is_some(opened.alloc) {
        return BUSY;
    }
    end_task_out(&mut opened.queue, &mut block.block, task)
}

/// Ends a task, where it is here, and its block is given back.
fn end_task_out(queue: &mut Queue, block: &mut Block, task: TaskId) -> i64
    requires { block.old ≡ false }
    ensures answer { result ≡ (blocks.end_by queue.old.state false (Some task)).answer }
    ensures queue { queue.new.state ≡ (blocks.end_by queue.old.state false (Some task)).queue }
    ensures block { block.new ≡ (blocks.end_by queue.old.state false (Some task)).block }
{
    match taken_out(queue, task) {
        Some(parcel) => {
            parcel.retire_into(block);
            DONE
        }
        None => ABSENT,
    }
}

/// The task of a hand ends, and the caller gets a block back.
pub fn hand_end_out(hand: &mut Hand, block: &mut GivenBlock) -> i64
    ensures answer { result ≡ (blocks.end_held hand.old block.old).answer }
    ensures hand { hand.new ≡ (blocks.end_held hand.old block.old).hand }
    ensures block { block.new ≡ (blocks.end_held hand.old block.old).block }
    ensures kept { KeepsOnError result hand.old hand.new }
    ensures held { KeepsOnError result block.old block.new }
{
    if block.block.is_some(hand.alloc) {
        return BUSY;
    }
    match hand.parcel.take() {
        Some(parcel) => {
            parcel.retire_into(&mut block.block);
            DONE
        }
        None => ABSENT,
    }
}
