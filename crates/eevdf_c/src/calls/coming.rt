//! How a task comes into a queue.

ghost use Rattle.std.specs.Prelude.{◌≡◌, Some};
ghost use Rattle.std.specs.Option.{option_map};
ghost use Rattle.eevdf_c.specs.Errors.{KeepsOnError};
ghost use Rattle.eevdf_c.specs.Admit as admits;

use crate::codes::{DONE, INVALID, NO_MEMORY, PRESENT, RANGE};
use crate::opened::Opened;
use eevdf_queue::{Parcel, Queue, Refusal, Refused, TaskId};
use eevdf_weight::{Nice, Slice, is_in_range};

/// A task as its numbers give it.
#[derive(Clone, Copy)]
pub struct NewTask {
    pub(crate) task: TaskId,
    pub(crate) nice: Nice,
    pub(crate) slice: Slice,
    pub(crate) start: i64,
}

/// Makes a task runnable that starts at a virtual runtime, with a fresh request.
pub fn admit(opened: &mut Opened, number: u64, level: i64, slice_ns: u64, start: i64) -> i64
    ensures answer { admits.IsAnswer
        (admits.admit opened.old number level slice_ns start).0 result }
    ensures after { opened.new
        ≡ admits.after_answer opened.old (admits.admit opened.old number level slice_ns start) result }
    ensures kept { KeepsOnError result opened.old opened.new }
{
    match checked(number, level, slice_ns, start) {
        Some(new) => admit_checked(opened, new),
        None => INVALID,
    }
}

/// The task that the numbers give, where each is in its range.
pub fn checked(number: u64, level: i64, slice_ns: u64, start: i64) -> Option<NewTask>
    ensures { option_map (λ n. admits.contents n.task n.nice n.slice n.start) result
        ≡ admits.checked_contents number level slice_ns start }
{
    let task = TaskId::new(number)?;
    let nice = Nice::new(level)?;
    let slice = Slice::new(slice_ns)?;
    if is_in_range(start) {
        Some(NewTask {
            task,
            nice,
            slice,
            start,
        })
    } else {
        None
    }
}

/// Makes it runnable. Memory is asked for only where the task isn't here.
fn admit_checked(opened: &mut Opened, new: NewTask) -> i64
    ensures answer { let p = admits.contents new.task new.nice new.slice new.start in
        admits.IsAnswer (admits.admit_by opened.old (Some p)).0 result }
    ensures after { let p = admits.contents new.task new.nice new.slice new.start in
        opened.new ≡ admits.after_answer opened.old (admits.admit_by opened.old (Some p)) result }
{
    if opened.queue.contains(new.task) {
        return PRESENT;
    }
    match Parcel::make(opened.alloc, new.task, new.nice, new.slice, new.start) {
        Ok(parcel) => admit_parcel(&mut opened.queue, parcel),
        Err(_) => NO_MEMORY,
    }
}

/// Makes the task of a parcel runnable. Where that can't be, the task ends.
fn admit_parcel(queue: &mut Queue, parcel: Parcel) -> i64
    ensures answer { result ≡ (admits.admit_by queue.old.state (Some parcel)).0 }
    ensures after { queue.new.state ≡ (admits.admit_by queue.old.state (Some parcel)).1 }
{
    match queue.try_admit(parcel) {
        Ok(()) => DONE,
        Err(Refused { parcel, reason }) => {
            parcel.retire();
            refusal_code(reason)
        }
    }
}

/// Why a task isn't taken, as a code.
pub fn refusal_code(reason: Refusal) -> i64
    ensures { result ≡ admits.refusal_code reason }
{
    match reason {
        Refusal::Present => PRESENT,
        Refusal::Range => RANGE,
    }
}
