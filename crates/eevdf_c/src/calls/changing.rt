//! How a task wakes, how it gets another nice level, another slice or both, and how it begins anew; and how the virtual times of all become
//! smaller.

ghost use Rattle.std.specs.Prelude.{◌≡◌, pos, true};
ghost use Rattle.eevdf_queue.specs.Rebase as rebases;
ghost use Rattle.eevdf_queue.specs.Sums.{virtual_time};
ghost use Rattle.eevdf_c.specs.Codes.{done};
ghost use Rattle.eevdf_c.specs.Errors.{KeepsOnError};
ghost use Rattle.eevdf_c.specs.Wake as wakes;
ghost use Rattle.eevdf_c.specs.Renice as renices;
ghost use Rattle.eevdf_c.specs.SetSlice as slices;
ghost use Rattle.eevdf_c.specs.Attributes as attributes;

use crate::codes::{ABSENT, DONE, INVALID, PRESENT, RANGE};
use crate::opened::Opened;
use eevdf_queue::{ReniceAnswer, SetAnswer, TaskId, WakeAnswer};
use eevdf_weight::{Nice, Slice};

/// Makes a task runnable that sleeps here, with the lag that it kept.
pub fn wake(opened: &mut Opened, number: u64) -> i64
    ensures answer { result ≡ (wakes.wake opened.old number).0 }
    ensures after { opened.new ≡ (wakes.wake opened.old number).1 }
    ensures kept { KeepsOnError result opened.old opened.new }
{
    let Some(task) = TaskId::new(number) else {
        return INVALID;
    };
    let is_runnable = opened.queue.entry(task).is_some();
    wake_code(opened.queue.wake(task), is_runnable)
}

fn wake_code(answer: WakeAnswer, is_runnable: bool) -> i64
    ensures { result ≡ wakes.wake_code answer is_runnable }
{
    match answer {
        WakeAnswer::Woken => DONE,
        WakeAnswer::Awake if is_runnable => PRESENT,
        WakeAnswer::Awake => ABSENT,
        WakeAnswer::Range => RANGE,
    }
}

/// Gives a runnable task another nice level.
pub fn renice(opened: &mut Opened, number: u64, level: i64) -> i64
    ensures answer { result ≡ (renices.renice opened.old number level).0 }
    ensures after { opened.new ≡ (renices.renice opened.old number level).1 }
    ensures kept { KeepsOnError result opened.old opened.new }
{
    let Some(task) = TaskId::new(number) else {
        return INVALID;
    };
    let Some(nice) = Nice::new(level) else {
        return INVALID;
    };
    match opened.queue.renice(task, nice) {
        ReniceAnswer::Reniced => DONE,
        ReniceAnswer::NotHere => ABSENT,
        ReniceAnswer::Range => RANGE,
    }
}

/// Gives a task another slice, runnable or asleep.
pub fn set_slice(opened: &mut Opened, number: u64, slice_ns: u64) -> i64
    ensures answer { result ≡ (slices.set_slice opened.old number slice_ns).0 }
    ensures after { opened.new ≡ (slices.set_slice opened.old number slice_ns).1 }
    ensures kept { KeepsOnError result opened.old opened.new }
{
    let Some(task) = TaskId::new(number) else {
        return INVALID;
    };
    let Some(slice) = Slice::new(slice_ns) else {
        return INVALID;
    };
    if opened.queue.set_slice(task, slice) {
        DONE
    } else {
        ABSENT
    }
}

/// Gives a task another nice level and slice, runnable or asleep.
pub fn set(opened: &mut Opened, number: u64, level: i64, slice_ns: u64) -> i64
    ensures answer { result ≡ (attributes.set opened.old number level slice_ns).0 }
    ensures after { opened.new ≡ (attributes.set opened.old number level slice_ns).1 }
    ensures kept { KeepsOnError result opened.old opened.new }
{
    let Some(task) = TaskId::new(number) else {
        return INVALID;
    };
    let Some(nice) = Nice::new(level) else {
        return INVALID;
    };
    let Some(slice) = Slice::new(slice_ns) else {
        return INVALID;
    };
    match opened.queue.set(task, nice, slice) {
        SetAnswer::Set => DONE,
        SetAnswer::NotHere => ABSENT,
        SetAnswer::Range => RANGE,
    }
}

/// Lets a task that sleeps here begin anew, with the lag 0.
pub fn begin(opened: &mut Opened, number: u64, level: i64, slice_ns: u64) -> i64
    ensures answer { result ≡ (attributes.begin opened.old number level slice_ns).0 }
    ensures after { opened.new ≡ (attributes.begin opened.old number level slice_ns).1 }
    ensures kept { KeepsOnError result opened.old opened.new }
{
    let Some(task) = TaskId::new(number) else {
        return INVALID;
    };
    let Some(nice) = Nice::new(level) else {
        return INVALID;
    };
    let Some(slice) = Slice::new(slice_ns) else {
        return INVALID;
    };
    if opened.queue.begin(task, nice, slice) {
        DONE
    } else if opened.queue.contains(task) {
        PRESENT
    } else {
        ABSENT
    }
}

/// Lowers all virtual times by one number, which `by` gets, so that the virtual time is 0.
pub fn rebase(opened: &mut Opened, by: &mut i64) -> i64
    ensures answer { result ≡ done }
    ensures after { opened.new ≡ (rebases.rebase opened.old).1 }
    ensures told { by.new ≡ (rebases.rebase opened.old).0 }
    ensures time { rebases.can_rebase opened.old ≡ true → virtual_time opened.new ≡ pos 0 }
{
    *by = opened.queue.rebase();
    DONE
}
