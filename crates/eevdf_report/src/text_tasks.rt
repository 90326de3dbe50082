ghost use Rattle.std.specs.Prelude.{◌≡◌, ◌++◌, OnOk};
ghost use Rattle.eevdf_report.specs.TextQueue.{load_line, running_text, times_text, lag_text, task_line, asleep_line, place_text};

use crate::text_numbers::{push_number, push_signed, push_task, push_wide};
use eevdf_queue::{Entry, TaskId};
use std::alloc::AllocError;

pub(crate) fn push_load_line(
    text: &mut Vec<u8>,
    load: u64,
    floor_time: i64,
) -> Result<(), AllocError>
    ensures { OnOk result (text.new.items ≡ text.old.items ++ load_line load floor_time) }
{
    text.extend_from_slice(b"load ")?;
    push_number(text, load)?;
    text.extend_from_slice(b" floor ")?;
    push_signed(text, floor_time)?;
    text.extend_from_slice(b"\n")
}

#[tactic(auto, unfolding(crate::specs::TextQueue::running_text))]
fn push_running(text: &mut Vec<u8>, runs: bool) -> Result<(), AllocError>
    ensures { OnOk result (text.new.items ≡ text.old.items ++ running_text runs) }
{
    text.extend_from_slice(if runs { b" running" } else { b"" })
}

#[tactic(auto, unfolding(crate::specs::TextQueue::times_text))]
fn push_times(text: &mut Vec<u8>, entry: Entry) -> Result<(), AllocError>
    ensures { OnOk result (text.new.items ≡ text.old.items ++ times_text entry.v entry.d) }
{
    text.extend_from_slice(b" v ")?;
    push_signed(text, entry.v)?;
    text.extend_from_slice(b" d ")?;
    push_signed(text, entry.d)
}

#[tactic(auto, unfolding(crate::specs::TextQueue::lag_text))]
fn push_lag(text: &mut Vec<u8>, lag: i64) -> Result<(), AllocError>
    ensures { OnOk result (text.new.items ≡ text.old.items ++ lag_text lag) }
{
    text.extend_from_slice(b" lag ")?;
    push_signed(text, lag)
}

/// Writes a runnable task.
pub(crate) fn push_task_line(
    text: &mut Vec<u8>,
    task: TaskId,
    entry: Entry,
    lag: i64,
    runs: bool,
) -> Result<(), AllocError>
    ensures { OnOk result (text.new.items ≡ text.old.items ++ task_line task entry lag runs) }
{
    push_task(text, task.get())?;
    push_times(text, entry)?;
    push_lag(text, lag)?;
    push_running(text, runs)?;
    text.extend_from_slice(b"\n")
}

/// Writes the place of a task that dozes, and nothing of any other.
#[tactic(auto, unfolding(crate::specs::TextQueue::place_text))]
fn push_place(text: &mut Vec<u8>, place: Option<i128>) -> Result<(), AllocError>
    ensures { OnOk result (text.new.items ≡ text.old.items ++ place_text place) }
{
    match place {
        None => Ok(()),
        Some(place) => {
            text.extend_from_slice(b" place ")?;
            push_wide(text, place)
        }
    }
}

/// Writes a sleeping task.
pub(crate) fn push_asleep_line(
    text: &mut Vec<u8>,
    task: TaskId,
    lag: i64,
    place: Option<i128>,
) -> Result<(), AllocError>
    ensures { OnOk result (text.new.items ≡ text.old.items ++ asleep_line task lag place) }
{
    text.extend_from_slice(b"asleep ")?;
    push_number(text, task.get())?;
    push_lag(text, lag)?;
    push_place(text, place)?;
    text.extend_from_slice(b"\n")
}
