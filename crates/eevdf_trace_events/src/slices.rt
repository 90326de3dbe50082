//! The slices and the arrows of a trace.

use crate::event::{Head, Phase, TASKS, Values, head_of, push_event};
use eevdf_clocks::Moment;
use eevdf_ops::CpuId;
use eevdf_queue::TaskId;
use eevdf_scene::{Rest, Scene, Stretch, sender_of};
use std::alloc::{AllocError, Global};

/// Writes a stretch on the track of its CPU, and on that of its task.
pub(crate) fn push_run(
    alloc: Global,
    text: &mut Vec<u8>,
    scene: &Scene<'_>,
    stretch: &Stretch,
) -> Result<(), AllocError> {
    let length = stretch.end.saturating_sub(stretch.begin);
    let head = slice(stretch.begin, length, stretch.cpu.get());
    let name = format!(in alloc; "task {}", stretch.task)?;
    let args = Values {
        task: Some(stretch.task.get()),
        waited_ns: Some(stretch.waited),
        delay_ns: stretch.delay,
        why: Some(stretch.stop.word()),
        lag: lag_after(scene, stretch.last),
        ..Values::none()
    };
    push_event(alloc, text, &head, &name, args)?;
    let head = of_task(slice(stretch.begin, length, stretch.task.get()));
    let name = format!(in alloc; "runs on CPU {}", stretch.cpu)?;
    let args = Values {
        task: Some(stretch.task.get()),
        cpu: Some(stretch.cpu.get()),
        ..Values::none()
    };
    push_event(alloc, text, &head, &name, args)
}

/// Writes a rest on the track of its task.
pub(crate) fn push_rest(alloc: Global, text: &mut Vec<u8>, rest: &Rest) -> Result<(), AllocError> {
    let length = rest.end.saturating_sub(rest.begin);
    let head = of_task(slice(rest.begin, length, rest.task.get()));
    let name = if rest.sleeps { "sleeps" } else { "waits" };
    let args = Values {
        task: Some(rest.task.get()),
        ..Values::none()
    };
    push_event(alloc, text, &head, name, args)
}

/// Writes the deed at a place of the history on the track of its CPU. All but an idle tick have no length.
pub(crate) fn push_done(
    alloc: Global,
    text: &mut Vec<u8>,
    scene: &Scene<'_>,
    place: usize,
) -> Result<(), AllocError> {
    let Some(moment) = scene.moments.get(place) else {
        return Ok(());
    };
    let length = moment.end.saturating_sub(moment.begin);
    let head = slice(moment.begin, length, moment.line.deed.cpu().get());
    let name = format!(in alloc; "{}", moment.line)?;
    let args = Values {
        deed: Some(format!(in alloc; "{}", moment.line.deed)?),
        answer: Some(format!(in alloc; "{}", moment.line.answer)?),
        task: task_after(scene, place).map(|task| task.get()),
        sender: sender_of(moment).map(|sender| sender.get()),
        lag: lag_after(scene, place),
        ..Values::none()
    };
    push_event(alloc, text, &head, &name, args)
}

/// Writes a deed of another CPU on the track of the one from which its arrow begins.
pub(crate) fn push_other_end(
    alloc: Global,
    text: &mut Vec<u8>,
    cpu: CpuId,
    moment: &Moment,
) -> Result<(), AllocError> {
    let head = slice(moment.other, 0, cpu.get());
    let name = format!(in alloc; "other end of {}", moment.line)?;
    let args = Values {
        cpu: Some(moment.line.deed.cpu().get()),
        ..Values::none()
    };
    push_event(alloc, text, &head, &name, args)
}

/// Writes the beginning or the end of an arrow.
pub(crate) fn push_arrow(
    alloc: Global,
    text: &mut Vec<u8>,
    phase: Phase,
    time: u64,
    cpu: CpuId,
    number: u64,
) -> Result<(), AllocError> {
    let head = Head {
        arrow: Some(number),
        ..head_of(phase, time, cpu.get())
    };
    push_event(alloc, text, &head, "arrow", Values::none())
}

/// The head of a slice on the track of a CPU.
fn slice(begin: u64, length: u64, track: u64) -> Head {
    Head {
        length: Some(length),
        ..head_of(Phase::Slice, begin, track)
    }
}

/// The same on the track of a task.
fn of_task(head: Head) -> Head {
    Head {
        process: TASKS,
        ..head
    }
}

/// The task that the deed at a place of the history concerns.
pub(crate) fn task_after(scene: &Scene<'_>, place: usize) -> Option<TaskId> {
    scene.lags.after.get(place)?.task
}

/// The lag of that task after it.
fn lag_after(scene: &Scene<'_>, place: usize) -> Option<i64> {
    scene.lags.after.get(place)?.lag
}
