//! The whole trace: what happens, by time.

use crate::counters::{push_counters, push_lag, push_load};
use crate::event::Phase;
use crate::names::push_names;
use crate::slices::{push_arrow, push_done, push_other_end, push_rest, push_run, task_after};
use eevdf_clocks::Moment;
use eevdf_ops::{Answer, CpuId};
use eevdf_queue::TaskId;
use eevdf_scene::{Scene, other_cpu};
use std::alloc::{AllocError, Global};

/// What happens at a time. Stretches, rests and deeds are named by their places, since there are many.
#[derive(Clone, Copy)]
pub(crate) enum What {
    /// A task ran.
    Ran(usize),
    /// A task waited or slept.
    Rested(usize),
    /// A deed was done, and charged nobody.
    Done(usize),
    /// The deed of another CPU took something from this one, or was asked for by it.
    Gave(CpuId, usize),
    /// The arrow of this number begins on a CPU, or ends there.
    Begins(CpuId, u64),
    Ends(CpuId, u64),
    Load(CpuId, u64),
    Lag(TaskId, i64),
}

/// Something with its time, in nanoseconds.
#[derive(Clone, Copy)]
pub(crate) struct Due {
    time: u64,
    what: What,
}

/// The trace of a scene, whose lags have what is known after each deed. The events are in order of time. It is refused memory alone.
pub fn trace_of(alloc: Global, scene: &Scene<'_>) -> Result<Vec<u8>, AllocError> {
    let mut dues = dues_of(alloc, scene)?;
    dues.sort_by_key(|due| due.time)?;
    let mut text = Vec::new(alloc);
    text.extend_from_slice(b"{\"displayTimeUnit\":\"ns\",\"traceEvents\":[\n")?;
    push_names(alloc, &mut text, scene)?;
    for due in &dues {
        push_due(alloc, &mut text, scene, due)?;
    }
    // no comma stands behind the last event
    let _ = text.pop();
    let _ = text.pop();
    text.extend_from_slice(b"\n]}\n")?;
    Ok(text)
}

/// All that happens, on each track in order of time but for what arrows add.
fn dues_of(alloc: Global, scene: &Scene<'_>) -> Result<Vec<Due>, AllocError> {
    let mut dues = Vec::new(alloc);
    push_deeds(&mut dues, scene)?;
    for (place, stretch) in scene.turns.stretches.iter().enumerate() {
        if stretch.is_chosen(&scene.scale, scene.view) {
            push_at(&mut dues, stretch.begin, What::Ran(place))?;
        }
    }
    for (place, rest) in scene.turns.rests.iter().enumerate() {
        if rest.is_chosen(&scene.scale, scene.view) {
            push_at(&mut dues, rest.begin, What::Rested(place))?;
        }
    }
    push_counters(alloc, &mut dues, scene)?;
    Ok(dues)
}

fn push_deeds(dues: &mut Vec<Due>, scene: &Scene<'_>) -> Result<(), AllocError> {
    for (place, moment) in scene.moments.iter().enumerate() {
        if is_drawn(scene, moment, place) {
            push_deed(dues, scene, moment, place)?;
        }
    }
    Ok(())
}

pub(crate) fn push_at(dues: &mut Vec<Due>, time: u64, what: What) -> Result<(), AllocError> {
    dues.push(Due { time, what })?;
    Ok(())
}

/// Whether the deed at a place of the history is drawn: it charged nobody, and its CPU and its task are chosen.
fn is_drawn(scene: &Scene<'_>, moment: &Moment, place: usize) -> bool {
    if let Answer::Charged { .. } = moment.line.answer {
        return false;
    }
    let cpu = moment.line.deed.cpu().index();
    scene.view.tasks.has_task(task_after(scene, place))
        && scene.view.cpus.has(cpu)
        && scene.scale.shows(moment.begin, moment.end)
}

/// Adds the deed at a place of the history.
fn push_deed(
    dues: &mut Vec<Due>,
    scene: &Scene<'_>,
    moment: &Moment,
    place: usize,
) -> Result<(), AllocError> {
    let begin = moment.other;
    let number = place as u64;
    let other = if scene.scale.has(begin) {
        other_cpu(moment).filter(|other| scene.view.cpus.has(other.index()))
    } else {
        None
    };
    if let Some(other) = other {
        push_at(dues, begin, What::Gave(other, place))?;
        push_at(dues, begin, What::Begins(other, number))?;
    }
    push_at(dues, moment.begin, What::Done(place))?;
    if other.is_some() {
        push_at(
            dues,
            moment.begin,
            What::Ends(moment.line.deed.cpu(), number),
        )?;
    }
    Ok(())
}

fn push_due(
    alloc: Global,
    text: &mut Vec<u8>,
    scene: &Scene<'_>,
    due: &Due,
) -> Result<(), AllocError> {
    let time = due.time;
    match due.what {
        What::Ran(place) => match scene.turns.stretches.get(place) {
            None => Ok(()),
            Some(stretch) => push_run(alloc, text, scene, stretch),
        },
        What::Rested(place) => match scene.turns.rests.get(place) {
            None => Ok(()),
            Some(rest) => push_rest(alloc, text, rest),
        },
        What::Done(place) => push_done(alloc, text, scene, place),
        What::Gave(cpu, place) => match scene.moments.get(place) {
            None => Ok(()),
            Some(moment) => push_other_end(alloc, text, cpu, moment),
        },
        What::Begins(cpu, number) => push_arrow(alloc, text, Phase::ArrowBegins, time, cpu, number),
        What::Ends(cpu, number) => push_arrow(alloc, text, Phase::ArrowEnds, time, cpu, number),
        What::Load(cpu, load) => push_load(alloc, text, time, cpu, load),
        What::Lag(task, lag) => push_lag(alloc, text, time, task, lag),
    }
}
