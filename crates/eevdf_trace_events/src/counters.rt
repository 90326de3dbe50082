//! The counters of a trace: the load of each CPU, and the lags that a picture would draw.

use crate::event::{Head, LAGS, Phase, Values, head_of, push_event};
use crate::trace::{Due, What, push_at};
use eevdf_ops::CpuId;
use eevdf_queue::TaskId;
use eevdf_scene::{Scene, set_at};
use std::alloc::{AllocError, Global};

/// Adds what the counters have in the time that is drawn. A value from before it stands at its beginning.
pub(crate) fn push_counters(
    alloc: Global,
    dues: &mut Vec<Due>,
    scene: &Scene<'_>,
) -> Result<(), AllocError> {
    push_loads_at_edge(alloc, dues, scene)?;
    for load in &scene.lags.loads {
        if scene.view.cpus.has(load.cpu.index()) && scene.scale.has(load.time) {
            push_at(dues, load.time, What::Load(load.cpu, load.load))?;
        }
    }
    for curve in &scene.lags.curves {
        if let Some(before) = curve.before {
            push_at(dues, scene.scale.from, What::Lag(curve.task, before.lag))?;
        }
        for point in &curve.points {
            push_at(dues, point.time, What::Lag(curve.task, point.lag))?;
        }
    }
    Ok(())
}

/// Adds the last load of each CPU from before the time that is drawn, at its beginning.
fn push_loads_at_edge(
    alloc: Global,
    dues: &mut Vec<Due>,
    scene: &Scene<'_>,
) -> Result<(), AllocError> {
    let mut last = vec![in alloc; None; scene.setup.cpus()]?;
    for load in &scene.lags.loads {
        if load.time < scene.scale.from {
            set_at(&mut last, load.cpu.index(), Some(*load));
        }
    }
    for load in last.iter().copied().flatten() {
        if scene.view.cpus.has(load.cpu.index()) {
            push_at(dues, scene.scale.from, What::Load(load.cpu, load.load))?;
        }
    }
    Ok(())
}

/// Writes the load of a CPU from a time on.
pub(crate) fn push_load(
    alloc: Global,
    text: &mut Vec<u8>,
    time: u64,
    cpu: CpuId,
    load: u64,
) -> Result<(), AllocError> {
    let name = format!(in alloc; "load of CPU {cpu}")?;
    let args = Values {
        load: Some(load),
        ..Values::none()
    };
    push_event(alloc, text, &head_of(Phase::Counter, time, 0), &name, args)
}

/// Writes the lag of a task from a time on.
pub(crate) fn push_lag(
    alloc: Global,
    text: &mut Vec<u8>,
    time: u64,
    task: TaskId,
    lag: i64,
) -> Result<(), AllocError> {
    let name = format!(in alloc; "lag of task {task}")?;
    let head = Head {
        process: LAGS,
        ..head_of(Phase::Counter, time, 0)
    };
    let args = Values {
        lag: Some(lag),
        ..Values::none()
    };
    push_event(alloc, text, &head, &name, args)
}
