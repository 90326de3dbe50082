//! The names of a trace's processes and tracks, and the order in which they are shown.

use crate::event::{CPUS, Head, LAGS, Phase, TASKS, Values, head_of, push_event};
use eevdf_scene::Scene;
use std::alloc::{AllocError, Global};

/// Writes the events that name and order the processes, the CPUs and the tasks.
pub(crate) fn push_names(
    alloc: Global,
    text: &mut Vec<u8>,
    scene: &Scene<'_>,
) -> Result<(), AllocError> {
    push_process(alloc, text, CPUS, "CPUs", 1)?;
    push_process(alloc, text, TASKS, "tasks", 2)?;
    push_process(alloc, text, LAGS, "lags", 3)?;
    push_cpus(alloc, text, scene)?;
    push_tasks(alloc, text, scene)
}

fn push_cpus(alloc: Global, text: &mut Vec<u8>, scene: &Scene<'_>) -> Result<(), AllocError> {
    for cpu in 0..scene.setup.cpus() {
        if scene.view.cpus.has(cpu) {
            let name = format!(in alloc; "CPU {cpu}")?;
            push_track(alloc, text, CPUS, cpu as u64, name)?;
        }
    }
    Ok(())
}

fn push_tasks(alloc: Global, text: &mut Vec<u8>, scene: &Scene<'_>) -> Result<(), AllocError> {
    for task in 0..scene.setup.tasks() {
        if scene.view.tasks.has(task) {
            let name = format!(in alloc; "task {task}")?;
            push_track(alloc, text, TASKS, task as u64, name)?;
        }
    }
    Ok(())
}

/// Names a process, and says where it stands among them.
fn push_process(
    alloc: Global,
    text: &mut Vec<u8>,
    process: u64,
    name: &str,
    place: u64,
) -> Result<(), AllocError> {
    let head = Head {
        process,
        ..head_of(Phase::Name, 0, 0)
    };
    let name = String::from_str(alloc, name)?;
    push_event(alloc, text, &head, "process_name", named(name))?;
    push_event(alloc, text, &head, "process_sort_index", placed(place))
}

/// Names a track of a process. The tracks stand in the order of their numbers.
fn push_track(
    alloc: Global,
    text: &mut Vec<u8>,
    process: u64,
    number: u64,
    name: String,
) -> Result<(), AllocError> {
    let head = Head {
        process,
        ..head_of(Phase::Name, 0, number)
    };
    push_event(alloc, text, &head, "thread_name", named(name))?;
    push_event(alloc, text, &head, "thread_sort_index", placed(number))
}

fn named(name: String) -> Values {
    Values {
        name: Some(name),
        ..Values::none()
    }
}

fn placed(place: u64) -> Values {
    Values {
        sort_index: Some(place),
        ..Values::none()
    }
}
