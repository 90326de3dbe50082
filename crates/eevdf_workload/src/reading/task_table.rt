ghost use Rattle.std.specs.Prelude.{◌≡◌};
ghost use Rattle.eevdf_workload.specs.Meaning.{asleep_of, home_of, nice_of, slice_of, start_of, task_at, task_of, tasks};
ghost use Rattle.eevdf_workload.specs.MeaningSteps.{each, Reads};
ghost use Rattle.toml.specs.View.{items_view, table_view, view};

use crate::load_fault::{Key, LoadFault};
use crate::reading::document_keys::{array_at, boolean_or, good_at, integer_or, natural, required};
use crate::version::Limits;
use eevdf_ops::{CpuId, TaskSpec};
use eevdf_weight::{Nice, Slice};
use std::alloc::Global;
use toml::{Table, Value};

/// The tasks, each numbered by its place.
#[tactic(auto, unfolding(crate::specs::Meaning::tasks))]
pub(crate) fn tasks(
    alloc: Global,
    limits: Limits,
    document: &Table,
) -> Result<Vec<TaskSpec>, LoadFault>
    ensures { Reads (λ ts. ts.items) (tasks limits (table_view document.now)) result }
{
    let value = required(document, "task", Key::Tasks)?;
    tasks_of(alloc, limits, array_at(value, Key::Tasks)?)
}

fn tasks_of(alloc: Global, limits: Limits, members: &[Value]) -> Result<Vec<TaskSpec>, LoadFault>
    ensures { Reads (λ ts. ts.items) (each (task_at limits) 0 (items_view members.now)) result }
{
    let mut tasks = Vec::new(alloc);
    for (place, member) in members.iter().enumerate() {
        tasks.push(task_at(limits, place, member)?)?;
    }
    Ok(tasks)
}

// The task that a member of `task` describes, at its place.
#[tactic(auto, unfolding(crate::specs::Meaning::task_at))]
fn task_at(limits: Limits, place: usize, value: &Value) -> Result<TaskSpec, LoadFault>
    ensures { result ≡ task_at limits place (view value.now) }
{
    task_of(limits, place, good_at(Key::Task(place), value.as_table())?)
}

#[tactic(auto, unfolding(crate::specs::Meaning::task_of))]
fn task_of(limits: Limits, place: usize, task: &Table) -> Result<TaskSpec, LoadFault>
    ensures { result ≡ task_of limits place (table_view task.now) }
{
    Ok(TaskSpec {
        home: home_of(limits, place, task)?,
        nice: nice_of(place, task)?,
        slice: slice_of(place, task)?,
        start: start_of(place, task)?,
        asleep: asleep_of(place, task)?,
    })
}

#[tactic(auto, unfolding(crate::specs::Meaning::home_of))]
fn home_of(limits: Limits, place: usize, task: &Table) -> Result<CpuId, LoadFault>
    ensures { result ≡ home_of limits place (table_view task.now) }
{
    let home = integer_or(task, "home", 0).and_then(natural);
    good_at(Key::Home(place), home.and_then(|number| limits.cpu(number)))
}

#[tactic(auto, unfolding(crate::specs::Meaning::nice_of))]
fn nice_of(place: usize, task: &Table) -> Result<Nice, LoadFault>
    ensures { result ≡ nice_of place (table_view task.now) }
{
    let nice = integer_or(task, "nice", 0);
    good_at(Key::Nice(place), nice.and_then(Nice::new))
}

#[tactic(auto, unfolding(crate::specs::Meaning::slice_of))]
fn slice_of(place: usize, task: &Table) -> Result<Slice, LoadFault>
    ensures { result ≡ slice_of place (table_view task.now) }
{
    let slice = integer_or(task, "slice", Slice::default().get() as i64);
    good_at(
        Key::Slice(place),
        slice.and_then(natural).and_then(Slice::new),
    )
}

#[tactic(auto, unfolding(crate::specs::Meaning::start_of))]
fn start_of(place: usize, task: &Table) -> Result<i64, LoadFault>
    ensures { result ≡ start_of place (table_view task.now) }
{
    good_at(Key::Start(place), integer_or(task, "start", 0))
}

#[tactic(auto, unfolding(crate::specs::Meaning::asleep_of))]
fn asleep_of(place: usize, task: &Table) -> Result<bool, LoadFault>
    ensures { result ≡ asleep_of place (table_view task.now) }
{
    good_at(Key::Asleep(place), boolean_or(task, "asleep", false))
}
