//! A task of a trace, and its phases.

ghost use Rattle.std.specs.Prelude.{◌≡◌, ◌++◌, IfOk};
ghost use Rattle.std.specs.Option.{option_to_list};
ghost use Rattle.eevdf_trace.specs.Courses as spec;

use crate::course::{Change, Course, end_of, step_of};
use crate::event_text::Told;
use crate::priorities::nice_at;
use eevdf_closed_loop::{Group, Phase};
use eevdf_ops::CpuId;
use eevdf_weight::{Nice, Slice};
use std::alloc::{AllocError, AllocFailed, Global};

/// So many characters of the name of what a task runs are kept: with a point and the digits of a number they are no more than the name of
/// a task may have.
const MOST_NAME: usize = 48;

/// A task of a trace. Moments are in nanoseconds from the trace's first event on.
#[derive(Drop)]
pub(crate) struct Track {
    name: String,
    home: CpuId,
    /// The nice level with which it was seen first.
    nice: Nice,
    begins: u64,
    /// The phases that are over.
    phases: Vec<Phase>,
    course: Course,
}

impl Track {
    /// A task that a line tells of for the first time, and that can run on a CPU from a moment on.
    pub fn from(
        alloc: Global,
        told: &Told<'_>,
        home: CpuId,
        begins: u64,
    ) -> Result<Track, AllocError> {
        let nice = nice_at(told.priority);
        Ok(Track {
            name: name_of(alloc, told)?,
            home,
            nice,
            begins,
            phases: Vec::new(alloc),
            course: Course::from(begins, nice),
        })
    }

    /// What an event at a moment makes of it. After an `Err` some of the event's phases may be missing.
    pub fn take(&mut self, change: Change, nice: Nice, at: u64) -> Result<(), AllocError>
        ensures course { IfOk result (λ _. self.new.course ≡ (spec.step_of self.old.course change nice at).course) }
        ensures phases { IfOk result (λ _. self.new.phases.items ≡
            self.old.phases.items ++ spec.phases_of (spec.step_of self.old.course change nice at)) }
    {
        let step = step_of(&self.course, change, nice, at);
        push_if(&mut self.phases, step.slept)?;
        push_if(&mut self.phases, step.reniced)?;
        push_if(&mut self.phases, step.ran)?;
        self.course = step.course;
        Ok(())
    }

    /// It as a group of one task, where the trace ends at a moment.
    pub fn end(mut self, at: u64) -> Result<Group, AllocError>
        ensures { IfOk result (λ g. g.phases.items ≡
            self.phases.items ++ spec.last_phases (spec.end_of self.course at)) }
    {
        let end = end_of(&self.course, at);
        push_if(&mut self.phases, end.ran)?;
        self.phases.push(end.last)?;
        Ok(Group {
            name: self.name,
            count: 1,
            arrivals: None,
            home: Some(self.home.index()),
            nice: self.nice,
            slice: Slice::default(),
            begins: self.begins,
            phases: self.phases,
        })
    }
}

/// Adds a phase, where there is one.
fn push_if(phases: &mut Vec<Phase>, phase: Option<Phase>) -> Result<(), AllocFailed<Phase>>
    ensures { IfOk result (λ _. phases.new.items ≡ phases.old.items ++ option_to_list phase) }
{
    match phase {
        Some(phase) => phases.push(phase),
        None => Ok(()),
    }
}

/// The name of a task: that of what it runs, in which other characters than letters, digits, `-` and `_` are a `_`, a `-`, and its number.
fn name_of(alloc: Global, told: &Told<'_>) -> Result<String, AllocError> {
    let mut name = String::new(alloc);
    for character in told.comm.chars().take(MOST_NAME) {
        name.push(if is_of_name(character) {
            character
        } else {
            '_'
        })?;
    }
    let pid = told.pid;
    write!(name, "-{pid}")?;
    Ok(name)
}

/// Whether a character may stand in a task's name.
fn is_of_name(character: char) -> bool {
    character.is_ascii_alphanumeric() || character == '-' || character == '_'
}
