//! What stands behind the name of an event, in both forms in which the tools write it: by keys, as `comm=bash pid=23 prio=120
//! target_cpu=001`, or short, as `bash:23 [120] CPU:001`.

use crate::course::Leaving;
use crate::line_words::{without_blanks, without_blanks_behind};
use eevdf_time_text::number;

/// A task as a line tells of it.
#[derive(Clone, Copy)]
pub(crate) struct Told<'a> {
    /// The name of what it runs.
    pub comm: &'a str,
    /// Its number in the trace, which is 0 where nobody runs.
    pub pid: u32,
    /// Its priority, and 0 where that is less: a deadline has such a one.
    pub priority: u64,
}

/// A switch of a CPU.
#[derive(Clone, Copy)]
pub(crate) struct Switch<'a> {
    pub leaves: Told<'a>,
    pub how: Leaving,
    pub comes: Told<'a>,
}

/// A wakeup, and the number of the CPU on which the task wakes.
#[derive(Clone, Copy)]
pub(crate) struct Wakeup<'a> {
    pub wakes: Told<'a>,
    pub cpu: u64,
}

/// The keys by which a line tells of a task.
#[derive(Clone, Copy)]
struct Keys {
    comm: &'static str,
    pid: &'static str,
    priority: &'static str,
}

const PREVIOUS: Keys = Keys {
    comm: "prev_comm=",
    pid: " prev_pid=",
    priority: " prev_prio=",
};

const NEXT: Keys = Keys {
    comm: "next_comm=",
    pid: " next_pid=",
    priority: " next_prio=",
};

const WOKEN: Keys = Keys {
    comm: "comm=",
    pid: " pid=",
    priority: " prio=",
};

/// The switch that a text tells of.
pub(crate) fn switch_of(text: &str) -> Option<Switch<'_>> {
    let (before, behind) = text.rsplit_once(" ==> ")?;
    let (leaves, state) = read_task(before, PREVIOUS)?;
    let (comes, _rest) = read_task(behind, NEXT)?;
    let state = without_blanks(state);
    let how = leaving(state.strip_prefix("prev_state=").unwrap_or(state))?;
    Some(Switch { leaves, how, comes })
}

/// The wakeup that a text tells of.
pub(crate) fn wakeup_of(text: &str) -> Option<Wakeup<'_>> {
    let (wakes, rest) = read_task(text, WOKEN)?;
    let rest = without_blanks_behind(rest);
    let (_before, cpu) = match rest.rsplit_once("target_cpu=") {
        Some(parts) => parts,
        None => rest.rsplit_once("CPU:")?,
    };
    let cpu = number(cpu)?;
    Some(Wakeup { wakes, cpu })
}

/// The task that stands in front of a text, and what stands behind it.
fn read_task<'a>(text: &'a str, keys: Keys) -> Option<(Told<'a>, &'a str)> {
    match task_by_keys(text, keys) {
        Some(told) => Some(told),
        None => short_task(text),
    }
}

/// A task by its keys.
fn task_by_keys<'a>(text: &'a str, keys: Keys) -> Option<(Told<'a>, &'a str)> {
    let named = text.strip_prefix(keys.comm)?;
    let (comm, behind) = named.rsplit_once(keys.pid)?;
    let (pid, behind) = behind.split_once(keys.priority)?;
    let (priority, rest) = match behind.split_once(' ') {
        Some((priority, rest)) => (priority, rest),
        None => (behind, ""),
    };
    Some((task_of(comm, pid, priority)?, rest))
}

/// A task as `bash:23 [120]`.
fn short_task<'a>(text: &'a str) -> Option<(Told<'a>, &'a str)> {
    let (named, behind) = text.rsplit_once(" [")?;
    let (comm, pid) = named.rsplit_once(":")?;
    let (priority, rest) = behind.split_once("]")?;
    Some((task_of(comm, pid, priority)?, rest))
}

/// The task of a name, a number and a priority.
fn task_of<'a>(comm: &'a str, pid: &str, priority: &str) -> Option<Told<'a>> {
    Some(Told {
        comm,
        pid: u32::try_from(number(pid)?).ok()?,
        priority: priority_of(priority)?,
    })
}

/// The priority that a text is, and 0 where it is less.
fn priority_of(text: &str) -> Option<u64> {
    match text.strip_prefix('-') {
        Some(below) => {
            let _below = number(below)?;
            Some(0)
        }
        None => number(text),
    }
}

/// How a task leaves its CPU, by the first letter of its state.
fn leaving(state: &str) -> Option<Leaving> {
    match state.as_bytes() {
        [] => None,
        [b'R', ..] => Some(Leaving::Preempted),
        [b'X', ..] | [b'Z', ..] | [b'x', ..] => Some(Leaving::Dead),
        _ => Some(Leaving::Asleep),
    }
}
