//! An event of a trace.

use serde::Serialize;
use serde_json::to_vec;
use std::alloc::{AllocError, Global};
use std::num::nearest_u64_to_f64;

/// The CPUs are threads of this process.
pub(crate) const CPUS: u64 = 1;

/// The counters of lags stand by this process.
pub(crate) const LAGS: u64 = 2;

/// The tasks are threads of this one.
pub(crate) const TASKS: u64 = 3;

/// What an event is.
#[derive(Clone, Copy, PartialEq, Eq)]
pub(crate) enum Phase {
    /// The name of a process or a track, or its place among the others.
    Name,
    /// Something that has a length.
    Slice,
    /// A value from a time on.
    Counter,
    ArrowBegins,
    ArrowEnds,
}

impl Phase {
    /// The letter that the format has for it.
    fn letter(self) -> &'static str {
        match self {
            Phase::Name => "M",
            Phase::Slice => "X",
            Phase::Counter => "C",
            Phase::ArrowBegins => "s",
            Phase::ArrowEnds => "f",
        }
    }
}

/// An event as the format has it. Times are in microseconds.
#[derive(Drop, Serialize)]
struct Event<'a> {
    name: &'a str,
    cat: &'a str,
    ph: &'a str,
    ts: f64,
    #[serde(skip_serializing_if = "Option::is_none")]
    dur: Option<f64>,
    pid: u64,
    tid: u64,
    #[serde(skip_serializing_if = "Option::is_none")]
    id: Option<u64>,
    #[serde(skip_serializing_if = "Option::is_none")]
    bp: Option<&'a str>,
    args: Values,
}

/// The arguments of an event. Times are in nanoseconds, and lags in those of virtual time.
#[derive(Drop, Serialize)]
pub(crate) struct Values {
    #[serde(skip_serializing_if = "Option::is_none")]
    pub name: Option<String>,
    #[serde(skip_serializing_if = "Option::is_none")]
    pub sort_index: Option<u64>,
    #[serde(skip_serializing_if = "Option::is_none")]
    pub deed: Option<String>,
    #[serde(skip_serializing_if = "Option::is_none")]
    pub answer: Option<String>,
    #[serde(skip_serializing_if = "Option::is_none")]
    pub task: Option<u64>,
    #[serde(skip_serializing_if = "Option::is_none")]
    pub cpu: Option<u64>,
    #[serde(skip_serializing_if = "Option::is_none")]
    pub sender: Option<u64>,
    #[serde(skip_serializing_if = "Option::is_none")]
    pub waited_ns: Option<u64>,
    #[serde(skip_serializing_if = "Option::is_none")]
    pub delay_ns: Option<u64>,
    #[serde(skip_serializing_if = "Option::is_none")]
    pub why: Option<&'static str>,
    #[serde(skip_serializing_if = "Option::is_none")]
    pub lag: Option<i64>,
    #[serde(skip_serializing_if = "Option::is_none")]
    pub load: Option<u64>,
}

impl Values {
    pub(crate) fn none() -> Values {
        Values {
            name: None,
            sort_index: None,
            deed: None,
            answer: None,
            task: None,
            cpu: None,
            sender: None,
            waited_ns: None,
            delay_ns: None,
            why: None,
            lag: None,
            load: None,
        }
    }
}

/// What an event has beside its name and its arguments.
#[derive(Clone, Copy)]
pub(crate) struct Head {
    pub phase: Phase,
    /// In nanoseconds, as the length.
    pub time: u64,
    pub length: Option<u64>,
    pub process: u64,
    pub track: u64,
    pub arrow: Option<u64>,
}

/// Of an event on the track of a CPU.
pub(crate) fn head_of(phase: Phase, time: u64, track: u64) -> Head {
    Head {
        phase,
        time,
        length: None,
        process: CPUS,
        track,
        arrow: None,
    }
}

/// Writes an event, and what is between it and the next one.
pub(crate) fn push_event(
    alloc: Global,
    text: &mut Vec<u8>,
    head: &Head,
    name: &str,
    args: Values,
) -> Result<(), AllocError> {
    let event = Event {
        name,
        cat: "eevdf",
        ph: head.phase.letter(),
        ts: microseconds(head.time),
        dur: head.length.map(microseconds),
        pid: head.process,
        tid: head.track,
        id: head.arrow,
        // an arrow ends at the slice around it
        bp: if head.phase == Phase::ArrowEnds {
            Some("e")
        } else {
            None
        },
        args,
    };
    // only memory can be missing
    let Ok(written) = to_vec(alloc, &event) else {
        return Err(AllocError);
    };
    text.extend_from_slice(&written)?;
    text.extend_from_slice(b",\n")?;
    Ok(())
}

/// Of nanoseconds.
fn microseconds(time: u64) -> f64 {
    nearest_u64_to_f64(time) / 1000.0
}
