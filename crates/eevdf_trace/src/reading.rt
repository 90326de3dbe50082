//! The reader of a trace.

ghost use Rattle.std.specs.Prelude.{◌≡◌, ◌≤◌, IfOk};
ghost use Rattle.eevdf_trace.specs.Bounds.{IsTraced};

use crate::course::Change;
use crate::event_text::{Switch, Wakeup};
use crate::trace_fault::{Place, TraceFault, Wrong};
use crate::trace_line::{Event, read_line};
use crate::tracks::Tracks;
use eevdf_closed_loop::{FallAsleep, Plan, Preempt};
use eevdf_ops::CpuId;
use eevdf_time_text::MOST_NS;
use std::alloc::Global;

/// The greatest number of bytes of a trace.
pub const MOST_BYTES: usize = 16_777_216;

/// What has been read of a trace.
#[derive(Drop)]
struct Reading {
    tracks: Tracks,
    /// When each CPU last switched, from the first event on: at 0, where it hasn't yet.
    switched: [u64; CpuId::COUNT],
    /// The greatest number of a CPU so far.
    last_cpu: CpuId,
    /// The moment of the first event, where there was one.
    first: Option<u64>,
    /// How long after the first event the last one was.
    at: u64,
    ghost within: { at ≤ 1000000000000000 },
}

/// The plan of a machine on which each task runs and sleeps as it did in the trace that these bytes are, or the first fault that is found
/// in them. `Memory` may come in place of either.
pub fn read_trace(alloc: Global, bytes: &[u8]) -> Result<Plan, TraceFault>
    ensures { IfOk result IsTraced }
{
    if bytes.len() > MOST_BYTES {
        return Err(Wrong::TooLarge.anywhere());
    }
    let Ok(text) = std::str::from_utf8(bytes) else {
        return Err(Wrong::NotText.anywhere());
    };
    let mut reading = Reading::none(alloc);
    let mut start = 0usize;
    for line in text.split('\n') {
        if let Err(fault) = reading.take_line(alloc, line.strip_suffix('\r').unwrap_or(line)) {
            return Err(behind(fault, start));
        }
        start = start.saturating_add(line.len()).saturating_add(1);
    }
    reading.end(alloc)
}

/// A fault of a line before which there are so many bytes.
fn behind(fault: TraceFault, start: usize) -> TraceFault {
    TraceFault {
        wrong: fault.wrong,
        place: match fault.place {
            Some(place) => Some(Place {
                start: place.start.saturating_add(start),
                end: place.end.saturating_add(start),
            }),
            None => None,
        },
    }
}

impl Reading {
    fn none(alloc: Global) -> Reading {
        Reading {
            tracks: Tracks::none(alloc),
            switched: [0; CpuId::COUNT],
            last_cpu: CpuId::numbered(0),
            first: None,
            at: 0,
        }
    }

    /// Reads a line.
    fn take_line(&mut self, alloc: Global, text: &str) -> Result<(), TraceFault> {
        let Some(line) = read_line(text)? else {
            return Ok(());
        };
        let Some(cpu) = CpuId::new(line.cpu) else {
            return Err(fault_at(Wrong::BadCpu, line.bracketed));
        };
        if let Err(wrong) = self.go_to(line.moment) {
            return Err(fault_at(wrong, line.time));
        }
        self.sees(cpu);
        let done = match &line.event {
            Event::Wakeup(wakeup) => self.wakes(alloc, wakeup),
            Event::Switch(switch) => self.switches(alloc, cpu, switch),
        };
        done.map_err(|wrong| fault_at(wrong, line.told))
    }

    /// Goes on to the moment of a line.
    fn go_to(&mut self, moment: u64) -> Result<(), Wrong> {
        let first = self.first.unwrap_or(moment);
        let Some(at) = moment.checked_sub(first) else {
            return Err(Wrong::Earlier);
        };
        if at < self.at {
            return Err(Wrong::Earlier);
        }
        if at > MOST_NS {
            return Err(Wrong::TooLong);
        }
        self.first = Some(first);
        self.at = at;
        Ok(())
    }

    /// A task wakes.
    fn wakes(&mut self, alloc: Global, wakeup: &Wakeup<'_>) -> Result<(), Wrong> {
        let Some(cpu) = CpuId::new(wakeup.cpu) else {
            return Err(Wrong::BadWakeup);
        };
        self.sees(cpu);
        self.tracks
            .take(alloc, &wakeup.wakes, Change::Wakes, cpu, self.at)
    }

    /// A CPU switches from a task to another one.
    fn switches(&mut self, alloc: Global, cpu: CpuId, switch: &Switch<'_>) -> Result<(), Wrong> {
        let at = self.at;
        let switched = self.switched[cpu.index()];
        self.switched[cpu.index()] = at;
        let how = switch.how;
        let leaves = Change::Leaves { how, switched };
        self.tracks.take(alloc, &switch.leaves, leaves, cpu, at)?;
        self.tracks
            .take(alloc, &switch.comes, Change::Comes, cpu, at)
    }

    /// There is a CPU of this number.
    fn sees(&mut self, cpu: CpuId) {
        if self.last_cpu.index() < cpu.index() {
            self.last_cpu = cpu;
        }
    }

    /// The plan of what was read.
    fn end(self, alloc: Global) -> Result<Plan, TraceFault>
        ensures { IfOk result IsTraced }
    {
        if self.tracks.is_empty() {
            return Err(Wrong::NoTask.anywhere());
        }
        let Ok(groups) = self.tracks.end(alloc, self.at) else {
            return Err(Wrong::Memory.anywhere());
        };
        Ok(Plan {
            cpus: self.last_cpu.index() + 1,
            tick: 0,
            lasts: self.at.max(1),
            pull: true,
            preempt: Preempt::Wakeup,
            fall_asleep: FallAsleep::Sleep,
            seed: 0,
            groups,
        })
    }
}

/// The fault that something is wrong at a place of a line.
fn fault_at(wrong: Wrong, place: Place) -> TraceFault {
    TraceFault {
        wrong,
        place: if wrong == Wrong::Memory {
            None
        } else {
            Some(place)
        },
    }
}
