//! A line of a trace.

use crate::event_text::{Switch, Wakeup, switch_of, wakeup_of};
use crate::line_words::{Word, next_word, without_blanks, without_blanks_behind};
use crate::trace_fault::{Place, TraceFault, Wrong};
use eevdf_time_text::{moment, number};

/// Which event a line names.
#[derive(Clone, Copy)]
enum Kind {
    Switch,
    Wakeup,
}

/// What a line tells of.
#[derive(Clone, Copy)]
pub(crate) enum Event<'a> {
    Switch(Switch<'a>),
    Wakeup(Wakeup<'a>),
}

/// A line with an event. Places are those in the line.
#[derive(Clone, Copy)]
pub(crate) struct TraceLine<'a> {
    /// The moment, in nanoseconds.
    pub moment: u64,
    /// The number of its CPU.
    pub cpu: u64,
    pub event: Event<'a>,
    /// Where its moment stands.
    pub time: Place,
    /// Where its CPU stands.
    pub bracketed: Place,
    /// Where what it tells stands.
    pub told: Place,
}

/// The words of a line up to the name of its event.
#[derive(Clone, Copy)]
struct Head<'a> {
    kind: Kind,
    /// The event's name.
    name: Word<'a>,
    /// The word before it.
    before: Option<Word<'a>>,
    /// The last word in brackets before that one.
    bracketed: Option<Word<'a>>,
    /// What stands behind it.
    behind: &'a str,
}

/// The line of a trace that a text is. `None` where it names no event that is read.
pub(crate) fn read_line<'a>(line: &'a str) -> Result<Option<TraceLine<'a>>, TraceFault> {
    let Some(head) = head_of(line) else {
        return Ok(None);
    };
    let time = head.before.unwrap_or(head.name);
    let Some(moment) = moment_of(time.text) else {
        return Err(Wrong::BadTime.at(place_of(time)));
    };
    let bracketed = head.bracketed.unwrap_or(time);
    let Some(cpu) = cpu_of(bracketed.text) else {
        return Err(Wrong::BadCpu.at(place_of(bracketed)));
    };
    let text = without_blanks_behind(without_blanks(head.behind));
    let start = line.len().saturating_sub(without_blanks(head.behind).len());
    let told = Place {
        start,
        end: start.saturating_add(text.len()),
    };
    let Some(event) = event_of(head.kind, text) else {
        return Err(head.kind.wrong().at(told));
    };
    Ok(Some(TraceLine {
        moment,
        cpu,
        event,
        time: place_of(time),
        bracketed: place_of(bracketed),
        told,
    }))
}

/// The words of a line up to the name of its event. `None` where it names none, and where it is a comment.
fn head_of<'a>(line: &'a str) -> Option<Head<'a>> {
    if without_blanks(line).starts_with('#') {
        return None;
    }
    let mut before = None;
    let mut bracketed = None;
    let mut left = line;
    for _word in 0..line.len() {
        let (word, behind) = next_word(line, left)?;
        if let Some(kind) = kind_of(word.text) {
            return Some(Head {
                kind,
                name: word,
                before,
                bracketed,
                behind,
            });
        }
        if word.text.starts_with('[') {
            bracketed = Some(word);
        }
        before = Some(word);
        left = behind;
    }
    None
}

/// The event of which a word is the name.
fn kind_of(word: &str) -> Option<Kind> {
    match word.strip_prefix("sched:").unwrap_or(word) {
        "sched_switch:" => Some(Kind::Switch),
        "sched_wakeup:" | "sched_wakeup_new:" => Some(Kind::Wakeup),
        _ => None,
    }
}

impl Kind {
    /// What is wrong where the event of this kind can't be read.
    fn wrong(self) -> Wrong {
        match self {
            Kind::Switch => Wrong::BadSwitch,
            Kind::Wakeup => Wrong::BadWakeup,
        }
    }
}

impl Wrong {
    /// The fault that this is wrong at a place.
    fn at(self, place: Place) -> TraceFault {
        TraceFault {
            wrong: self,
            place: Some(place),
        }
    }
}

fn place_of(word: Word<'_>) -> Place {
    Place {
        start: word.start,
        end: word.start.saturating_add(word.text.len()),
    }
}

/// The moment that a word as `5077.123456:` is.
fn moment_of(word: &str) -> Option<u64> {
    moment(word.strip_suffix(':')?)
}

/// The number of a CPU that a word as `[001]` is.
fn cpu_of(word: &str) -> Option<u64> {
    number(word.strip_prefix('[')?.strip_suffix(']')?)
}

/// The event that a text tells of.
fn event_of<'a>(kind: Kind, text: &'a str) -> Option<Event<'a>> {
    match kind {
        Kind::Switch => Some(Event::Switch(switch_of(text)?)),
        Kind::Wakeup => Some(Event::Wakeup(wakeup_of(text)?)),
    }
}
