//! What may be wrong with a word of an operation or a deed, and how that is told.

use crate::known_words::KnownWords;
use crate::word_texts::{Told, shortened};
use eevdf_weight::{Ns, Slice};
use eevdf_workload::Version;
use std::fmt;

/// What a word of an operation may be, behind the first.
#[derive(Clone, Copy)]
pub(crate) enum Argument {
    /// The length of a tick.
    Time,
    Task,
    /// A task that does this at its home alone.
    TaskAtHome(&'static str),
    /// The word `from`.
    From,
    Cpu,
    /// A CPU that isn't the deed's own.
    OtherCpu,
    Level,
    Slice,
}

/// What is expected where such a word stands.
impl fmt::Display for Argument {
    fn fmt<W: fmt::Write>(&self, f: &mut fmt::Formatter<W>) -> fmt::Result {
        match self {
            Argument::Time => {
                let most = Ns::MAX.get();
                write!(f, "a tick takes a time in nanoseconds, 1 to {most}")
            }
            Argument::Task | Argument::TaskAtHome(_) => {
                f.write_str("the number of a task is expected")
            }
            Argument::From => f.write_str("from"),
            Argument::Cpu | Argument::OtherCpu => f.write_str("the number of a CPU is expected"),
            Argument::Level => f.write_str("a nice level is a number from -20 to 19"),
            Argument::Slice => {
                let (least, most) = (Slice::MIN.get(), Slice::MAX.get());
                write!(
                    f,
                    "a slice is a number of nanoseconds from {least} to {most}"
                )
            }
        }
    }
}

/// What the workload has several of.
#[derive(Clone, Copy)]
pub(crate) enum Part {
    Task,
    Cpu,
}

impl Part {
    pub(crate) fn name(self) -> &'static str {
        match self {
            Part::Task => "task",
            Part::Cpu => "CPU",
        }
    }
}

/// Which of a part there are, where one that is named isn't among them.
#[derive(Clone, Copy)]
pub(crate) struct NotAmong {
    pub(crate) part: Part,
    pub(crate) count: usize,
}

impl fmt::Display for NotAmong {
    fn fmt<W: fmt::Write>(&self, f: &mut fmt::Formatter<W>) -> fmt::Result {
        let name = self.part.name();
        f.write_str("is not in the workload, which has ")?;
        match self.count {
            0 => f.write_str("none"),
            1 => write!(f, "{name} 0 alone"),
            count => write!(f, "{name}s 0 to {}", count - 1),
        }
    }
}

/// What is wrong with a word.
#[derive(Clone, Copy)]
pub(crate) enum WordReason<'a> {
    /// What is told without a word of the workload.
    Says(&'static str),
    /// A verb of programs that stands in a script.
    OfPrograms {
        word: &'a str,
        known: KnownWords,
    },
    /// A verb of a later version.
    Later {
        word: &'a str,
        version: Version,
    },
    /// No verb, but near to one.
    Near {
        word: &'a str,
        nearest: &'static str,
    },
    /// No verb.
    Unknown {
        word: &'a str,
        known: KnownWords,
    },
    /// Another word than this argument.
    Other {
        word: &'a str,
        expected: Argument,
    },
    /// A number that begins with a 0 that isn't all of it.
    ZeroInFront {
        word: &'a str,
    },
    LongTime {
        word: &'a str,
    },
    /// The number of a task or a CPU that the workload hasn't.
    NotThere {
        word: &'a str,
        among: NotAmong,
    },
    OwnPull {
        cpu: usize,
    },
    /// A word behind the last.
    More {
        word: &'a str,
    },
    /// A task that isn't at home where it begins or wakes.
    NotAtHome {
        task: &'a str,
        does: &'static str,
        home: u64,
    },
}

impl<'a> fmt::Display for WordReason<'a> {
    fn fmt<W: fmt::Write>(&self, f: &mut fmt::Formatter<W>) -> fmt::Result {
        match *self {
            WordReason::Says(text) => f.write_str(text),
            WordReason::OfPrograms { word, known } => {
                write!(
                    f,
                    "\"{word}\" stands in programs alone; operations of a script are {known}"
                )
            }
            WordReason::Later { word, version } => {
                write!(f, "\"{word}\" is known from version {version} on")
            }
            WordReason::Near { word, nearest } if word.eq_ignore_ascii_case(nearest) => {
                let word = Told(word);
                write!(
                    f,
                    "unknown operation {word}; words are in lower case, as {nearest}"
                )
            }
            WordReason::Near { word, nearest } => {
                let word = Told(word);
                write!(
                    f,
                    "unknown operation {word}; the nearest that is known is {nearest}"
                )
            }
            WordReason::Unknown { word, known } => {
                let word = Told(word);
                write!(f, "unknown operation {word}; operations are {known}")
            }
            WordReason::Other { word, expected } => {
                let word = Told(word);
                write!(f, "{expected}, and {word} is none")
            }
            WordReason::ZeroInFront { word } => {
                let word = Told(word);
                write!(f, "a number has no 0 in front, as {word} has")
            }
            WordReason::LongTime { word } => {
                let (word, most) = (shortened(word), Ns::MAX.get());
                write!(f, "tick of {word} ns; at most {most}")
            }
            WordReason::NotThere { word, among } => {
                let (part, word) = (among.part.name(), shortened(word));
                write!(f, "{part} {word} {among}")
            }
            WordReason::OwnPull { cpu } => write!(f, "CPU {cpu} pulls from itself"),
            WordReason::More { word } => {
                let word = Told(word);
                write!(f, "nothing is expected any more, and {word} stands here")
            }
            WordReason::NotAtHome { task, does, home } => {
                write!(f, "task {task} {does} at its home, CPU {home}")
            }
        }
    }
}
