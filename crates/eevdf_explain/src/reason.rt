//! What may be wrong with a workload, and how that is told.

use crate::unread::Unread;
use crate::word_reason::{NotAmong, WordReason};
use eevdf_queue::TaskId;
use eevdf_workload::{Key, Version, Workload};
use std::fmt;

/// What is said of a place in a workload.
#[derive(Clone, Copy)]
pub(crate) enum Reason<'a> {
    /// What is told without a number of the workload.
    Says(&'a str),
    /// A word of an operation or a deed is wrong.
    Word(WordReason<'a>),
    /// A key that nothing reads.
    Unread(Unread<'a>),
    TooLarge,
    /// A key that belongs before the first header.
    BelowHeader {
        key: Key,
    },
    Missing {
        key: Key,
    },
    /// A value of another type than is expected.
    OfType {
        expected: &'static str,
        kind: &'a str,
    },
    /// A home that is no number of a CPU.
    NoHome {
        version: Version,
    },
    /// A home that the workload hasn't.
    Home {
        home: u64,
        among: NotAmong,
    },
    Deeds {
        count: usize,
        version: Version,
    },
    Programs {
        count: usize,
        version: Version,
    },
    Tasks {
        count: usize,
    },
    Operations {
        count: usize,
    },
}

impl<'a> fmt::Display for Reason<'a> {
    fn fmt<W: fmt::Write>(&self, f: &mut fmt::Formatter<W>) -> fmt::Result {
        match *self {
            Reason::Says(text) => f.write_str(text),
            Reason::Word(reason) => write!(f, "{reason}"),
            Reason::Unread(unread) => write!(f, "{unread}"),
            Reason::TooLarge => write!(f, "a workload has at most {} bytes", Workload::MOST_BYTES),
            Reason::BelowHeader { key } => write!(
                f,
                "{key} stands below a header, and so is a key of that table; it belongs before the first [[task]]"
            ),
            Reason::Missing { key } => write!(f, "{key} is expected"),
            Reason::OfType { expected, kind } => {
                write!(f, "{expected}, and this is of type {kind}")
            }
            Reason::NoHome { version } => {
                let last = version.limits().cpus.saturating_sub(1);
                write!(
                    f,
                    "home is the number of a CPU, an integer from 0 to {last} in version {version}"
                )
            }
            Reason::Home { home, among } => write!(f, "CPU {home} {among}"),
            Reason::Deeds { count, version } => {
                let most = version.limits().deeds;
                write!(
                    f,
                    "a script of {count} deeds; at most {most} in version {version}"
                )
            }
            Reason::Programs { count, version } => {
                let most = version.limits().cpus;
                write!(
                    f,
                    "{count} programs; a workload has 1 to {most}, one for each CPU, in version {version}"
                )
            }
            Reason::Tasks { count } => {
                write!(f, "{count} tasks; a workload has 1 to {}", TaskId::COUNT)
            }
            Reason::Operations { count } => {
                write!(f, "a program of {count} operations; at most 10000")
            }
        }
    }
}
