//! Keys that nothing reads, found in the text of a workload alone, which isn't read as a document for it.

use crate::explanation::{Explanation, mark_of};
use crate::known_words::nearest_name;
use crate::parts::{Elements, Lines, Names};
use crate::reason::Reason;
use crate::tokens::{Kind, Place, Tokens};
use crate::word_texts::Told;
use eevdf_workload::{IN_DOCUMENT, IN_TASK};
use std::alloc::{AllocError, Global};
use std::fmt;

/// So many keys are told at most.
const MOST_TOLD: usize = 10;

/// What is said of a key that nothing reads.
#[derive(Clone, Copy)]
pub(crate) enum Unread<'a> {
    /// One more than are told.
    NotTold,
    Table {
        name: &'a str,
    },
    /// A key of the workload, and the known one to which it is near, if there is one.
    OfWorkload {
        name: &'a str,
        nearest: Option<&'static str>,
    },
    OfTask {
        name: &'a str,
        nearest: Option<&'static str>,
    },
    /// A key of the workload that stands in a task.
    Misplaced {
        name: &'a str,
    },
}

impl<'a> fmt::Display for Unread<'a> {
    fn fmt<W: fmt::Write>(&self, f: &mut fmt::Formatter<W>) -> fmt::Result {
        match *self {
            Unread::NotTold => f.write_str(
                "nothing reads this key either; ten are told at most, and there may be more",
            ),
            Unread::Table { name } => {
                let word = Told(name);
                write!(
                    f,
                    "nothing reads the table {word}; each table of a workload is a [[task]]"
                )
            }
            Unread::OfWorkload { name, nearest } => {
                let word = Told(name);
                write!(f, "nothing reads the key {word}; ")?;
                match nearest {
                    Some(known) => write!(f, "the nearest that is known is {known}"),
                    None => f.write_str(
                        "keys of a workload are version, program, order, script, task",
                    ),
                }
            }
            Unread::OfTask { name, nearest } => {
                let word = Told(name);
                write!(f, "nothing reads the key {word} of a task; ")?;
                match nearest {
                    Some(known) => write!(f, "the nearest that is known is {known}"),
                    None => f.write_str("keys of a task are home, nice, slice, start, asleep"),
                }
            }
            Unread::Misplaced { name } => {
                let word = Told(name);
                write!(
                    f,
                    "nothing reads {word} as a key of a task; it belongs to the workload, before the first [[task]]"
                )
            }
        }
    }
}

/// What a key belongs to.
#[derive(Clone, Copy, PartialEq, Eq)]
enum Owner {
    Workload,
    Task,
    /// A table that nothing reads.
    Unread,
}

/// A key that nothing reads, and where it stands.
#[derive(Clone, Copy)]
struct UnreadKey<'a> {
    place: Place,
    name: &'a str,
    /// What it is a key of; of a table that nothing reads it is the table's name.
    owner: Owner,
}

/// The first ten keys of a workload that nothing reads, each with its place and the nearest known key, and where there are more, the place
/// of the next one. `None` where there is no memory.
pub fn unread_keys(alloc: Global, bytes: &[u8]) -> Option<Vec<Explanation>> {
    let mut search = Search {
        bytes,
        found: Vec::new(alloc),
        before: 0,
    };
    search.in_lines().ok()?;
    let mut told = Vec::new(alloc);
    for key in search.found.iter() {
        let unread = if told.len() < MOST_TOLD {
            key.told(alloc).ok()?
        } else {
            Unread::NotTold
        };
        let explanation = Explanation {
            mark: mark_of(bytes, key.place.within(bytes)),
            message: Reason::Unread(unread).to_string(alloc).ok()?,
        };
        told.push(explanation).ok()?;
    }
    Some(told)
}

impl<'a> UnreadKey<'a> {
    fn told(self, alloc: Global) -> Result<Unread<'a>, AllocError> {
        let name = self.name;
        Ok(match self.owner {
            Owner::Workload => Unread::OfWorkload {
                name,
                nearest: nearest_name(alloc, name, &IN_DOCUMENT)?,
            },
            Owner::Task if IN_DOCUMENT.contains(&name) => Unread::Misplaced { name },
            Owner::Task => Unread::OfTask {
                name,
                nearest: nearest_name(alloc, name, &IN_TASK)?,
            },
            Owner::Unread => Unread::Table { name },
        })
    }
}

/// The keys that were found, up to one more than are told.
#[derive(Drop)]
struct Search<'a> {
    bytes: &'a [u8],
    found: Vec<UnreadKey<'a>>,
    /// How many were found before the task whose keys are looked at.
    before: usize,
}

impl<'a> Search<'a> {
    fn is_over(&self) -> bool {
        self.found.len() > MOST_TOLD
    }

    /// Adds a key that isn't among those found from a place on: the parts of one value, as `cpus.first` and `cpus.last`, have the same.
    fn add(&mut self, from: usize, key: UnreadKey<'a>) -> Result<(), AllocError> {
        for at in from..self.found.len() {
            let found = self.found[at];
            if found.name == key.name && found.owner == key.owner {
                return Ok(());
            }
        }
        self.found.push(key)?;
        Ok(())
    }

    fn in_lines(&mut self) -> Result<(), AllocError> {
        let mut lines = Lines::of(self.bytes);
        let mut owner = Owner::Workload;
        for _line in 0..lines.most() {
            let Some(line) = lines.next() else {
                return Ok(());
            };
            if self.bytes.get(line.start) == Some(&b'[') {
                owner = self.of_header(line)?;
            } else {
                self.of_pair(line, owner)?;
                if let Owner::Workload = owner {
                    self.of_tables(line)?;
                }
            }
            if self.is_over() {
                return Ok(());
            }
        }
        Ok(())
    }

    /// What the keys behind a header belong to. A header that makes no task is found.
    fn of_header(&mut self, line: Place) -> Result<Owner, AllocError> {
        let mut names = Names::of(self.bytes, line);
        let Some(place) = names.next() else {
            return Ok(Owner::Unread);
        };
        let Some(name) = name_at(self.bytes, place) else {
            return Ok(Owner::Unread);
        };
        if name == "task" {
            return match names.next() {
                Some(part) => {
                    self.of_key(part, Owner::Task)?;
                    Ok(Owner::Unread)
                }
                None => {
                    self.before = self.found.len();
                    Ok(Owner::Task)
                }
            };
        }
        if !IN_DOCUMENT.contains(&name) {
            let owner = Owner::Unread;
            self.add(0, UnreadKey { place, name, owner })?;
        }
        Ok(Owner::Unread)
    }

    /// The keys of the inline tables that are the tasks, where a line gives them so.
    fn of_tables(&mut self, line: Place) -> Result<(), AllocError> {
        let Some((key, value)) = pair_at(self.bytes, line) else {
            return Ok(());
        };
        if name_at(self.bytes, key) != Some("task") {
            return Ok(());
        }
        let mut tables = Elements::of(self.bytes, value);
        for _table in 0..tables.most() {
            let Some(table) = tables.next() else {
                return Ok(());
            };
            self.before = self.found.len();
            let mut pairs = Elements::of(self.bytes, table);
            for _pair in 0..pairs.most() {
                let Some(pair) = pairs.next() else {
                    break;
                };
                self.of_pair(pair, Owner::Task)?;
                if self.is_over() {
                    return Ok(());
                }
            }
        }
        Ok(())
    }

    /// The key of a pair, if nothing reads it.
    fn of_pair(&mut self, pair: Place, owner: Owner) -> Result<(), AllocError> {
        match pair_at(self.bytes, pair) {
            Some((key, _)) => self.of_key(key, owner),
            None => Ok(()),
        }
    }

    /// The first name of a key, if nothing reads it.
    fn of_key(&mut self, place: Place, owner: Owner) -> Result<(), AllocError> {
        let Some(name) = name_at(self.bytes, place) else {
            return Ok(());
        };
        let is_read = match owner {
            Owner::Workload => IN_DOCUMENT.contains(&name),
            Owner::Task => IN_TASK.contains(&name),
            Owner::Unread => true,
        };
        if !is_read {
            self.add(self.before, UnreadKey { place, name, owner })?;
        }
        Ok(())
    }
}

/// The first name of the key and the value of the pair at a place.
fn pair_at(bytes: &[u8], pair: Place) -> Option<(Place, Place)> {
    let mut tokens = Tokens::within(bytes, pair);
    let key = tokens.next()?;
    for _token in 0..tokens.most() {
        match tokens.next()?.kind {
            Kind::Equals => {
                let value = tokens.next()?;
                return Some((key.place, value.place.up_to(pair)));
            }
            Kind::Dot | Kind::Word => {}
            _ => return None,
        }
    }
    None
}

/// The name at a place, without its quotes. One that is written with an escape isn't looked at.
fn name_at(bytes: &[u8], place: Place) -> Option<&str> {
    let word = bytes.get(place.start..place.end)?;
    let inner = match word {
        [b'"', inner @ .., b'"'] => inner,
        [b'\'', inner @ .., b'\''] => inner,
        _ => word,
    };
    if inner.contains(&b'\\') {
        return None;
    }
    std::str::from_utf8(inner).ok()
}
