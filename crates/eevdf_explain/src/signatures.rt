//! The words that operations and deeds begin with: from which version on each is known, where it stands, and what it takes.

use crate::word_reason::Argument;
use eevdf_workload::Version;

/// A word that operations begin with, the first version that knows it, where it stands, and what stands behind it, in order.
#[derive(Clone, Copy)]
pub(crate) struct Signature(&'static str, Version, Stands, &'static [Argument]);

/// Where such a word may stand.
#[derive(Clone, Copy)]
pub(crate) enum Stands {
    InBoth,
    InPrograms,
    InScripts,
}

const ONE: Version = Version::One;

const TWO: Version = Version::Two;

const THREE: Version = Version::Three;

const FOUR: Version = Version::Four;

const NOTHING: &[Argument] = &[];

const TIME: &[Argument] = &[Argument::Time];

const TASK: &[Argument] = &[Argument::Task];

const LEVEL: &[Argument] = &[Argument::Task, Argument::Level];

const STATE: &[Argument] = &[Argument::Task, Argument::Level, Argument::Slice];

const NEW_TASK: &[Argument] = &[
    Argument::TaskAtHome("begins"),
    Argument::Level,
    Argument::Slice,
];

const SENDER: &[Argument] = &[
    Argument::TaskAtHome("sleeps and wakes"),
    Argument::From,
    Argument::Cpu,
];

/// All of them, in the order in which they are told.
pub(crate) const SIGNATURES: [Signature; 14] = [
    Signature("tick", ONE, Stands::InBoth, TIME),
    Signature("pick", ONE, Stands::InBoth, NOTHING),
    Signature("yield", ONE, Stands::InBoth, NOTHING),
    Signature("sleep", ONE, Stands::InBoth, TASK),
    Signature("pull", ONE, Stands::InBoth, &[Argument::OtherCpu]),
    Signature("renice", TWO, Stands::InBoth, LEVEL),
    Signature("begin", THREE, Stands::InBoth, NEW_TASK),
    Signature("end", THREE, Stands::InBoth, TASK),
    Signature("set", THREE, Stands::InBoth, STATE),
    Signature("rebase", THREE, Stands::InBoth, NOTHING),
    Signature("doze", FOUR, Stands::InBoth, TASK),
    Signature("post", ONE, Stands::InPrograms, TASK),
    Signature("drain", ONE, Stands::InPrograms, NOTHING),
    Signature("wake", ONE, Stands::InScripts, SENDER),
];

impl Signature {
    /// That of a word, if operations begin with it.
    pub(crate) fn of(word: &str) -> Option<Signature> {
        for signature in SIGNATURES.iter() {
            if signature.word() == word {
                return Some(*signature);
            }
        }
        None
    }

    pub(crate) fn word(&self) -> &'static str {
        self.0
    }

    /// What stands behind it, in order.
    pub(crate) fn takes(&self) -> &'static [Argument] {
        self.3
    }

    /// The first version that knows it.
    pub(crate) fn since(&self) -> Version {
        self.1
    }

    pub(crate) fn is_known(&self, version: Version) -> bool {
        match self.1 {
            Version::One => true,
            Version::Two => version.limits().renice,
            Version::Three => version.limits().begin,
            Version::Four => version.limits().doze,
        }
    }

    /// Whether it stands in programs, or else in scripts.
    pub(crate) fn stands(&self, in_program: bool) -> bool {
        match self.2 {
            Stands::InBoth => true,
            Stands::InPrograms => in_program,
            Stands::InScripts => !in_program,
        }
    }
}
