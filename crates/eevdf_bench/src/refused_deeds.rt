//! The deeds of a script that were refused.

ghost use Rattle.std.specs.Prelude.{◌≡◌, None};
ghost use Rattle.eevdf_bench.specs.RefusedDeeds as spec;

use eevdf_ops::Line;
use std::alloc::Global;

/// So many refused deeds are told one by one.
const MOST_TOLD: usize = 10;

/// A deed of a script that was refused.
#[derive(Clone, Copy, PartialEq, Eq, Debug)]
pub struct RefusedDeed {
    /// Its place in the script, from 0 on.
    pub at: usize,
    /// The deed with its answer.
    pub line: Line,
}

/// The deeds of a script that were refused.
#[derive(Drop)]
pub struct RefusedDeeds {
    /// The first of them.
    pub first: Option<RefusedDeed>,
    /// The first ten, or as many as there was memory for.
    pub told: Vec<RefusedDeed>,
    /// How many there are.
    pub count: usize,
}

impl RefusedDeeds {
    /// Of a script that wasn't done.
    pub fn none(alloc: Global) -> Self
        ensures { result.first ≡ None }
    {
        RefusedDeeds {
            first: None,
            told: Vec::new(alloc),
            count: 0,
        }
    }

    /// Of the script whose deeds, with their answers, are these lines. Which of them are told follows from no clause.
    pub fn of(alloc: Global, lines: &[Line]) -> Self
        ensures first { result.first ≡ spec.first_refused 0 lines.now }
        ensures count { result.count ≡ spec.refused_among lines.now }
    {
        let told = told_of(alloc, lines);
        RefusedDeeds {
            first: first_refused(lines),
            told,
            count: refused_among(lines),
        }
    }
}

/// The first ten of these lines that are refused, as far as there is memory.
fn told_of(alloc: Global, lines: &[Line]) -> Vec<RefusedDeed> {
    let mut told = Vec::new(alloc);
    for at in 0..lines.len() {
        let line = lines[at];
        if told.len() < MOST_TOLD && line.is_refused() {
            let _ = told.push(RefusedDeed { at, line });
        }
    }
    told
}

/// How many of these lines are refused.
fn refused_among(lines: &[Line]) -> usize
    ensures { result ≡ spec.refused_among lines.now }
{
    let mut count = 0;
    let mut left = lines;
    'lines: while let [line, after @ ..] = left {
        if line.is_refused() {
            count += 1;
        }
        left = after;
    }
    count
}

/// The first deed of these lines that was refused.
fn first_refused(lines: &[Line]) -> Option<RefusedDeed>
    ensures { result ≡ spec.first_refused 0 lines.now }
{
    let mut at = 0;
    let mut left = lines;
    'lines: while let [line, after @ ..] = left {
        if line.is_refused() {
            return Some(RefusedDeed { at, line: *line });
        }
        at += 1;
        left = after;
    }
    None
}
