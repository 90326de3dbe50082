//! What the process's words ask for.

use eevdf_bench::may_name_file;
use eevdf_explain::told_word;
use std::alloc::{AllocError, Global};

/// What is printed.
#[derive(Clone, Copy, PartialEq, Eq, Debug)]
pub(crate) enum Output {
    /// The script, as a workload.
    Script,
    /// The deeds with their answers.
    Answers,
    /// What each task came to.
    Figures,
}

/// What is read.
#[derive(Clone, Copy, PartialEq, Eq, Debug)]
pub(crate) enum Source {
    /// A workload of phases.
    Phases,
    /// The trace of a real machine.
    Trace,
}

/// What is read, and what is printed of it.
#[derive(Clone, Copy, PartialEq, Eq, Debug)]
pub(crate) struct Asked {
    pub source: Source,
    pub output: Output,
    /// Whether a terminal is told how far it is; no word says that.
    pub is_watched: bool,
}

/// The flag behind which stands what is read.
pub(crate) const FROM: &'static str = "--from";

/// What a word is, beside the name of a file.
#[derive(Clone, Copy)]
enum Flag {
    Of(Output),
    /// The next word says what is read.
    From,
    /// Behind a `=` stands that a trace is read.
    FromTrace,
}

/// What the words ask for, of which the first is the program's name and none is that of a file. `None` where they aren't known.
pub(crate) fn asked_of(words: &[String]) -> Option<Asked> {
    let mut output = None;
    let mut source = None;
    let mut is_value = false;
    for at in 1..words.len() {
        let word = words[at].as_str();
        if is_value {
            source = Some(source_named(word)?);
            is_value = false;
            continue;
        }
        match flag_of(word)? {
            Flag::Of(named) if output.is_none() => output = Some(named),
            Flag::From if source.is_none() => is_value = true,
            Flag::FromTrace if source.is_none() => source = Some(Source::Trace),
            _ => return None,
        }
    }
    if is_value {
        return None;
    }
    Some(Asked {
        source: source.unwrap_or(Source::Phases),
        output: output.unwrap_or(Output::Script),
        is_watched: false,
    })
}

fn flag_of(word: &str) -> Option<Flag> {
    match word {
        "--run" => Some(Flag::Of(Output::Answers)),
        "--stats" => Some(Flag::Of(Output::Figures)),
        "--from" => Some(Flag::From),
        "--from=trace" => Some(Flag::FromTrace),
        _ => None,
    }
}

fn source_named(word: &str) -> Option<Source> {
    if word == "trace" {
        Some(Source::Trace)
    } else {
        None
    }
}

/// Which of the words isn't known, or what doesn't stand together.
pub(crate) fn unknown_word(
    alloc: Global,
    words: &[String],
    has_file: bool,
) -> Result<String, AllocError> {
    let mut is_value = false;
    let mut has_source = false;
    for at in 1..words.len() {
        let word = words[at].as_str();
        if is_value {
            if source_named(word).is_none() {
                let told = told_word(alloc, word)?;
                return format!(in alloc; "unknown value {told} of --from, which is trace\n");
            }
            is_value = false;
            continue;
        }
        match flag_of(word) {
            Some(Flag::Of(_)) => {}
            Some(_) if has_source => return "--from stands once\n".to_string(alloc),
            Some(flag) => {
                has_source = true;
                is_value = matches!(flag, Flag::From);
            }
            None => return unknown(alloc, word, has_file),
        }
    }
    if is_value {
        return "behind --from stands trace\n".to_string(alloc);
    }
    "--run and --stats exclude each other, and each stands once\n".to_string(alloc)
}

/// What is said of a word that isn't known.
fn unknown(alloc: Global, word: &str, has_file: bool) -> Result<String, AllocError> {
    let told = told_word(alloc, word)?;
    if has_file && (word == "-" || may_name_file(word)) {
        return format!(in alloc; "one file is read, and {told} is another\n");
    }
    format!(in alloc;
        "unknown word {told}; words are --run or --stats, --from trace, and the name of a file\n"
    )
}
