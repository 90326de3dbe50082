//! What is said of words that aren't known.

use crate::words::{LEAST_WIDTH, MOST_WIDTH, is_width};
use eevdf_bench::{is_flag, may_name_file};
use eevdf_explain::told_word;
use eevdf_ops::CpuId;
use eevdf_queue::TaskId;
use std::alloc::{AllocError, Global};

const FLAGS: [&str; 8] = [
    "--replay",
    "--run",
    "--html",
    "--perfetto",
    "--table",
    "--stats",
    "--json",
    "--race",
];

const WITH_TIME: [&str; 2] = ["--from", "--to"];

/// The flags that have a value behind them.
pub(crate) const WITH_VALUE: [&str; 6] = ["--rows", "--width", "--from", "--to", "--cpu", "--task"];

fn takes_value(word: &str) -> bool {
    WITH_VALUE.contains(&word)
}

/// Which word isn't known, or what doesn't stand together.
pub(crate) fn unknown_word(
    alloc: Global,
    words: &[String],
    has_file: bool,
) -> Result<String, AllocError> {
    for at in 1..words.len() {
        let before = if at > 1 { words[at - 1].as_str() } else { "" };
        let word = words[at].as_str();
        if takes_value(before) {
            if let Some(text) = bad_value(alloc, before, word)? {
                return Ok(text);
            }
        } else if let Some((flag, value)) = with_own_value(word) {
            if let Some(text) = bad_value(alloc, flag, value)? {
                return Ok(text);
            }
        } else if !FLAGS.contains(&word) && !takes_value(word) {
            let told = told_word(alloc, word)?;
            if has_file && (word == "-" || may_name_file(word)) {
                return format!(in alloc; "one file is read, and {told} is another\n");
            }
            return format!(in alloc; "unknown word {told}; --help names those that are known\n");
        }
    }
    match words.last() {
        Some(last) if takes_value(last.as_str()) => {
            format!(in alloc; "{last} takes a value, and none stands behind it\n")
        }
        _ => together(alloc, words),
    }
}

/// The flag and the value of a word that has both, as `--cpu=0`.
fn with_own_value(word: &str) -> Option<(&'static str, &str)> {
    for flag in WITH_VALUE.iter() {
        if let Some(left) = word.strip_prefix(*flag) {
            if let Some(value) = left.strip_prefix("=") {
                return Some((*flag, value));
            }
        }
    }
    None
}

fn bad_value(alloc: Global, flag: &str, value: &str) -> Result<Option<String>, AllocError> {
    let told = told_word(alloc, value)?;
    if flag == "--rows" {
        return if value == "cpus" || value == "tasks" {
            Ok(None)
        } else {
            let text = format!(in alloc; "--rows takes cpus or tasks, and {told} is neither\n")?;
            Ok(Some(text))
        };
    }
    if flag == "--width" {
        return match value.parse::<u64>() {
            Ok(width) if is_width(width) => Ok(None),
            _ => {
                let text = format!(in alloc;
                    "--width takes a whole number of pixels from {LEAST_WIDTH} to {MOST_WIDTH}, and {told} is none\n"
                )?;
                Ok(Some(text))
            }
        };
    }
    if WITH_TIME.contains(&flag) {
        return match value.parse::<u64>() {
            Ok(_) => Ok(None),
            Err(_) => {
                let text = format!(in alloc;
                    "{flag} takes a whole number of nanoseconds below 2^64, and {told} is none\n"
                )?;
                Ok(Some(text))
            }
        };
    }
    let greatest = greatest_of(flag);
    for word in value.split(',') {
        match word.parse::<usize>() {
            Ok(number) if number <= greatest => {}
            _ => {
                let told = told_word(alloc, word)?;
                let text = format!(in alloc;
                    "{flag} takes numbers from 0 to {greatest} with commas between them, and {told} is none\n"
                )?;
                return Ok(Some(text));
            }
        }
    }
    Ok(None)
}

/// The greatest number of a CPU, or of a task, whichever the flag chooses.
fn greatest_of(flag: &str) -> usize {
    if flag == "--cpu" {
        CpuId::COUNT - 1
    } else {
        TaskId::COUNT - 1
    }
}

/// What doesn't stand together, of words that are known.
fn together(alloc: Global, words: &[String]) -> Result<String, AllocError> {
    let has = |flag: &str| words.iter().any(|word| is_flag(word.as_str(), flag));
    let text = if has("--replay") && has("--run") {
        "--replay and --run exclude each other\n"
    } else if has("--race") && !has("--replay") {
        "--race stands with --replay\n"
    } else if has("--race")
        && (has("--html")
            || has("--perfetto")
            || has("--table")
            || has("--stats")
            || has("--json"))
    {
        "--race excludes --html, --perfetto, --table, --stats and --json\n"
    } else if has("--race") && (has("--rows") || has("--cpu") || has("--task")) {
        "a race is of all CPUs and tasks: --race excludes --rows, --cpu and --task\n"
    } else if has("--race") && has("--width") {
        "a race is as wide as its steps: --race excludes --width\n"
    } else if has("--html")
        && (has("--perfetto") || has("--table") || has("--stats") || has("--json"))
    {
        "--html excludes --perfetto, --table, --stats and --json\n"
    } else if has("--perfetto") && (has("--stats") || has("--json")) {
        "--perfetto excludes --stats and --json\n"
    } else if has("--table") && (has("--perfetto") || has("--stats") || has("--json")) {
        "--table excludes --perfetto, --stats and --json\n"
    } else if has("--rows") && (has("--perfetto") || has("--table") || has("--stats")) {
        "rows are of a picture: --rows excludes --perfetto, --table and --stats\n"
    } else if has("--width") && (has("--perfetto") || has("--table") || has("--stats")) {
        "a width is of a picture: --width excludes --perfetto, --table and --stats\n"
    } else if has("--json") && !has("--stats") {
        "--json stands with --stats\n"
    } else if has("--to") {
        "the time of --to is after that of --from, which is 0 where it isn't given; each stands once\n"
    } else {
        "each word stands once\n"
    };
    text.to_string(alloc)
}

/// That the workload hasn't the CPU or the task that the words choose.
pub(crate) fn beyond(alloc: Global, flag: &str, number: usize) -> Result<String, AllocError> {
    let one = if flag == "--cpu" { "CPU" } else { "task" };
    format!(in alloc; "{flag} {number}: the workload has no {one} {number}\n")
}
