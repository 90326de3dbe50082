//! What the program's words ask for.

use eevdf_bench::{Command, WordFault, command_of, may_name_file, take_file, take_flag};
use eevdf_explain::told_word;
use std::alloc::Global;

/// The words for commands, which come first, and those that may come behind.
const COMMANDS: [&str; 3] = ["solo", "replay", "run"];

const HISTORY: &str = "--history";

const TIMES: &str = "--times";

const STRICT: &str = "--strict";

/// What is asked for.
#[derive(Drop)]
pub(crate) struct Asked {
    pub(crate) command: Command,
    /// Whether a deed of the script that is refused is a fault.
    pub(crate) strict: bool,
    /// The word for the file, which may be `-`.
    pub(crate) file: Option<String>,
}

/// Why the words aren't taken, with what was taken of them.
#[derive(Drop)]
pub(crate) struct Refused {
    pub(crate) fault: WordFault,
    file: Option<String>,
}

/// Reads the program's words, of which the first is the program's name, the second a command; flags and the name of a file may come behind in
/// any order. The name is taken out of them, and so is `--strict` behind `solo`.
pub(crate) fn words_of(alloc: Global, words: &mut Vec<String>) -> Result<Asked, Refused> {
    let file = take_file(words, 2, &[]);
    let strict = is_solo(words) && take_flag(words, 2, STRICT);
    match command_of(alloc, words.as_slice()) {
        Ok(command) => Ok(Asked {
            command,
            strict,
            file,
        }),
        Err(fault) => Err(Refused { fault, file }),
    }
}

/// Whether the words ask for `solo`.
fn is_solo(words: &[String]) -> bool {
    match words.get(1) {
        Some(word) => word.as_str() == "solo",
        None => false,
    }
}

/// Which word isn't known, of those that are left, where there is memory to say it.
pub(crate) fn unknown_word(alloc: Global, words: &[String], refused: &Refused) -> Option<String> {
    let Some(command) = words.get(1) else {
        return "no command; commands are solo, replay, run\n"
            .to_string(alloc)
            .ok();
    };
    if !COMMANDS.contains(&command.as_str()) {
        let told = told_word(alloc, command.as_str()).ok()?;
        return format!(in alloc; "unknown command {told}; commands are solo, replay, run\n").ok();
    }
    for at in 2..words.len() {
        let word = words[at].as_str();
        if word == STRICT {
            return "--strict stands once, behind solo\n".to_string(alloc).ok();
        }
        if word != HISTORY && word != TIMES {
            return unknown_behind(alloc, word, &refused.file);
        }
    }
    let twice = if stands_twice(words, HISTORY) {
        HISTORY
    } else {
        TIMES
    };
    format!(in alloc; "{twice} stands once\n").ok()
}

/// Whether a word stands twice behind the command.
fn stands_twice(words: &[String], flag: &str) -> bool {
    let mut count = 0u64;
    for at in 2..words.len() {
        if words[at].as_str() == flag {
            count = count.saturating_add(1);
        }
    }
    count > 1
}

/// A word behind the command that isn't known, or names a second file.
fn unknown_behind(alloc: Global, word: &str, file: &Option<String>) -> Option<String> {
    let told = told_word(alloc, word).ok()?;
    match file {
        Some(first) if word == "-" || may_name_file(word) => {
            let first = told_word(alloc, first.as_str()).ok()?;
            format!(in alloc; "one file is read, {first}, and {told} is another\n").ok()
        }
        _ => {
            format!(in alloc;
                "unknown word {told}; behind a command stand --history, --times, of solo --strict, and the name of a file\n"
            ).ok()
        }
    }
}
