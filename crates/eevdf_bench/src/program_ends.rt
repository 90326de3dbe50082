//! What the programs of the workbench have in common at their ends: the words that they are given, the file that is read, and the texts
//! that they print of themselves. A status that comes as an error ends the program.

use crate::command::WordFault;
use crate::program_words::asks_for;
use crate::told_names::told_name;
use std::alloc::{AllocError, Global};
use std::fs::Files;
use std::io::{ErrorKind, Write};
use std::rt::Env;
use std::{env, fs, io};

/// What is printed where there is no memory for another line.
pub const NO_MEMORY: &[u8] = b"fault: memory\n";

/// What is printed where a text can't be written.
pub const NO_WRITE: &[u8] = b"fault: writing\n";

/// The version of the programs and of the library, MAJOR.MINOR.PATCH.
pub const VERSION: &str = "0.8.0";

/// What a program says of itself.
#[derive(Clone, Copy)]
pub struct ProgramTexts {
    pub name: &'static str,
    pub usage: &'static [u8],
    pub help: &'static [u8],
}

impl ProgramTexts {
    /// The process's words, of which the first is the program's name. Where they ask what the program is, that is printed; where they can't
    /// be read, that is said to `refusals`.
    pub fn words(
        &self,
        rt: &(impl Env + AllocGlobal + Print),
        refusals: &impl Print,
        errors: &impl Print,
        alloc: Global,
    ) -> Result<Vec<String>, u8> {
        let words = match given_words(rt, alloc) {
            Ok(words) => words,
            Err(fault) => return Err(self.refuse(refusals, errors, fault, None)),
        };
        if asks_for(&words, "--help") || asks_for(&words, "-h") {
            return Err(print_whole(rt, errors, self.help));
        }
        if asks_for(&words, "--version") {
            return Err(match self.version(alloc) {
                Ok(text) => print_whole(rt, errors, text.as_bytes()),
                Err(_) => print(refusals, NO_MEMORY, 3),
            });
        }
        Ok(words)
    }

    /// The name of the program and its version, in a line.
    fn version(&self, alloc: Global) -> Result<String, AllocError> {
        let name = self.name;
        format!(in alloc; "{name} {VERSION}\n")
    }

    /// Says that the words aren't known, and which, where that is told, or that there is no memory for them, and gives the status.
    pub fn refuse(
        &self,
        refusals: &impl Print,
        errors: &impl Print,
        fault: WordFault,
        unknown: Option<String>,
    ) -> u8 {
        if fault == WordFault::Memory {
            return print(refusals, NO_MEMORY, 3);
        }
        let status = print(refusals, self.usage, 2);
        match unknown {
            Some(text) => print(errors, text.as_bytes(), status),
            None => status,
        }
    }

    /// Opens the file with the workload. Where that fails, `errors` is told why.
    pub fn open<R: Files>(
        &self,
        rt: &R,
        refusals: &impl Print,
        errors: &impl Print,
        alloc: Global,
        name: &str,
    ) -> Result<R::File, u8> {
        match fs::open(rt, name) {
            Ok(file) => Ok(file),
            Err(error) => {
                let status = print(refusals, self.usage, 2);
                tell_reason(errors, alloc, Some(name), Some(error));
                Err(status)
            }
        }
    }
}

fn given_words(rt: &(impl Env + AllocGlobal), alloc: Global) -> Result<Vec<String>, WordFault> {
    let arguments = match env::args(rt) {
        Ok(arguments) => arguments,
        Err(error) if error.kind() == ErrorKind::OutOfMemory => return Err(WordFault::Memory),
        Err(_) => return Err(WordFault::Words),
    };
    let words: Vec<String> = arguments.collect(alloc)?;
    Ok(words)
}

/// Says why a workload can't be read, where that is known: with the name of its file, if it has one.
pub fn tell_reason(
    errors: &impl Print,
    alloc: Global,
    file: Option<&str>,
    reason: Option<io::Error>,
) {
    let Some(error) = reason else {
        return;
    };
    if let Ok(name) = told_name(alloc, file.unwrap_or("standard input")) {
        let _ = println!(errors; "{name}: {error}");
    }
}

/// Says a text, where there is memory for it, as far as that succeeds.
pub fn tell_text(errors: &impl Print, text: Option<String>) {
    if let Some(text) = text {
        tell(errors, text.as_bytes());
    }
}

/// Says a text, as far as that succeeds.
pub fn tell(errors: &impl Print, text: &[u8]) {
    let _ = io::writer(errors).write_all(text);
}

/// Prints a text, as far as that succeeds, and gives the status.
pub fn print(rt: &impl Print, text: &[u8], status: u8) -> u8 {
    tell(rt, text);
    status
}

/// Prints all of a text that a program was asked for, and gives the status. Where that fails, `errors` is told, but of a pipe that nobody reads
/// any more.
fn print_whole(rt: &impl Print, errors: &impl Print, text: &[u8]) -> u8 {
    match io::writer(rt).write_all(text) {
        Ok(()) => 0,
        Err(error) if error.kind() == ErrorKind::BrokenPipe => 3,
        Err(_) => print(errors, NO_WRITE, 3),
    }
}
