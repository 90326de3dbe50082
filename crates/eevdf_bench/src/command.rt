//! The command for which the program's words ask.

ghost use Rattle.std.specs.Prelude.{◌≡◌, IfOk, Err, Some, map, option_map, option_and_then, true, false, is_some};
ghost use Rattle.clap.specs.Words.{app_of, kind_of, subcommand_name_of, subcommand_of, subcommand_rows_of, with_subcommand};
ghost use Rattle.clap.specs.declared.builder.command.Command.TheViews.{out-Command as fields_of};
ghost use Rattle.eevdf_bench.specs.Command as spec;
ghost use Rattle.eevdf_bench.specs.declared.command.WordFault.TheVariants.{Memory};

use clap::error::ErrorKind;
use clap::{Arg, ArgAction, ArgMatches, Error};
use eevdf_report::Form;
use std::alloc::{AllocError, Global};
use std::convert::AsStr;
use std::fmt;

/// What the program is asked to do with a workload.
#[derive(Clone, Copy, PartialEq, Eq, Debug)]
pub enum Kind {
    /// It applies the script's deeds in one thread.
    Solo,
    /// It plays the programs' steps in the order that the workload gives.
    Replay,
    /// It runs the programs at the same time, each by a thread of its own.
    Run,
}

impl Kind {
    fn word(self) -> &'static str
        ensures { result.now ≡ spec.word_of self }
    {
        match self {
            Kind::Solo => "solo",
            Kind::Replay => "replay",
            Kind::Run => "run",
        }
    }
}

/// The subcommand's word.
impl fmt::Display for Kind {
    ghost output = { λ kind. Some (spec.word_of kind) };

    fn fmt<W: fmt::Write>(&self, f: &mut fmt::Formatter<W>) -> fmt::Result {
        f.write_str(self.word())
    }
}

/// What the program's words ask for.
#[derive(Clone, Copy, PartialEq, Eq, Debug)]
pub struct Command {
    pub kind: Kind,
    /// In which form the report is to be printed.
    pub form: Form,
}

/// Words that ask for this, as `solo --history`.
impl fmt::Display for Command {
    ghost output = { λ command. Some (spec.command_text command) };

    fn fmt<W: fmt::Write>(&self, f: &mut fmt::Formatter<W>) -> fmt::Result {
        f.write_str(self.kind.word())?;
        f.write_str(flag_text(self.form.history, " --history"))?;
        f.write_str(flag_text(self.form.times, " --times"))
    }
}

// A flag behind the command, where it is given.
fn flag_text(given: bool, flag: &'static str) -> &'static str
    ensures { result.now ≡ spec.flag_text given flag.now }
{
    if given { flag } else { "" }
}

/// Why the words gave no command.
#[derive(Clone, Copy, PartialEq, Eq, Debug)]
pub enum WordFault {
    /// They are no command line of the program, as a call for help isn't.
    Words,
    /// Out of memory.
    Memory,
}

/// What is wrong, in words.
impl fmt::Display for WordFault {
    ghost output = { λ fault. Some (spec.word_fault_text fault) };

    fn fmt<W: fmt::Write>(&self, f: &mut fmt::Formatter<W>) -> fmt::Result {
        match self {
            WordFault::Words => f.write_str("not a command line of this program"),
            WordFault::Memory => f.write_str("memory"),
        }
    }
}

impl std::error::Error for WordFault {}

impl From<Error> for WordFault {
    ghost from_gives = { λ e f. f ≡ spec.word_fault (kind_of e) };

    fn from(error: Error) -> WordFault {
        match error.kind() {
            ErrorKind::OutOfMemory => WordFault::Memory,
            _ => WordFault::Words,
        }
    }
}

impl From<AllocError> for WordFault {
    ghost from_gives = { λ _ f. f ≡ Memory };

    fn from(_error: AllocError) -> WordFault {
        WordFault::Memory
    }
}

/// Reads the program's words, of which the first is the program's name. `Memory` may come in place of any other answer.
pub fn command_of<S: AsStr>(alloc: Global, words: &[S]) -> Result<Command, WordFault>
    ensures ok { IfOk result (spec.IsAskedBy (map S.text words.now)) }
    ensures refused { result ≡ Err WordFault.Words → spec.is_taken (map S.text words.now) ≡ false }
{
    let matches = matches_of(alloc, words)?;
    let kind = matches.subcommand_name().and_then(kind_named);
    let history = has_flag(&matches, "history");
    let times = has_flag(&matches, "times");
    match kind {
        Some(kind) => Ok(Command {
            kind,
            form: Form { history, times },
        }),
        None => Err(WordFault::Words),
    }
}

fn matches_of<'a, S: AsStr>(alloc: Global, words: &'a [S]) -> Result<ArgMatches<'a>, WordFault>
    ensures ok { IfOk result (λ m. (spec.is_taken (map S.text words.entry.now) ≡ true)
        × (is_some (option_and_then spec.kind_named (subcommand_name_of m)) ≡ true)
        × (spec.subcommand_named (map S.text words.entry.now) ≡ subcommand_name_of m)
        × (subcommand_rows_of m ≡ subcommand_of spec.program (map S.text words.entry.now))) }
    ensures refused { result ≡ Err WordFault.Words
        → spec.is_taken (map S.text words.entry.now) ≡ false }
{
    let matches = whole_program(alloc)?.try_get_matches_from(words)?;
    Ok(matches)
}

// The program as `clap` knows it, with its subcommands.
fn whole_program<'a>(alloc: Global) -> Result<clap::Command<'a>, AllocError>
    ensures model { IfOk result (λ c. app_of c ≡ spec.program) }
    ensures local { IfOk result (λ c. (fields_of c).has_globals ≡ false) }
{
    let one = with_command(alloc, program(alloc), Kind::Solo.word())?;
    let two = with_command(alloc, one, Kind::Replay.word())?;
    with_command(alloc, two, Kind::Run.word())
}

// The program without its subcommands.
fn program<'a>(alloc: Global) -> clap::Command<'a>
    ensures model { app_of result ≡ spec.bare_program }
    ensures local { (fields_of result).has_globals ≡ false }
{
    clap::Command::new(alloc, "eevdf")
        .subcommand_required(true)
        .disable_help_flag(true)
        .disable_help_subcommand(true)
}

// The same with another subcommand.
fn with_command<'a>(
    alloc: Global,
    program: clap::Command<'a>,
    name: &'a str,
) -> Result<clap::Command<'a>, AllocError>
    requires { (fields_of program).has_globals ≡ false }
    ensures model { IfOk result (λ c. app_of c
        ≡ with_subcommand (app_of program.entry) (spec.subcommand name.entry.now).top) }
    ensures local { IfOk result (λ c. (fields_of c).has_globals ≡ false) }
{
    let command = subcommand(alloc, name)?;
    program.subcommand(command)
}

// A subcommand with its flags.
fn subcommand<'a>(alloc: Global, name: &'a str) -> Result<clap::Command<'a>, AllocError>
    ensures model { IfOk result (λ c. app_of c ≡ spec.subcommand name.entry.now) }
    ensures local { IfOk result (λ c. (fields_of c).has_globals ≡ false) }
{
    let history = Arg::new(alloc, "history")
        .long("history")
        .action(ArgAction::SetTrue);
    let times = Arg::new(alloc, "times")
        .long("times")
        .action(ArgAction::SetTrue);
    let with_history = clap::Command::new(alloc, name).arg(history)?;
    with_history.arg(times)
}

// Whether a flag of the subcommand was given. `clap` holds a flag as the text `true` or `false`.
fn has_flag(matches: &ArgMatches<'_>, name: &'static str) -> bool
    ensures { result ≡ spec.flag_in name.now (option_map (λ p. p.1) (subcommand_rows_of matches.now)) }
{
    match matches.subcommand() {
        Some((_, found)) => found.get_str(name) == Some("true"),
        None => false,
    }
}

fn kind_named(word: &str) -> Option<Kind>
    ensures { result ≡ spec.kind_named word.now }
{
    match word {
        "solo" => Some(Kind::Solo),
        "replay" => Some(Kind::Replay),
        "run" => Some(Kind::Run),
        _ => None,
    }
}
