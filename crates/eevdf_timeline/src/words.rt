//! What the program's words ask for.

use clap::{Arg, ArgAction, ArgMatches, Command};
use eevdf_bench::{Kind, WordFault};
use eevdf_ops::CpuId;
use eevdf_queue::TaskId;
use eevdf_scene::{Choice, View};
use std::alloc::{AllocError, Global};
use std::convert::AsStr;

/// How wide a picture is in pixels, at least and at most, and where no word says.
pub(crate) const LEAST_WIDTH: u64 = 320;

pub(crate) const MOST_WIDTH: u64 = 10_000;

const WIDTH: u64 = 1000;

/// What is written.
#[derive(Clone, Copy, PartialEq, Eq, Debug)]
pub enum Output {
    /// A picture, as SVG.
    Picture,
    /// A page with the picture, the table and the figures, as HTML.
    Page,
    /// A trace, as Trace Event JSON.
    Trace,
    /// A picture of the steps of an order's callers, above the history that comes out.
    Race,
    /// A line for each stretch, as text in columns.
    Table,
    /// Figures as text in columns.
    Figures,
    /// The same figures as JSON.
    Json,
}

/// What is asked for.
#[derive(Drop)]
pub struct Words {
    /// Whether the script is done, the order played or the programs run.
    pub source: Kind,
    pub output: Output,
    /// What of the history is shown.
    pub view: View,
    /// How wide a picture is, in pixels.
    pub width: u64,
    /// The name of the file that is read, where it isn't standard input.
    pub file: Option<String>,
}

impl Words {
    pub(crate) fn file_name(&self) -> Option<&str> {
        match &self.file {
            Some(name) => Some(name.as_str()),
            None => None,
        }
    }
}

/// Reads the program's words but for the file that they name. The first is the program's name.
pub(crate) fn words_of<S: AsStr>(
    alloc: Global,
    words: &[S],
    file: Option<&str>,
) -> Result<Words, WordFault> {
    let matches = program(alloc)?.try_get_matches_from(words)?;
    asked_by(alloc, &matches, file)
}

fn asked_by(
    alloc: Global,
    matches: &ArgMatches<'_>,
    file: Option<&str>,
) -> Result<Words, WordFault> {
    let source = source_of(matches.get_flag("replay"), matches.get_flag("run"))?;
    let output = output_of(matches)?;
    let by_task = is_by_task(output, matches.get_str("rows"))?;
    let width = width_of(output, matches.get_str("width"))?;
    let has_choice = matches.get_str("cpu").is_some() || matches.get_str("task").is_some();
    check_race(output, source, has_choice)?;
    let from = number_of(matches.get_str("from"))?;
    let to = number_of(matches.get_str("to"))?;
    check_window(from, to)?;
    let cpus = chosen(alloc, matches.get_str("cpu"), CpuId::COUNT)?;
    let tasks = chosen(alloc, matches.get_str("task"), TaskId::COUNT)?;
    Ok(Words {
        source,
        output,
        view: View {
            cpus: Choice::of(cpus),
            tasks: Choice::of(tasks),
            by_task,
            from: from.unwrap_or(0),
            to,
        },
        width,
        file: match file {
            Some(name) => Some(String::from_str(alloc, name)?),
            None => None,
        },
    })
}

fn source_of(replay: bool, run: bool) -> Result<Kind, WordFault> {
    match (replay, run) {
        (false, false) => Ok(Kind::Solo),
        (true, false) => Ok(Kind::Replay),
        (false, true) => Ok(Kind::Run),
        (true, true) => Err(WordFault::Words),
    }
}

fn output_of(matches: &ArgMatches<'_>) -> Result<Output, WordFault> {
    match (
        matches.get_flag("html"),
        matches.get_flag("perfetto"),
        matches.get_flag("table"),
        matches.get_flag("stats"),
        matches.get_flag("json"),
        matches.get_flag("race"),
    ) {
        (false, false, false, false, false, false) => Ok(Output::Picture),
        (true, false, false, false, false, false) => Ok(Output::Page),
        (false, true, false, false, false, false) => Ok(Output::Trace),
        (false, false, true, false, false, false) => Ok(Output::Table),
        (false, false, false, true, false, false) => Ok(Output::Figures),
        (false, false, false, true, true, false) => Ok(Output::Json),
        (false, false, false, false, false, true) => Ok(Output::Race),
        _ => Err(WordFault::Words),
    }
}

/// Rows are chosen of a picture alone, that of a page too.
fn is_by_task(output: Output, value: Option<&str>) -> Result<bool, WordFault> {
    let Some(word) = value else {
        return Ok(false);
    };
    if has_picture(output) && word == "tasks" {
        Ok(true)
    } else if has_picture(output) && word == "cpus" {
        Ok(false)
    } else {
        Err(WordFault::Words)
    }
}

/// So is a width.
fn width_of(output: Output, value: Option<&str>) -> Result<u64, WordFault> {
    match number_of(value)? {
        None => Ok(WIDTH),
        Some(width) if has_picture(output) && is_width(width) => Ok(width),
        Some(_) => Err(WordFault::Words),
    }
}

pub(crate) fn is_width(pixels: u64) -> bool {
    LEAST_WIDTH <= pixels && pixels <= MOST_WIDTH
}

fn has_picture(output: Output) -> bool {
    output == Output::Picture || output == Output::Page
}

/// A race is of an order, and of all CPUs and tasks.
fn check_race(output: Output, source: Kind, has_choice: bool) -> Result<(), WordFault> {
    if output == Output::Race && (source != Kind::Replay || has_choice) {
        Err(WordFault::Words)
    } else {
        Ok(())
    }
}

/// A window has some length.
fn check_window(from: Option<u64>, to: Option<u64>) -> Result<(), WordFault> {
    let is_empty = to.is_some_and(|end| end <= from.unwrap_or(0));
    if is_empty {
        Err(WordFault::Words)
    } else {
        Ok(())
    }
}

fn number_of(value: Option<&str>) -> Result<Option<u64>, WordFault> {
    let Some(text) = value else {
        return Ok(None);
    };
    match text.parse::<u64>() {
        Ok(number) => Ok(Some(number)),
        Err(_) => Err(WordFault::Words),
    }
}

/// The numbers of a list with commas, each below a limit.
fn chosen(
    alloc: Global,
    value: Option<&str>,
    limit: usize,
) -> Result<Option<Vec<bool>>, WordFault> {
    let Some(text) = value else {
        return Ok(None);
    };
    let mut chosen = vec![in alloc; false; limit]?;
    for word in text.split(',') {
        choose(&mut chosen, word)?;
    }
    Ok(Some(chosen))
}

fn choose(chosen: &mut [bool], word: &str) -> Result<(), WordFault> {
    match word.parse::<usize>() {
        Ok(number) if number < chosen.len() => {
            chosen[number] = true;
            Ok(())
        }
        _ => Err(WordFault::Words),
    }
}

// The program as `clap` knows it: no flag is one for help.
fn program<'a>(alloc: Global) -> Result<Command<'a>, AllocError> {
    let bare = Command::new(alloc, "eevdf_timeline")
        .disable_help_flag(true)
        .disable_help_subcommand(true);
    let source = bare.arg(flag(alloc, "replay"))?.arg(flag(alloc, "run"))?;
    let output = source
        .arg(flag(alloc, "html"))?
        .arg(flag(alloc, "perfetto"))?
        .arg(flag(alloc, "table"))?
        .arg(flag(alloc, "stats"))?
        .arg(flag(alloc, "json"))?
        .arg(flag(alloc, "race"))?;
    let drawn = output
        .arg(value(alloc, "rows"))?
        .arg(value(alloc, "width"))?;
    let window = drawn.arg(value(alloc, "from"))?.arg(value(alloc, "to"))?;
    window.arg(value(alloc, "cpu"))?.arg(value(alloc, "task"))
}

fn flag<'a>(alloc: Global, name: &'a str) -> Arg<'a> {
    Arg::new(alloc, name).long(name).action(ArgAction::SetTrue)
}

fn value<'a>(alloc: Global, name: &'a str) -> Arg<'a> {
    Arg::new(alloc, name).long(name).action(ArgAction::Set)
}
