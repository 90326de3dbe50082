//! How operations, deeds and answers print: as they stand in a program, in a script and in a report.

ghost use Rattle.std.specs.Prelude.{Some};
ghost use Rattle.eevdf_ops.specs.Texts.{answer_text, arguments_text, line_text, numbered_deed_text, operation_text};

use crate::deeds::{Answer, Deed, Line, Op};
use crate::origin::Origin;
use crate::signature::Arguments;
use std::fmt;

/// The operation as a program lists it, as `tick 1000`.
impl fmt::Display for Op {
    ghost output = { λ operation. Some (operation_text operation) };

    fn fmt<W: fmt::Write>(&self, f: &mut fmt::Formatter<W>) -> fmt::Result {
        let (verb, arguments) = self.signature();
        write!(f, "{verb}{arguments}")
    }
}

/// Each argument with a space before it, as ` 3 -5` of a level.
impl fmt::Display for Arguments {
    ghost output = { λ arguments. Some (arguments_text arguments) };

    fn fmt<W: fmt::Write>(&self, f: &mut fmt::Formatter<W>) -> fmt::Result {
        match self {
            Arguments::Nothing => Ok(()),
            Arguments::Time(ns) => write!(f, " {ns}"),
            Arguments::Task(task) => write!(f, " {task}"),
            Arguments::Level(task, nice) => write!(f, " {task} {nice}"),
            Arguments::State(task, nice, slice) | Arguments::NewTask(task, nice, slice) => {
                write!(f, " {task} {nice} {slice}")
            }
            Arguments::Source(source) => write!(f, " {source}"),
        }
    }
}

/// The number of the CPU, and the deed as a script lists it, as `0 tick 1000`.
impl fmt::Display for Deed {
    ghost output = { λ deed. Some (numbered_deed_text deed) };

    fn fmt<W: fmt::Write>(&self, f: &mut fmt::Formatter<W>) -> fmt::Result {
        let (cpu, origin) = self.parts();
        match origin {
            Origin::Operation(operation) => write!(f, "{cpu} {operation}"),
            Origin::Request { task, sender } => write!(f, "{cpu} wake {task} from {sender}"),
        }
    }
}

/// The answer as a report has it, as `charged 3 resched`.
impl fmt::Display for Answer {
    ghost output = { λ answer. Some (answer_text answer) };

    fn fmt<W: fmt::Write>(&self, f: &mut fmt::Formatter<W>) -> fmt::Result {
        let word = match self {
            Answer::Charged {
                task,
                resched: true,
            } => return write!(f, "charged {task} resched"),
            Answer::Charged {
                task,
                resched: false,
            } => return write!(f, "charged {task}"),
            Answer::Picked(task) => return write!(f, "picked {task}"),
            Answer::Slept(lag) => return write!(f, "slept {lag}"),
            Answer::Pulled(task) => return write!(f, "pulled {task}"),
            Answer::Rebased(by) => return write!(f, "rebased {by}"),
            Answer::Idle => "idle",
            Answer::Yielded => "yielded",
            Answer::NotRunning => "not running",
            Answer::Woken => "woken",
            Answer::Awake => "awake",
            Answer::Balanced => "balanced",
            Answer::Nothing => "nothing",
            Answer::Range => "range",
            Answer::Reniced => "reniced",
            Answer::NotHere => "not here",
            Answer::Begun => "begun",
            Answer::Ended => "ended",
            Answer::Set => "set",
        };
        f.write_str(word)
    }
}

/// The deed and its answer, as `0 pick: picked 3`.
impl fmt::Display for Line {
    ghost output = { λ line. Some (line_text line) };

    fn fmt<W: fmt::Write>(&self, f: &mut fmt::Formatter<W>) -> fmt::Result {
        write!(f, "{}: {}", self.deed, self.answer)
    }
}
